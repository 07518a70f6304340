// The eighty rounds of SHA-1 (FIPS 180-1, 5 to 7).
ghost use Rattle.std.specs.Prelude.{◌≡◌, ◌+◌, ◌%◌, ◌≤◌, length, drop, slice_index};
ghost use Rattle.octets.specs.Lists.{cells, turns};
ghost use Rattle.digest.specs.Sha1.{function, constant, extended, schedule, round, rounds, compressed, output};

use super::blocks::{Digest, octets_of};
use super::words::{choose, majority, parity};
use octets::Order;

#[derive(Clone, Copy)]
pub struct Buffer {
    pub a: u32,
    pub b: u32,
    pub c: u32,
    pub d: u32,
    pub e: u32,
}

pub const INITIAL: Buffer = Buffer {
    a: 0x67452301,
    b: 0xEFCDAB89,
    c: 0x98BADCFE,
    d: 0x10325476,
    e: 0xC3D2E1F0,
};

fn function_of(t: usize, x: u32, y: u32, z: u32) -> u32
    ensures { result ≡ function t x y z }
{
    if t < 20 {
        return choose(x, y, z);
    }
    if t < 40 {
        return parity(x, y, z);
    }
    if t < 60 {
        return majority(x, y, z);
    }
    parity(x, y, z)
}

fn constant_of(t: usize) -> u32
    ensures { result ≡ constant t }
{
    if t < 20 {
        return 0x5A827999;
    }
    if t < 40 {
        return 0x6ED9EBA1;
    }
    if t < 60 {
        return 0x8F1BBCDC;
    }
    0xCA62C1D6
}

// Round t with the word w.
fn round_of(t: usize, w: u32, r: Buffer) -> Buffer
    ensures { result ≡ round t w r }
{
    let f = function_of(t, r.b, r.c, r.d);
    let k = constant_of(t);
    let turned = r.a.rotate_left(5);
    Buffer {
        a: turned
            .wrapping_add(f)
            .wrapping_add(r.e)
            .wrapping_add(w)
            .wrapping_add(k),
        b: r.a,
        c: r.b.rotate_left(30),
        d: r.c,
        e: r.d,
    }
}

// The first sixteen rounds, over the block's words.
fn first_rounds(w: &[u32; 16], r: Buffer) -> Buffer
    ensures { result ≡ turns round (λ k. slice_index w.now k) r 16 }
{
    let mut q = r;
    for (t, x) in w.iter().enumerate() {
        q = round_of(t, *x, q);
    }
    q
}

// n rounds more, from round t on. Of the sixteen words before W(t), place i % 16 of w has W(i); the contract reads them from there
// in their order. Each new word takes the place of the one sixteen before it.
fn next_rounds(t: usize, n: usize, w: &mut [u32; 16], r: Buffer) -> Buffer
    requires { (t + n ≤ 80) × (length w.old ≡ 16) }
    ensures { (length w.new ≡ 16) × (cells 16 (λ k. slice_index w.new ((t + n + k) % 16)) ≡ drop n (extended (cells 16 (λ k. slice_index w.old ((t + k) % 16))) n)) × (result ≡ turns (λ k. round (t + k)) (λ k. slice_index (extended (cells 16 (λ k. slice_index w.old ((t + k) % 16))) n) (16 + k)) r n) }
{
    let mut q = r;
    for k in 0..n {
        let i = t + k;
        let mixed = w[(i + 13) % 16] ^ w[(i + 8) % 16] ^ w[(i + 2) % 16] ^ w[i % 16];
        let x = mixed.rotate_left(1);
        w[i % 16] = x;
        q = round_of(i, x, q);
    }
    q
}

// The eighty rounds. The block's own words become the schedule. Each part has one function and one constant, and is short enough
// for the compiler to unroll.
fn rounds_of(mut w: [u32; 16], r: Buffer) -> Buffer
    ensures { result ≡ rounds 0 80 (schedule w) r }
{
    let a = first_rounds(&w, r);
    let b = next_rounds(16, 4, &mut w, a);
    let c = next_rounds(20, 10, &mut w, b);
    let d = next_rounds(30, 10, &mut w, c);
    let e = next_rounds(40, 10, &mut w, d);
    let f = next_rounds(50, 10, &mut w, e);
    let g = next_rounds(60, 10, &mut w, f);
    next_rounds(70, 10, &mut w, g)
}

impl Digest<20> for Buffer {
    ghost compressed = { compressed };

    ghost output = { output };

    // The sum by name, as in MD4.
    fn compress(self, block: &[u32; 16]) -> Buffer {
        let q = rounds_of(*block, self);
        Buffer {
            a: self.a.wrapping_add(q.a),
            b: self.b.wrapping_add(q.b),
            c: self.c.wrapping_add(q.c),
            d: self.d.wrapping_add(q.d),
            e: self.e.wrapping_add(q.e),
        }
    }

    fn output(self) -> [u8; 20] {
        octets_of(Order::Big, &[self.a, self.b, self.c, self.d, self.e])
    }
}
