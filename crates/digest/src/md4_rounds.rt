// The three rounds of MD4 (RFC 1320, 3.3 to 3.5).
ghost use Rattle.std.specs.Prelude.{◌≡◌, ◌<◌};
ghost use Rattle.digest.specs.Md4.{function, constant, places, shifts, operation, round, compressed, output};

use super::blocks::{Digest, octets_of};
use super::words::{choose, majority, parity};
use octets::Order;

#[derive(Clone, Copy)]
pub struct Buffer {
    pub a: u32,
    pub b: u32,
    pub c: u32,
    pub d: u32,
}

pub const INITIAL: Buffer = Buffer {
    a: 0x67452301,
    b: 0xEFCDAB89,
    c: 0x98BADCFE,
    d: 0x10325476,
};

#[derive(Clone, Copy)]
pub enum Round {
    First,
    Second,
    Third,
}

impl Round {
    fn function(self, x: u32, y: u32, z: u32) -> u32
        ensures { result ≡ function self x y z }
    {
        match self {
            Round::First => choose(x, y, z),
            Round::Second => majority(x, y, z),
            Round::Third => parity(x, y, z),
        }
    }

    fn constant(self) -> u32
        ensures { result ≡ constant self }
    {
        match self {
            Round::First => 0,
            Round::Second => 0x5A827999,
            Round::Third => 0x6ED9EBA1,
        }
    }

    // The places in the block of the words of the operations.
    fn places(self) -> [usize; 16]
        ensures { result ≡ places self }
    {
        match self {
            Round::First => [0, 1, 2, 3, 4, 5, 6, 7, 8, 9, 10, 11, 12, 13, 14, 15],
            Round::Second => [0, 4, 8, 12, 1, 5, 9, 13, 2, 6, 10, 14, 3, 7, 11, 15],
            Round::Third => [0, 8, 4, 12, 2, 10, 6, 14, 1, 9, 5, 13, 3, 11, 7, 15],
        }
    }

    // The shifts of each four operations.
    fn shifts(self) -> [u32; 4]
        ensures { result ≡ shifts self }
    {
        match self {
            Round::First => [3, 7, 11, 19],
            Round::Second => [3, 5, 9, 13],
            Round::Third => [3, 9, 11, 15],
        }
    }

    // One operation with the word x and the shift s.
    fn operation(self, s: u32, x: u32, r: Buffer) -> Buffer
        requires { (0 < s) × (s < 32) }
        ensures { result ≡ operation self s x r }
    {
        let f = self.function(r.b, r.c, r.d);
        let k = self.constant();
        let sum = r.a.wrapping_add(f).wrapping_add(x).wrapping_add(k);
        Buffer {
            a: r.d,
            b: sum.rotate_left(s),
            c: r.b,
            d: r.c,
        }
    }

    // The sixteen operations.
    fn operations(self, block: &[u32; 16], r: Buffer) -> Buffer
        ensures { result ≡ round self block.now r }
    {
        let places = self.places();
        let shifts = self.shifts();
        let mut q = r;
        for t in 0..16 {
            q = self.operation(shifts[t % 4], block[places[t]], q);
        }
        q
    }
}

impl Digest<16> for Buffer {
    ghost compressed = { compressed };

    ghost output = { output };

    // The registers have their names in the sum too: in arrays both digests would have one sum, but each operation would index them.
    fn compress(self, block: &[u32; 16]) -> Buffer {
        let one = Round::First.operations(block, self);
        let two = Round::Second.operations(block, one);
        let q = Round::Third.operations(block, two);
        Buffer {
            a: self.a.wrapping_add(q.a),
            b: self.b.wrapping_add(q.b),
            c: self.c.wrapping_add(q.c),
            d: self.d.wrapping_add(q.d),
        }
    }

    fn output(self) -> [u8; 16] {
        octets_of(Order::Little, &[self.a, self.b, self.c, self.d])
    }
}
