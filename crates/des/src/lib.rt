// DES (FIPS 46-3). The bits stand in words: of the n bits of a word, bit 1 is the highest.
#![tactic(auto)]

ghost use Rattle.std.specs.Prelude.{◌≡◌, true, ◌*◌, ◌^◌, ◌≤◌, ◌<◌, ◌++◌, length, get_or, take, drop};
ghost use Rattle.octets.specs.Lists.{cells};
ghost use Rattle.des.specs.Tables.{shift_table, s_table};
ghost use Rattle.des.specs.Bits.{permuted, bits_of, group_at};
ghost use Rattle.des.specs.Inner.{bits_in, Word, Table};
ghost use Rattle.des.specs.Des.{box_of, substituted, cipher_function, shifted, round_of, rounds_of, swapped, enciphered};
ghost use Rattle.des.specs.Keys.{with_parity, key_octet, key_octets};
ghost use Rattle.des.specs.Rows.{LookedUp};

mod tables;

use tables::{
    BIT_SELECTION, FINAL_PERMUTATION, INITIAL_PERMUTATION, PERMUTATION, PERMUTED_CHOICE_1,
    PERMUTED_CHOICE_2, S, SHIFTS,
};

// What a word of 28 bits, a half of the key's 56, is below; and one of 32, a half of a block's 64.
const HALF_KEY: u64 = 1 << 28;

const HALF_BLOCK: u64 = 1 << 32;

// ---- words

// Octets as one word.
fn word_of(p: &[u8]) -> u64
    requires { length p.now ≤ 8 }
    ensures { Word (8 * length p.now) (bits_of 8 p.now) result }
{
    let mut acc = 0;
    for x in p {
        acc = acc * 256 + u64::from(*x);
    }
    acc
}

// The bits of a word of BITS bits that a table of N names, in its order. By the const parameters each table has code of its own, and a
// loop over eight entries is unrolled; else DES takes nearly twice as long.
fn permuted<const N: usize, const BITS: u64>(table: &[u8; N], w: u64) -> u64
    requires { Table N BITS table.now }
    ensures { Word N (permuted table.now (bits_in BITS w)) result }
{
    let mut acc = 0;
    for i in 0..N / 8 {
        for j in 0..8 {
            let k = u64::from(table[8 * i + j]);
            acc = acc * 2 + (w >> (BITS - k)) % 2;
        }
    }
    acc
}

// ---- the cipher function

// The S-boxes as a value that is lent: the constant would be laid out anew for each lookup.
#[derive(Drop)]
struct Boxes {
    entries: [u8; 512],
    ghost are: { entries ≡ s_table },
}

impl Boxes {
    fn new() -> Boxes {
        Boxes { entries: S }
    }

    // The number at a place.
    fn looked_up(&self, place: usize) -> u8
        requires { place < 512 }
        ensures { LookedUp place result }
    {
        self.entries[place]
    }

    // What box n gives for six bits of the 48.
    fn box_at(&self, w: u64, n: usize) -> u8
        requires { n < 8 }
        ensures { (result ≡ box_of (bits_in 48 w) n) × (result < 16) }
    {
        let x = ((w >> (42 - 6 * n)) % 64) as usize;
        self.looked_up(64 * n + 16 * (2 * (x / 32 % 2) + x % 2) + x / 2 % 16)
    }

    // The 32 bits of the eight boxes.
    fn substitute(&self, w: u64) -> u64
        ensures { bits_in 32 result ≡ substituted (bits_in 48 w) }
    {
        let mut acc = 0;
        for n in 0..8 {
            acc = acc * 16 + u64::from(self.box_at(w, n));
        }
        acc
    }

    // f(R, K).
    fn cipher_function(&self, right: u64, key: u64) -> u64
        ensures { Word 32 (cipher_function (bits_in 32 right) (bits_in 48 key)) result }
    {
        let e = permuted::<48, 32>(&BIT_SELECTION, right);
        let bits = self.substitute(e ^ key);
        permuted::<32, 32>(&PERMUTATION, bits)
    }

    // L and R, the two halves of 64 bits, become R and L + f(R, K).
    fn round(&self, lr: u64, key: u64) -> u64
        ensures { bits_in 64 result ≡ round_of (bits_in 64 lr) (bits_in 48 key) }
    {
        let right = lr % HALF_BLOCK;
        let f = self.cipher_function(right, key);
        right * HALF_BLOCK + ((lr >> 32) ^ f)
    }
}

// ---- the key schedule and the rounds

// The left shifts of round n, counted from 0.
fn shift_count(n: usize) -> u8
    requires { n < 16 }
    ensures { (result ≡ get_or shift_table n 0) × (result ≤ 2) }
{
    SHIFTS[n]
}

// 28 bits shifted left, around the end.
fn rotate(w: u64, s: u64) -> u64
    requires { (w < 2 ^ 28) × (s ≤ 28) }
    ensures { Word 28 (drop s (bits_in 28 w) ++ take s (bits_in 28 w)) result }
{
    (w << s) % HALF_KEY + (w >> (28 - s))
}

// C and D, the two halves of 56 bits, shifted left as round n does it.
fn shift(cd: u64, n: usize) -> u64
    requires { (cd < 2 ^ 56) × (n < 16) }
    ensures { Word 56 (shifted (get_or shift_table n 0) (bits_in 56 cd)) result }
{
    let s = u64::from(shift_count(n));
    let c = rotate(cd >> 28, s);
    let d = rotate(cd % HALF_KEY, s);
    c * HALF_KEY + d
}

// L and R after the sixteen rounds.
fn rounds(first: u64, initial: u64) -> u64
    requires { first < 2 ^ 56 }
    ensures { bits_in 64 result ≡ rounds_of (bits_in 56 first) (bits_in 64 initial) 16 }
{
    let boxes = Boxes::new();
    let mut cd = first;
    let mut lr = initial;
    for n in 0..16 {
        cd = shift(cd, n);
        let key = permuted::<48, 56>(&PERMUTED_CHOICE_2, cd);
        lr = boxes.round(lr, key);
    }
    lr
}

// ---- a block

// R and then L.
fn swap(lr: u64) -> u64
    ensures { bits_in 64 result ≡ swapped (bits_in 64 lr) }
{
    lr.rotate_left(32)
}

// One block enciphered under a key.
pub fn encipher(key: [u8; 8], block: [u8; 8]) -> [u8; 8]
    ensures { result ≡ enciphered key block }
{
    let cd = permuted::<56, 64>(&PERMUTED_CHOICE_1, word_of(&key));
    let initial = permuted::<64, 64>(&INITIAL_PERMUTATION, word_of(&block));
    let preoutput = swap(rounds(cd, initial));
    let w = permuted::<64, 64>(&FINAL_PERMUTATION, preoutput);
    w.to_be_bytes()
}

// ---- keys of seven octets

// Seven bits, and the low bit that makes the number of ones odd.
fn with_parity(n: u64) -> u8
    requires { n < 128 }
    ensures { result ≡ with_parity n }
{
    let high = (2 * n) as u8;
    let ones = u8::count_ones(high);
    high + (1 - ones % 2) as u8
}

// Eight octets from 56 bits.
fn with_parities(w: u64) -> [u8; 8]
    ensures { result ≡ cells 8 (key_octet (bits_in 56 w)) }
{
    std::array::from_fn(|i| with_parity((w >> (49 - 7 * i)) % 128))
}

// A key of seven octets as eight, each with its parity bit.
pub fn key_octets(k: [u8; 7]) -> [u8; 8]
    ensures { result ≡ key_octets k }
{
    let w = word_of(&k);
    with_parities(w)
}
