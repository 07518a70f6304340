// Octets of slices: total helpers, whatever the slice and the place.
#![tactic(auto)]

ghost use Rattle.std.specs.Prelude.{◌≡◌, ◌<◌, ◌≤◌, ◌+◌, length, get_or, take, drop, MatchOption};
ghost use Rattle.octets.specs.Lists.{cells, sized, put, Appended};
ghost use Rattle.octets.specs.Octets.{octet_is, stands_at, same, pair_of, number_at, is_hex, all_hex, hex_stands, hex_value, hex_digit, hex_at, unhex_at, is_digit, digits, digit_value, number, decimal};

// The order of a number's octets: the low one first, or the high one first.
#[derive(Clone, Copy)]
pub enum Order {
    Little,
    Big,
}

// The octet at i, and 0 past the end: no Option, since it is the definition `get_or`, which is total. Slice and place are two arguments here
// and below: `rest` gives the slice from a place on, and the others are said of it.
pub fn octet(p: &[u8], i: usize) -> u8
    ensures { result ≡ get_or p.now i 0 }
{
    p.get(i).copied().unwrap_or(0)
}

// Whether x stands at i.
#[tactic(auto, unfolding(crate::specs::Octets::octet_is))]
pub fn octet_is(p: &[u8], i: usize, x: u8) -> bool
    ensures { result ≡ octet_is p.now i x }
{
    octet(p, i) == x
}

// The octets from i on.
pub fn rest(p: &[u8], i: usize) -> &[u8]
    ensures { result.now ≡ drop i p.now }
{
    p.get(i..).unwrap_or(&[])
}

// n octets from i on, or as many as there are.
pub fn part(p: &[u8], i: usize, n: usize) -> &[u8]
    ensures { result.now ≡ take n (drop i p.now) }
{
    let t = rest(p, i);
    t.get(..n).unwrap_or(t)
}

// The place after n octets from i on, where dst has room for them.
fn end_of(dst: &[u8], i: usize, n: usize) -> Option<usize>
    ensures { MatchOption result (length dst.now < i + n) (λ end. (end ≡ i + n) × (end ≤ length dst.now)) }
{
    let end = i.checked_add(n)?;
    if dst.len() < end {
        return None;
    }
    Some(end)
}

// Copies src over a slice of its length. For `copy_from_slice` the archive would call C's memmove too, and it calls memcpy and memset alone.
// By index: after `iter_mut().zip(src)` a proof knows the length of dst alone, so the clause did not close.
fn copy(dst: &mut [u8], src: &[u8])
    requires { length dst.old ≡ length src.now }
    ensures { dst.new ≡ src.now }
{
    for (i, x) in dst.iter_mut().enumerate() {
        *x = src[i];
    }
}

// Copies src into dst from i where it fits; else dst stays as it is.
pub fn put_at(dst: &mut [u8], i: usize, src: &[u8])
    ensures { dst.new ≡ put dst.old i src.now }
{
    append(dst, i, src);
}

// Fills dst with the octets of src, and zeros after them.
#[tactic(auto, using(crate::proofs::Scans::fill_zeros))]
pub fn fill(dst: &mut [u8], src: &[u8])
    ensures { dst.new ≡ sized (length dst.old) src.now }
{
    let t = part(src, 0, dst.len());
    let (front, back) = dst.split_at_mut(t.len());
    copy(front, t);
    back.fill(0);
}

// Copies src into dst from i, and gives the place after it; where it does not fit, dst stays as it is and i comes back.
// The slice and the place stay two arguments: a cursor over both would say the same `Appended` of its fields, and each writer would
// make one of its slice and hand out its place, so it is no plainer.
// No Option here, in append_hex and in append_decimal: that i comes back where it does not fit is said by the clause `Appended`, which
// theorems of accounts, state and writers name.
pub fn append(dst: &mut [u8], i: usize, src: &[u8]) -> usize
    ensures { Appended dst.old i src.now result dst.new }
{
    match end_of(dst, i, src.len()) {
        Some(end) => {
            copy(&mut dst[i..end], src);
            end
        }
        None => i,
    }
}

// Whether two slices are equal. Of slices of one length every octet is looked at, so no `==`, which may stop at the first that differs.
#[tactic(auto, using(crate::proofs::Scans::same_other, crate::proofs::Scans::compare_none, crate::proofs::Scans::compare_more, crate::proofs::Scans::compare_done))]
pub fn equal(a: &[u8], b: &[u8]) -> bool
    ensures { result ≡ same a.now b.now }
{
    if a.len() != b.len() {
        return false;
    }
    let mut d = 0;
    for (x, y) in a.iter().zip(b) {
        d |= *x ^ *y;
    }
    d == 0
}

// Whether word stands at i.
#[tactic(auto, unfolding(crate::specs::Octets::stands_at))]
pub fn stands_at(p: &[u8], i: usize, word: &[u8]) -> bool
    ensures { result ≡ stands_at p.now i word.now }
{
    let t = part(p, i, word.len());
    equal(t, word)
}

// The number that two octets stand for.
fn pair_of(order: Order, a: u8, b: u8) -> usize
    ensures { result ≡ pair_of order a b }
{
    match order {
        Order::Little => usize::from(u16::from_le_bytes([a, b])),
        Order::Big => usize::from(u16::from_be_bytes([a, b])),
    }
}

// The number of the two octets at i; an octet past the end counts as 0.
#[tactic(auto, unfolding(crate::specs::Octets::number_at))]
pub fn number_at(order: Order, p: &[u8], i: usize) -> usize
    ensures { result ≡ number_at order p.now i }
{
    let t = rest(p, i);
    pair_of(order, octet(t, 0), octet(t, 1))
}

// Whether x is a hex digit: A to F, and a to f where either case is taken, which std's test takes always.
#[tactic(auto, using(crate::proofs::Exits::exits), unfolding(crate::specs::Octets::is_hex))]
fn is_hex(either: bool, x: u8) -> bool
    ensures { result ≡ is_hex either x }
{
    match x {
        b'0'..=b'9' | b'A'..=b'F' => true,
        b'a'..=b'f' => either,
        _ => false,
    }
}

// Whether every octet is a hex digit.
pub fn all_hex(either: bool, s: &[u8]) -> bool
    ensures { result ≡ all_hex either s.now }
{
    s.iter().all(|x| is_hex(either, *x))
}

// Whether n hex digits stand at i.
#[tactic(auto, using(crate::proofs::Exits::exits), unfolding(crate::specs::Octets::hex_stands))]
pub fn hex_stands(either: bool, p: &[u8], i: usize, n: usize) -> bool
    ensures { result ≡ hex_stands either p.now i n }
{
    let t = part(p, i, n);
    n <= t.len() && all_hex(either, t)
}

// The value of a hex digit of either case; 0 for any other octet: no Option, since it is the definition `hex_value`, which is total.
#[tactic(auto, using(crate::proofs::Exits::exits), unfolding(crate::specs::Octets::hex_value))]
fn hex_value(x: u8) -> u8
    ensures { (result ≡ hex_value x) × (result < 16) }
{
    match x {
        b'0'..=b'9' => x - b'0',
        b'A'..=b'F' => x - b'A' + 10,
        b'a'..=b'f' => x - b'a' + 10,
        _ => 0,
    }
}

#[tactic(auto, using(crate::proofs::Exits::exits), unfolding(crate::specs::Octets::hex_digit))]
fn hex_digit(n: u8) -> u8
    requires { n < 16 }
    ensures { result ≡ hex_digit n }
{
    if n < 10 { b'0' + n } else { b'A' + (n - 10) }
}

// Digit k of the octets h, in upper case, the high half of an octet first.
#[tactic(auto, using(crate::proofs::Exits::exits), unfolding(crate::specs::Octets::hex_at))]
pub fn hex_at(h: &[u8], k: usize) -> u8
    ensures { result ≡ hex_at h.now k }
{
    let x = octet(h, k / 2);
    hex_digit(if k % 2 == 0 { x / 16 } else { x % 16 })
}

// Fills dst with the hex digits of src.
pub fn to_hex(dst: &mut [u8], src: &[u8])
    ensures { dst.new ≡ cells (length dst.old) (hex_at src.now) }
{
    for (k, x) in dst.iter_mut().enumerate() {
        *x = hex_at(src, k);
    }
}

// Appends the first n hex digits of src.
pub fn append_hex(dst: &mut [u8], i: usize, n: usize, src: &[u8]) -> usize
    ensures { Appended dst.old i (cells n (hex_at src.now)) result dst.new }
{
    match end_of(dst, i, n) {
        Some(end) => {
            to_hex(&mut dst[i..end], src);
            end
        }
        None => i,
    }
}

// Octet k of the digits d; a digit past the end counts as 0.
#[tactic(auto, using(crate::proofs::Scans::unhex_past), unfolding(crate::specs::Octets::unhex_at))]
pub fn unhex_at(d: &[u8], k: usize) -> u8
    ensures { result ≡ unhex_at d.now k }
{
    if k < d.len() {
        let high = octet(d, k * 2);
        let low = octet(d, k * 2 + 1);
        return hex_value(high) * 16 + hex_value(low);
    }
    0
}

// The sixteen octets of 32 hex digits.
pub fn from_hex(d: &[u8]) -> [u8; 16]
    ensures { result ≡ cells 16 (unhex_at d.now) }
{
    std::array::from_fn(|k| unhex_at(d, k))
}

// How many digits a slice begins with.
pub fn digits_of(s: &[u8]) -> usize
    ensures { result ≡ digits s.now }
{
    s.iter()
        .position(|x| !x.is_ascii_digit())
        .unwrap_or(s.len())
}

fn digit_value(x: u8) -> u64
    ensures { (result ≡ digit_value x) × (result < 208) }
{
    u64::from(x.saturating_sub(b'0'))
}

// The number of at most ten digits, and 0 for more: no Option, since it is the definition `number`, which is total.
#[tactic(auto, using(crate::proofs::Exits::exits, crate::proofs::Scans::numbering), unfolding(crate::specs::Octets::number))]
pub fn number_of(s: &[u8]) -> u64
    ensures { result ≡ number s.now }
{
    if 10 < s.len() {
        return 0;
    }
    let mut acc: u64 = 0;
    for x in s {
        acc = acc * 10 + digit_value(*x);
    }
    acc
}

// The decimal digits of n, at the end of ten octets. By index, since the slice from i on is handed out.
#[tactic(auto, using(crate::proofs::Decimals::spelling))]
fn decimal_of(n: u64, space: &mut [u8; 10]) -> &[u8]
    ensures { result.now ≡ decimal n }
{
    let mut left = n;
    for i in (0..10).rev() {
        space[i] = b'0' + (left % 10) as u8;
        left /= 10;
        if left == 0 {
            return &space[i..];
        }
    }
    space
}

// How many digits a number has in decimal.
#[tactic(auto, using(crate::proofs::Decimals::few_decimal))]
pub fn decimal_len(n: u64) -> usize
    ensures { (result ≡ length (decimal n)) × (result ≤ 10) }
{
    decimal_of(n, &mut [0; 10]).len()
}

// Appends a number's decimal digits.
pub fn append_decimal(dst: &mut [u8], i: usize, n: u64) -> usize
    ensures { Appended dst.old i (decimal n) result dst.new }
{
    append(dst, i, decimal_of(n, &mut [0; 10]))
}

// N octets from a place on, and zeros where there are fewer.
pub fn array_at<const N: usize>(p: &[u8], at: usize) -> [u8; N]
    ensures { result ≡ sized N (drop at p.now) }
{
    let mut out = [0u8; N];
    fill(&mut out, rest(p, at));
    out
}
