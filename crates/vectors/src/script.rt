// Cases in text: a line is a name and fields, parted by single spaces. A field is pieces, joined by plus signs: hex digits,
// or hex digits and a count of repeats after a star. A minus sign stands for no octets.
ghost use Rattle.std.specs.Prelude.{◌≤◌, length};

use answer::Refusal;
use std::io;
use std::io::Print;

// Field k of a line, the name being field 0; no octets where it has fewer.
pub(crate) fn field_of(line: &[u8], k: usize) -> &[u8] {
    line.split(|x| *x == b' ').nth(k).unwrap_or(&[])
}

// The place of a piece's star, or the end.
fn star_of(text: &[u8]) -> usize
    ensures { result ≤ length text.now }
{
    text.iter().position(|x| *x == b'*').unwrap_or(text.len())
}

// The count after a piece's star, and 1 where it has none.
fn repeats_of(text: &[u8]) -> usize
    ensures { result ≤ 1048576 }
{
    let count = octets::rest(text, star_of(text) + 1);
    if count.len() == 0 {
        return 1;
    }
    octets::number_of(count).min(1048576) as usize
}

// Fills dst with the octets of hex digits, again and again; how many octets there are then.
fn decode(digits: &[u8], repeats: usize, dst: &mut [u8]) -> usize
    requires { repeats ≤ 1048576 }
    ensures { result ≤ length dst.new }
{
    let each = (digits.len() / 2).min(1048576);
    if each == 0 {
        return 0;
    }
    let n = (each * repeats).min(dst.len());
    for (i, x) in dst[..n].iter_mut().enumerate() {
        *x = octets::unhex_at(digits, i % each);
    }
    n
}

// A piece of a field at the front of dst; how many octets.
fn piece(text: &[u8], dst: &mut [u8]) -> usize
    ensures { result ≤ length dst.new }
{
    let repeats = repeats_of(text);
    decode(&text[..star_of(text)], repeats, dst)
}

// The octets of field k of a line at the front of dst, piece after piece; how many.
pub(crate) fn octets_of(line: &[u8], k: usize, dst: &mut [u8]) -> usize
    ensures { result ≤ length dst.new }
{
    let mut n = 0;
    for text in field_of(line, k).split(|x| *x == b'+') {
        n += piece(text, &mut dst[n..]);
    }
    n
}

// Field k of a line in an array, and zeros where it has fewer octets.
pub(crate) fn array<const N: usize>(line: &[u8], k: usize) -> [u8; N] {
    let mut out = [0u8; N];
    octets_of(line, k, &mut out);
    out
}

// Writes a line: the case's name, the answer's number, and octets in hex, or a minus sign for none.
pub(crate) fn tell(rt: &impl Print, name: &[u8], number: u8, value: &[u8]) -> io::Result<()> {
    let mut text = [0u8; 2048];
    let n = value.len().min(1024);
    octets::to_hex(&mut text, value);
    rt.write_all(name)?;
    rt.write_all(b" ")?;
    rt.print(number)?;
    if n == 0 {
        return rt.write_all(b" -\n");
    }
    rt.write_all(b" ")?;
    rt.write_all(&text[..n * 2])?;
    rt.write_all(b"\n")
}

// The same of octets that a call gives or refuses: zeros stand beside a refusal.
pub(crate) fn tell_made<const N: usize>(
    rt: &impl Print,
    name: &[u8],
    made: Result<[u8; N], Refusal>,
) -> io::Result<()> {
    match made {
        Ok(octets) => tell(rt, name, 0, &octets),
        Err(why) => tell(rt, name, u8::from(why), &[0; N]),
    }
}
