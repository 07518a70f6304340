// A line of text as octets.
#![tactic(auto)]

ghost use Rattle.std.specs.Prelude.{◌≡◌, ◌<◌, ◌≤◌, length, MatchOption};
ghost use Rattle.std.specs.Iterator.{YieldsFirstRef, item_count};
ghost use Rattle.octets.specs.Lists.{over};
ghost use Rattle.hexline.specs.Line.{is_gap, has_mark, size_of, is_piece, octets_of, place_from, parsed_of, left};
ghost use Rattle.hexline.specs.Inner.{octet_of, pieces_of, Unread};

// The place of the first character that will not do, counted from 0; or more octets than there is room for.
#[derive(Clone, Copy, PartialEq, Eq)]
pub enum HexError {
    BadAt(usize),
    TooMany,
}

// ---- the piece at the front of a line

#[tactic(auto, using(octets::proofs::Exits::wide), unfolding(crate::specs::Line::is_gap))]
fn is_gap(x: u8) -> bool
    ensures { result ≡ is_gap x }
{
    matches!(x, b' ' | b'\t' | b'\r' | b':')
}

#[tactic(auto, using(octets::proofs::Exits::exits), unfolding(crate::specs::Line::has_mark))]
fn has_mark(s: &[u8]) -> bool
    ensures { result ≡ has_mark s.now }
{
    octets::stands_at(s, 0, b"0x") || octets::stands_at(s, 0, b"0X")
}

#[tactic(auto, using(octets::proofs::Exits::exits), unfolding(crate::specs::Line::size_of))]
fn size_of(s: &[u8]) -> usize
    ensures { (result ≡ size_of s.now) × (1 ≤ result) }
{
    if octets::hex_stands(true, s, 0, 2) {
        2
    } else if has_mark(s) && octets::hex_stands(true, s, 2, 2) {
        4
    } else {
        1
    }
}

#[tactic(auto, using(octets::proofs::Exits::exits), unfolding(crate::specs::Line::is_piece))]
fn is_piece(s: &[u8]) -> bool
    ensures { result ≡ is_piece s.now }
{
    size_of(s) != 1 || is_gap(octets::octet(s, 0))
}

// The octet of the piece, if it is one.
#[tactic(auto, using(octets::proofs::Exits::exits), unfolding(crate::specs::Inner::octet_of))]
fn octet_of(s: &[u8]) -> Option<u8>
    ensures { result ≡ octet_of s.now }
{
    let size = size_of(s);
    if size == 1 {
        return None;
    }
    let x = octets::unhex_at(octets::rest(s, size - 2), 0);
    Some(x)
}

// ---- a line

// The pieces of a line, each with what follows it.
#[derive(Drop)]
struct Pieces<'a>(&'a [u8]);

impl<'a> Iterator for Pieces<'a> {
    type Item = &'a [u8];

    ghost next_gives = { YieldsFirstRef (λ s. pieces_of s.0.now) };

    ghost remaining = { item_count (λ s. pieces_of s.0.now) };

    fn next(&mut self) -> Option<&'a [u8]> {
        let s = self.0;
        if s.is_empty() {
            return None;
        }
        self.0 = octets::rest(s, size_of(s));
        Some(s)
    }
}

// What is left of the line from the first character on that begins no piece.
fn unread(line: &[u8]) -> Option<&[u8]>
    ensures { MatchOption result (place_from 0 line.now ≡ length line.now) (λ s. Unread line.now s.now) }
{
    Pieces(line).find(|s| !is_piece(s))
}

fn count(line: &[u8]) -> usize
    ensures { result ≡ length (octets_of line.now) }
{
    Pieces(line).filter_map(octet_of).count()
}

// The octets at the front of a buffer that has room for them.
fn write(line: &[u8], out: &mut [u8])
    requires { length (octets_of line.now) ≤ length out.old }
    ensures { out.new ≡ over (octets_of line.now) out.old }
{
    let mut n = 0;
    for x in Pieces(line).filter_map(octet_of) {
        n = octets::append(out, n, &[x]);
    }
}

// The octets of a line at the front of out, and how many they are. Where the line is bad or has too many, out stays as it is.
pub fn octets_of(line: &[u8], out: &mut [u8]) -> Result<usize, HexError>
    ensures { (result ≡ parsed_of (length out.old) line.now) × (out.new ≡ left result line.now out.old) }
{
    if let Some(s) = unread(line) {
        return Err(HexError::BadAt(line.len() - s.len()));
    }
    let n = count(line);
    if out.len() < n {
        return Err(HexError::TooMany);
    }
    write(line, out);
    Ok(n)
}
