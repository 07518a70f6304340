// Account tables made of lines of text: document 01, "Account table".
#![tactic(auto)]

ghost use Rattle.std.specs.Prelude.{◌≡◌, ◌==◌, ◌≤◌, length, take, drop, position};
ghost use Rattle.octets.specs.Lists.{cells};
ghost use Rattle.octets.specs.Octets.{unhex_at};
ghost use Rattle.roster.specs.Lines.{before, after, trimmed, error_of, hex_secret, secret_of, code_in, code_after, bad, entry_with, entry_of};
ghost use Rattle.roster.specs.Made.{added_line, Takes, MadeBy};

use password::PasswordError;

// What is wrong with a line. Full: its record no longer fits the table.
#[derive(Clone, Copy, PartialEq, Eq)]
pub enum LineError {
    NoPassword,
    NoName,
    LongName,
    BadCode,
    BadHash,
    NotUtf8,
    LongPassword,
    Full,
}

impl From<PasswordError> for LineError {
    ghost from_gives = { λ why e. e ≡ error_of why };

    fn from(why: PasswordError) -> LineError {
        match why {
            PasswordError::NotUtf8 => LineError::NotUtf8,
            PasswordError::TooLong => LineError::LongPassword,
        }
    }
}

// The account of a line. The name is the line's first octets: its length and no slice, since it is the definition that makes an entry.
#[derive(Clone, Copy)]
pub struct Entry {
    pub code: u16,
    pub hash: [u8; 16],
    pub namelen: usize,
}

// What is wrong with a line, and what it says all the same: the code and the name's length where its password alone will not do, and
// else zeros.
#[derive(Clone, Copy, PartialEq, Eq)]
pub struct BadLine {
    pub why: LineError,
    pub code: u16,
    pub namelen: usize,
}

// What was made of a text: what is wrong with the last line that was read, if anything, how many lines were read, and how long the
// table is. A struct around the Result: lines and length are given on a fault too. A length, since the table is in a lent buffer.
#[derive(Clone, Copy)]
pub struct Made {
    pub ended: Result<(), LineError>,
    pub lines: usize,
    pub len: usize,
}

// ---- fields

// The place of the first x.
fn place(s: &[u8], x: u8) -> Option<usize>
    ensures { result ≡ position (λ y. y == x) s.now }
{
    s.iter().position(|y| *y == x)
}

// What stands before the first x, or all of s.
#[tactic(auto, using(crate::proofs::Laws::places))]
pub fn field_before(s: &[u8], x: u8) -> &[u8]
    ensures { result.now ≡ before x s.now }
{
    match place(s, x) {
        Some(n) => &s[..n],
        None => s,
    }
}

// What stands after the first x, if it is there.
#[tactic(auto, using(crate::proofs::Laws::places))]
pub fn field_after(s: &[u8], x: u8) -> &[u8]
    ensures { result.now ≡ after x s.now }
{
    match place(s, x) {
        Some(n) => &s[n + 1..],
        None => &s[..0],
    }
}

// A line without the carriage return at its end.
#[tactic(auto, unfolding(crate::specs::Lines::trimmed, octets::specs::Octets::octet_is, octets::specs::Choice::pick))]
pub fn trim(s: &[u8]) -> &[u8]
    ensures { result.now ≡ trimmed s.now }
{
    match s {
        [front @ .., b'\r'] => front,
        _ => s,
    }
}

// `hash=` and the 32 hex digits of sixteen octets.
#[tactic(auto, unfolding(crate::specs::Lines::hex_secret, octets::specs::Choice::pick))]
fn hex_secret(s: &[u8]) -> Result<[u8; 16], LineError>
    ensures { result ≡ hex_secret s.now }
{
    if s.len() != 37 {
        return Err(LineError::BadHash);
    }
    if !octets::hex_stands(true, s, 5, 32) {
        return Err(LineError::BadHash);
    }
    Ok(octets::from_hex(octets::rest(s, 5)))
}

// The hash that `hash=` and 32 hex digits give, or that of a password.
#[tactic(auto, unfolding(crate::specs::Lines::secret_of, octets::specs::Choice::pick))]
pub fn secret_of(s: &[u8]) -> Result<[u8; 16], LineError>
    ensures { result ≡ secret_of s.now }
{
    if octets::stands_at(s, 0, b"hash=") {
        return hex_secret(s);
    }
    Ok(password::hash(s)?)
}

// The code's number. By `equal`: in a match on byte strings nothing is known of a text that is none of them.
#[tactic(auto, unfolding(crate::specs::Lines::code_in, octets::specs::Choice::pick))]
fn code_in(s: &[u8]) -> Option<u16>
    ensures { result ≡ code_in s.now }
{
    if octets::equal(s, b"0") {
        return Some(0);
    }
    if octets::equal(s, b"646") {
        return Some(646);
    }
    if octets::equal(s, b"647") {
        return Some(647);
    }
    if octets::equal(s, b"648") {
        return Some(648);
    }
    if octets::equal(s, b"649") {
        return Some(649);
    }
    None
}

// The code after the password: 0 where nothing is said of it.
#[tactic(auto, using(crate::proofs::Fields::codes))]
fn code_after(rest: &[u8]) -> Option<u16>
    ensures { result ≡ code_after rest.now }
{
    match place(rest, 9) {
        Some(n) => code_in(&rest[n + 1..]),
        None => Some(0),
    }
}

// ---- a line

fn bad(why: LineError, code: u16, namelen: usize) -> BadLine
    ensures { result ≡ bad why code namelen }
{
    BadLine { why, code, namelen }
}

// A line with a name of n octets.
#[tactic(auto, unfolding(crate::specs::Lines::entry_with))]
fn entry_with(s: &[u8], n: usize) -> Result<Entry, BadLine>
    ensures { result ≡ entry_with s.now n }
{
    let rest = field_after(s, 9);
    let Some(code) = code_after(rest) else {
        return Err(bad(LineError::BadCode, 0, 0));
    };
    match secret_of(field_before(rest, 9)) {
        Ok(hash) => Ok(Entry {
            code,
            hash,
            namelen: n,
        }),
        Err(why) => Err(bad(why, code, n)),
    }
}

// The account of a line, or none where it is passed over.
#[tactic(auto, using(crate::proofs::Fields::entries))]
pub fn entry_of(s: &[u8]) -> Result<Option<Entry>, BadLine>
    ensures { result ≡ entry_of s.now }
{
    if s.len() == 0 {
        return Ok(None);
    }
    if octets::octet_is(s, 0, b'#') {
        return Ok(None);
    }
    let Some(n) = place(s, 9) else {
        return Err(bad(LineError::NoPassword, 0, 0));
    };
    if n == 0 {
        return Err(bad(LineError::NoName, 0, 0));
    }
    if 256 < n {
        return Err(bad(LineError::LongName, 0, 0));
    }
    let entry = entry_with(s, n)?;
    Ok(Some(entry))
}

// ---- a table

// A line's record at the end of a table of n octets: how long the table is after it. Where it is wrong the table stays as it is.
#[tactic(auto, using(crate::proofs::Makes::takes))]
fn take_line(table: &mut [u8], n: usize, s: &[u8]) -> Result<usize, LineError>
    requires { n ≤ length table.old }
    ensures { Takes (added_line (length table.old) (take n table.old) s.now) result n table.old table.new }
{
    // before the call, whose entry would be most of the work of a line that is passed over
    if s.is_empty() {
        return Ok(n);
    }
    if octets::octet_is(s, 0, b'#') {
        return Ok(n);
    }
    let entry = match entry_of(s) {
        Ok(Some(entry)) => entry,
        Ok(None) => return Ok(n),
        Err(bad) => return Err(bad.why),
    };
    let name = octets::part(s, 0, entry.namelen);
    accounts::append_account(table, n, entry.code as u64, entry.hash, name).ok_or(LineError::Full)
}

// The table that a text's lines make, at the front of a buffer of at most 65,536 octets.
#[tactic(auto, using(crate::proofs::Makes::makes))]
pub fn make(table: &mut [u8], text: &[u8]) -> Made
    ensures { MadeBy text.now table.old table.new result.ended result.len result.lines }
{
    if 65536 < table.len() {
        return Made {
            ended: Err(LineError::Full),
            lines: 0,
            len: 0,
        };
    }
    let mut lines = 0;
    let mut len = 0;
    let mut left = text;
    // no `split`: after the last newline it has one line more, an empty one, and lines are counted; `split_inclusive` has not, but keeps
    // the newline in each piece, which would be cut off again
    while 0 < left.len() {
        lines += 1;
        let line = field_before(left, 10);
        match take_line(table, len, trim(line)) {
            Ok(next) => len = next,
            Err(why) => {
                return Made {
                    ended: Err(why),
                    lines,
                    len,
                };
            }
        }
        left = octets::rest(left, line.len() + 1);
    }
    Made {
        ended: Ok(()),
        lines,
        len,
    }
}
