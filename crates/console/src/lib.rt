// What the programs read, and what they put on the screen.
#![tactic(auto)]

ghost use Rattle.std.specs.Prelude.{◌≡◌, ◌*◌, ◌≤◌, length, IfSome, MatchResult, ◌<◌, ◌^◌};
ghost use Rattle.std.specs.Str.{IsUtf8};
ghost use Rattle.octets.specs.Lists.{cells, Appended};
ghost use Rattle.console.specs.Reads.{Leaves};
ghost use Rattle.console.specs.Inner.{spaced_at, shown_as, visible, Fronts};

use std::env::{Env, FillError};
use std::fmt::Write;
use std::io::{Error, ErrorKind, Input, Read};
use std::rt::Files;
use std::{fmt, fs};

const STDOUT: i32 = 1;

const STDERR: i32 = 2;

// Why a file was not read: it was not opened, or not read whole.
#[derive(Clone, Copy, PartialEq, Eq)]
pub enum ReadError {
    Unopened,
    Unread,
}

// ---- arguments

// How many arguments the program has, its own name among them.
pub fn arg_count<R: Env>(rt: &R) -> usize
    ensures { result < 2 ^ 64 }
{
    let mut none = [0u8; 0];
    for i in 0..usize::MAX {
        if let Err(FillError::NotPresent) = rt.arg(i, &mut none) {
            return i;
        }
    }
    usize::MAX
}

// An argument at the front of a buffer, and how many octets it has; or none, where it is missing or longer than the buffer. The buffer is
// the caller's, since the programs keep fixed memory.
pub fn arg<R: Env>(rt: &R, i: usize, buffer: &mut [u8]) -> Option<usize>
    ensures { IfSome result (λ n. n ≤ length buffer.new) }
{
    rt.arg(i, buffer).ok()
}

// ---- reading

// A path as the library takes it, which has to be UTF-8.
pub fn path_of(path: &[u8]) -> std::io::Result<&str>
    ensures { MatchResult result (λ text. text.now ≡ path.now) (λ _. IsUtf8 path.now → ⊥) }
{
    std::str::from_utf8(path).map_err(|_| Error::from(ErrorKind::InvalidFilename))
}

// Reads to the end of the file, or until the buffer is full. A read that fails is not the end: where it was a signal that
// interrupted it, too, the file counts as unread.
fn read_open<F: Read>(what: &[u8], file: &mut F, buffer: &mut [u8]) -> Result<usize, ReadError>
    ensures { Leaves result buffer.old buffer.new }
{
    let mut n = 0;
    // no `for`: n grows by what a read gives
    while n < buffer.len() {
        match file.read(&mut buffer[n..]) {
            Ok(0) => return Ok(n),
            Ok(more) => n += more,
            Err(cause) => {
                blame(what, b" cannot be read", cause);
                return Err(ReadError::Unread);
            }
        }
    }
    Ok(n)
}

fn open<R: Files>(rt: &R, path: &[u8]) -> std::io::Result<R::File> {
    fs::open(rt, path_of(path)?)
}

// The file at a path, or as much of it as the buffer takes. Where it cannot be read so far, says so on standard error, with
// `what` for its name and with the cause.
pub fn read<R: Files>(
    rt: &R,
    what: &[u8],
    path: &[u8],
    buffer: &mut [u8],
) -> Result<usize, ReadError>
    ensures { (what.now ≡ what.now) × (path.now ≡ path.now) × Leaves result buffer.old buffer.new }
{
    match open(rt, path) {
        Ok(mut file) => read_open(what, &mut file, buffer),
        Err(cause) => {
            blame(what, b" cannot be opened", cause);
            Err(ReadError::Unopened)
        }
    }
}

// Standard input, in the same way.
pub fn read_input<R: Input>(rt: &R, what: &[u8], buffer: &mut [u8]) -> Result<usize, ReadError>
    ensures { (what.now ≡ what.now) × Leaves result buffer.old buffer.new }
{
    let mut input = rt.reader();
    read_open(what, &mut input, buffer)
}

// ---- complaints, on standard error

// Words as they are. What is complained of and what is said go to two descriptors, a line each.
pub fn complain(text: &[u8])
    ensures { text.now ≡ text.now }
{
    io::write_all(STDERR, text);
}

// A number in decimal.
pub fn complain_number(n: u64)
    ensures { result ≡ tt }
{
    io::print_decimal(STDERR, n);
}

// Text in a space of its own; what does not fit is dropped, octet by octet (an ArrayString would drop the whole piece).
#[derive(Drop)]
struct Text {
    octets: [u8; 256],
    len: usize,
}

impl fmt::Write for Text {
    fn write_str(&mut self, s: &str) -> fmt::Result {
        for x in s.as_bytes() {
            if self.len < 256 {
                self.octets[self.len] = *x;
                self.len += 1;
            }
        }
        Ok(())
    }
}

// Where the system's number of an error begins in its text, or the end of the text.
fn number_at(text: &[u8]) -> usize {
    (0..text.len())
        .find(|at| octets::stands_at(text, *at, b" (os error "))
        .unwrap_or(text.len())
}

// An error in words: the system's text where it has one, and not its number.
fn complain_error(cause: Error) {
    let mut text = Text {
        octets: [0u8; 256],
        len: 0,
    };
    let _ = write!(text, "{cause}");
    let words = octets::part(&text.octets, 0, text.len);
    complain(octets::part(words, 0, number_at(words)));
}

// What was done in vain, a colon, and the cause.
pub fn fail(what: &[u8], cause: Error)
    ensures { what.now ≡ what.now }
{
    complain(what);
    complain(b": ");
    complain_error(cause);
    complain(b"\n");
}

// What could not be done, and the cause.
fn blame(what: &[u8], not: &[u8], cause: Error) {
    complain(what);
    fail(not, cause);
}

// ---- how a program ended: the last line of what it writes

pub fn ended_well()
    ensures { result ≡ tt }
{
    say(b"ok\n");
}

pub fn ended_badly(why: &[u8])
    ensures { why.now ≡ why.now }
{
    say(b"failed: ");
    say(why);
    say(b"\n");
}

// ---- words and numbers

// Words as they are.
pub fn say(text: &[u8])
    ensures { text.now ≡ text.now }
{
    io::write_all(STDOUT, text);
}

// A number in decimal.
pub fn number(n: u64)
    ensures { result ≡ tt }
{
    io::print_decimal(STDOUT, n);
}

// The meaning of a Failure Request's code, or of an account's other than 0: RFC 2759, section 6.
pub fn code(code: u64)
    ensures { result ≡ tt }
{
    match code {
        646 => say(b"restricted logon hours"),
        647 => say(b"account disabled"),
        648 => say(b"password expired"),
        649 => say(b"no dial-in permission"),
        691 => say(b"authentication failure"),
        709 => say(b"error changing password"),
        _ => say(b"another error"),
    }
}

// Octets in hex digits, with nothing between them.
pub fn hex(s: &[u8])
    ensures { s.now ≡ s.now }
{
    for piece in s.chunks(16) {
        let mut text = [0u8; 32];
        octets::to_hex(&mut text, piece);
        say(octets::part(&text, 0, piece.len() * 2));
    }
}

// ---- lines of octets

#[tactic(auto, using(octets::proofs::Exits::exits), unfolding(crate::specs::Inner::spaced_at))]
fn spaced_at(s: &[u8], k: usize) -> u8
    ensures { result ≡ spaced_at s.now k }
{
    if k % 3 == 2 {
        return 32;
    }
    octets::hex_at(s, k / 3 * 2 + k % 3)
}

#[tactic(auto, using(octets::proofs::Loops::filling))]
fn spaced(s: &[u8]) -> [u8; 48]
    ensures { result ≡ cells 48 (spaced_at s.now) }
{
    let mut text = [0u8; 48];
    for (i, x) in text.iter_mut().enumerate() {
        *x = spaced_at(s, i);
    }
    text
}

// How much of a line n octets take.
fn width(n: usize) -> usize {
    (n.min(16) * 3).saturating_sub(1)
}

// Up to 16 octets, with spaces between them.
fn line(s: &[u8]) {
    let text = spaced(s);
    let n = width(s.len());
    say(octets::part(&text, 0, n));
}

// Octets, 16 to a line, with this at the front of each line but the first.
pub fn lines(s: &[u8], margin: &[u8])
    ensures { (s.now ≡ s.now) × (margin.now ≡ margin.now) }
{
    for (i, piece) in s.chunks(16).enumerate() {
        if 0 < i {
            say(b"\n");
            say(margin);
        }
        line(piece);
    }
}

// ---- text

// An octet as it is shown: printable ASCII as it is, but for a backslash before a quotation mark and a backslash.
#[tactic(auto, using(octets::proofs::Exits::exits, octets::proofs::Appends::appended_by), unfolding(crate::specs::Inner::shown_as, crate::specs::Inner::shown_plain))]
fn append_shown(dst: &mut [u8], n: usize, x: u8) -> usize
    ensures { Appended dst.old n (shown_as x) result dst.new }
{
    match x {
        34 | 92 => octets::append(dst, n, &[92, x]),
        32..=126 => octets::append(dst, n, &[x]),
        _ => {
            let high = octets::hex_at(&[x], 0);
            let low = octets::hex_at(&[x], 1);
            octets::append(dst, n, &[92, 120, high, low])
        }
    }
}

// Text at the front of dst, which has four octets for each of its octets; how many octets that is.
#[tactic(auto, using(crate::proofs::Texts::texts))]
fn show_into(dst: &mut [u8], s: &[u8]) -> usize
    requires { 4 * length s.now ≤ length dst.old }
    ensures { Fronts (visible s.now) dst.new result }
{
    let mut n = 0;
    for x in s {
        n = append_shown(dst, n, *x);
    }
    n
}

// Text in quotation marks, with nothing in it that a terminal would obey or that reads as the end of it.
pub fn quoted(s: &[u8])
    ensures { s.now ≡ s.now }
{
    say(b"\"");
    for piece in s.chunks(64) {
        let mut text = [0u8; 256];
        let n = show_into(&mut text, piece);
        say(octets::part(&text, 0, n));
    }
    say(b"\"");
}
