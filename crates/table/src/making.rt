// An account table made of lines, and written only where every line is right.
use super::{listing, saving, warning};
use roster::LineError;
use saving::SaveError;

// What this program says of it; a Display would need a writer on standard error, which has octets alone.
fn words(why: LineError) -> &'static [u8] {
    match why {
        LineError::NoPassword => b"there is no tab after the name",
        LineError::NoName => b"the name is empty",
        LineError::LongName => b"the name has more than 256 octets",
        LineError::BadCode => {
            b"what follows the second tab is not one of the codes 0, 646, 647, 648 and 649; a password with a tab in it has to be given as hash="
        }
        LineError::BadHash => b"hash= is not followed by 32 hex digits",
        LineError::NotUtf8 => b"the password is not UTF-8",
        LineError::LongPassword => b"the password has more than 256 UTF-16 units",
        LineError::Full => b"the table would have more than 65,536 octets",
    }
}

fn refuse(why: LineError, number: usize) {
    warning::warn(number, words(why));
    console::say(b"failed: line ");
    console::number(number as u64);
    console::say(b" is wrong; nothing was written\n");
}

// The paths of the lines and of the table, and whether the hashes are listed too.
#[derive(Clone, Copy)]
pub(crate) struct Making<'a> {
    pub lines: &'a [u8],
    pub path: &'a [u8],
    pub hashes: bool,
}

fn finish(rt: &HostRuntime, making: Making, table: &[u8]) {
    match saving::write(rt, making.lines, making.path, table) {
        Ok(()) => listing::rows(table, making.hashes),
        Err(SaveError::Nothing) => console::ended_badly(b"nothing was written"),
        Err(SaveError::Unsettled) => {
            console::ended_badly(b"TABLE was replaced, but a crash may undo that")
        }
    }
}

fn convert(rt: &HostRuntime, making: Making, text: &[u8]) {
    let mut table = [0u8; 65536];
    let made = roster::make(&mut table, text);
    if let Err(why) = made.ended {
        refuse(why, made.lines);
        return;
    }
    let table = octets::part(&table, 0, made.len);
    warning::lines(table, text);
    finish(rt, making, table);
}

// A text without the byte order mark at its front.
fn unmarked(text: &[u8]) -> &[u8] {
    if !octets::stands_at(text, 0, b"\xEF\xBB\xBF") {
        return text;
    }
    console::complain(b"table: LINES begins with a byte order mark, which is dropped\n");
    octets::rest(text, 3)
}

fn read(rt: &HostRuntime, making: Making, text: &[u8]) {
    if text.len() == 262144 {
        console::complain(b"table: LINES has 262,144 octets or more\n");
        console::ended_badly(b"nothing was written");
        return;
    }
    convert(rt, making, unmarked(text));
}

pub(crate) fn make(rt: &HostRuntime, making: Making) {
    let mut text = [0u8; 262144];
    match console::read(rt, b"table: LINES", making.lines, &mut text) {
        Ok(n) => read(rt, making, octets::part(&text, 0, n)),
        Err(_) => console::ended_badly(b"nothing was written"),
    }
}
