// What is odd about the lines that a table was made of: it is said, and not refused.
// The hash of the empty password: MD4 of no octets.
const EMPTY: [u8; 16] = [
    0x31, 0xD6, 0xCF, 0xE0, 0xD1, 0x6A, 0xE9, 0x31, 0xB7, 0x3C, 0x59, 0xD7, 0xE0, 0xC0, 0x89, 0xC0,
];

// A line that is odd or wrong.
pub(crate) fn warn(number: usize, what: &[u8]) {
    console::complain(b"table: line ");
    console::complain_number(number as u64);
    console::complain(b": ");
    console::complain(what);
    console::complain(b"\n");
}

// Where the hash of a user's account begins, if it has one.
fn hash_of(table: &[u8], user: &[u8]) -> Option<usize> {
    match accounts::find(table, user) {
        Ok(Some(account)) => Some(account.hash),
        _ => None,
    }
}

// An account whose hash begins at `place` in the table that all lines make.
fn account(table: &[u8], place: usize, number: usize, name: &[u8], hash: [u8; 16]) {
    if hash_of(table, name) != Some(place) {
        warn(
            number,
            b"the name stands in a line before this, and that line counts",
        );
    }
    if roster::field_before(name, 92).len() != name.len() {
        warn(
            number,
            b"the name has a backslash: a Response with this name is one of the user after the backslash, and does not find this account",
        );
    }
    if octets::equal(&hash, &EMPTY) {
        warn(number, b"the password is empty");
    }
}

// A line whose record, if it is an account, begins at `at` in the table; the place after that.
fn line(table: &[u8], at: usize, number: usize, s: &[u8]) -> usize {
    // before the call, whose entry would be most of the work of a line that is passed over
    if s.is_empty() || octets::octet_is(s, 0, b'#') {
        return at;
    }
    let Ok(Some(entry)) = roster::entry_of(s) else {
        return at;
    };
    let place = at.wrapping_add(6);
    let name = octets::part(s, 0, entry.namelen);
    account(table, place, number, name, entry.hash);
    place.wrapping_add(entry.namelen.wrapping_add(16))
}

// The lines of a text, and the table that they make.
pub(crate) fn lines(table: &[u8], text: &[u8]) {
    let mut at = 0;
    for (i, s) in text.split(|x| *x == b'\n').enumerate() {
        at = line(table, at, i + 1, roster::trim(s));
    }
}
