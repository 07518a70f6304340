// An account table on the screen.
ghost use Rattle.std.specs.Prelude.{◌≤◌};

use octets::Order;

fn row(item: &[u8], hashes: bool) {
    let code = octets::number_at(Order::Little, item, 4);
    if code == 0 {
        console::say(b"    0  ");
    } else {
        console::say(b"  ");
        console::number(code as u64);
        console::say(b"  ");
    }
    if hashes {
        console::say(b"hash=");
        console::hex(octets::part(item, 6, 16));
        console::say(b"  ");
    }
    console::quoted(octets::rest(item, 22));
    if code != 0 {
        console::say(b" (");
        console::code(code as u64);
        console::say(b")");
    }
    console::say(b"\n");
}

// The length of the first record of a well-formed table.
fn size_of(table: &[u8]) -> usize
    ensures { (4 ≤ result) × (result ≤ 65535) }
{
    octets::number_at(Order::Little, table, 0).clamp(4, 65535)
}

// Shows a record, if it is an account; whether it is.
fn show(item: &[u8], hashes: bool) -> bool {
    let shown = octets::number_at(Order::Little, item, 2) == 1;
    if shown {
        row(item, hashes);
    }
    shown
}

fn count(n: usize) {
    console::number(n as u64);
    if n == 1 {
        console::say(b" account, ");
        return;
    }
    console::say(b" accounts, ");
}

// The accounts of a well-formed table, and that all went well.
pub(crate) fn rows(table: &[u8], hashes: bool) {
    let mut n = 0;
    let mut left = table;
    // no `for`: a record's length stands in its octets
    while 0 < left.len() {
        let size = size_of(left);
        n += usize::from(show(octets::part(left, 0, size), hashes));
        left = octets::rest(left, size);
    }
    count(n);
    console::number(table.len() as u64);
    console::say(b" octets\n");
    console::ended_well();
}

fn malformed() {
    console::complain(b"table: TABLE is not a well-formed account table\n");
    console::ended_badly(b"nothing was listed");
}

fn check(table: &[u8], hashes: bool) {
    match accounts::check(table) {
        Ok(()) => rows(table, hashes),
        Err(_) => malformed(),
    }
}

// One octet more than a table has at most, so that a longer file is seen to be longer.
pub(crate) fn list(rt: &HostRuntime, path: &[u8], hashes: bool) {
    let mut table = [0u8; 65537];
    match console::read(rt, b"table: TABLE", path, &mut table) {
        Ok(n) => check(octets::part(&table, 0, n), hashes),
        Err(_) => console::ended_badly(b"nothing was listed"),
    }
}
