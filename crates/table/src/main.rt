// Makes account tables of lines of text, and lists them.
#![tactic(auto)]

ghost use Rattle.std.specs.Prelude.{◌≤◌, IfSome};

use making::Making;

mod listing;
mod making;
mod saving;
mod warning;

// What is wrong, and a hint. Each program has its own: in console it could state nothing that an edit breaks.
fn complain(what: &[u8]) {
    console::complain(b"table: ");
    console::complain(what);
    console::complain(b"; `table help` says how to call it\n");
    console::ended_badly(b"bad arguments");
}

fn help() {
    console::say(
        b"table make LINES TABLE [hashes]
    Makes the account table TABLE of the lines of the file LINES, and lists it. Where
    a line is wrong it says so, and TABLE stays as it is. TABLE keeps its mode, owner
    and group; a new one only you may read: a password's hash is as good as the
    password. TABLE may not be a symbolic link.

table list TABLE [hashes]
    Lists the accounts of TABLE, with the word hashes their hashes too.

    A line is NAME, a tab, PASSWORD, or NAME, a tab, PASSWORD, a tab, CODE:
    NAME      1 to 256 octets, not beginning with #; spaces are part of it
    PASSWORD  UTF-8 without a tab, up to 256 UTF-16 units, or hash= and 32 hex digits
    CODE      0 (may log in; so where it is left out), 646 (restricted logon hours),
              647 (account disabled), 648 (password expired) or 649 (no dial-in
              permission)
    Empty lines and lines that begin with # are passed over. Of several lines with
    one name the first counts.

    The last line says ok or failed: and why; what is wrong is said on standard error.
    `tools/table` gives that as an exit status.
",
    );
    console::ended_well();
}

// Whether argument i is the word hashes, where there is one; if it is another, says so.
fn hashes_at(rt: &HostRuntime, i: usize, count: usize) -> Option<bool> {
    if count == i {
        return Some(false);
    }
    let mut word = [0u8; 16];
    let n = console::arg(rt, i, &mut word).unwrap_or(0);
    match &word[..n] {
        b"hashes" => Some(true),
        _ => {
            complain(b"the last word is not hashes");
            None
        }
    }
}

// A path at the front of an array, and how many octets it has; none where it is missing, empty or too long.
fn path_at(rt: &HostRuntime, i: usize, path: &mut [u8; 4096]) -> Option<usize>
    ensures { IfSome result (λ n. n ≤ 4096) }
{
    console::arg(rt, i, path).filter(|n| 0 < *n)
}

fn make(rt: &HostRuntime, count: usize) {
    if count < 4 {
        complain(b"LINES or TABLE is missing");
        return;
    }
    if 5 < count {
        complain(b"there are too many arguments");
        return;
    }
    let mut lines = [0u8; 4096];
    let Some(n) = path_at(rt, 2, &mut lines) else {
        complain(b"LINES is empty or too long");
        return;
    };
    let mut table = [0u8; 4096];
    let Some(m) = path_at(rt, 3, &mut table) else {
        complain(b"TABLE is empty or too long");
        return;
    };
    if let Some(hashes) = hashes_at(rt, 4, count) {
        let lines = &lines[..n];
        let path = &table[..m];
        making::make(
            rt,
            Making {
                lines,
                path,
                hashes,
            },
        );
    }
}

fn list(rt: &HostRuntime, count: usize) {
    if count < 3 {
        complain(b"TABLE is missing");
        return;
    }
    if 4 < count {
        complain(b"there are too many arguments");
        return;
    }
    let mut table = [0u8; 4096];
    let Some(n) = path_at(rt, 2, &mut table) else {
        complain(b"TABLE is empty or too long");
        return;
    };
    if let Some(hashes) = hashes_at(rt, 3, count) {
        listing::list(rt, &table[..n], hashes);
    }
}

fn main(rt: HostRuntime) {
    let count = console::arg_count(&rt);
    let mut word = [0u8; 16];
    let n = console::arg(&rt, 1, &mut word).unwrap_or(0);
    match &word[..n] {
        b"help" | b"--help" | b"-h" => help(),
        b"make" => make(&rt, count),
        b"list" => list(&rt, count),
        _ => complain(b"make or list is missing"),
    }
}
