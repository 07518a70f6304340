// Explains packets that are given as lines of hex octets.
#![tactic(auto)]

use console::ReadError;
use packet::End;
use std::env::Env;
use std::io::Input;
use std::rt::Files;

mod lines;

// What is wrong, and a hint. Each program has its own: in console it could state nothing that an edit breaks.
fn complain(what: &[u8]) {
    console::complain(b"explain: ");
    console::complain(what);
    console::complain(b"; `explain help` says how to call it\n");
    console::ended_badly(b"bad arguments");
}

fn help() {
    console::say(
        b"explain
    Explains packets for the peer, from standard input.

explain peer [FILE]
explain server [FILE]
    Explains packets of EAP-MSCHAPv2 as that end reads them: those that the server
    sends, or those that the peer sends. They stand in FILE, or in standard input, a
    packet to a line, as octets of two hex digits. Blanks and colons may stand between
    octets, and 0x before each.

    For each line it says which packet it is and what each field has, or the number
    with which the packet is refused, what the number means and what was wrong. Blank
    lines are passed over. A line that is not hex octets is named, and the rest goes
    on.

    The last line says ok, or failed: where a line or FILE could not be read; what is
    wrong with the arguments or FILE is said on standard error. `tools/explain` gives
    that as an exit status. Up to 262,143 octets are read.
",
    );
    console::ended_well();
}

// A text that fills its buffer may not be whole.
fn text(end: End, s: &[u8]) {
    if s.len() == 262144 {
        console::complain(b"explain: the input has 262,144 octets or more\n");
        console::ended_badly(b"nothing was explained");
        return;
    }
    lines::explain(end, s);
}

fn read(end: End, file: Result<usize, ReadError>, s: &[u8]) {
    match file {
        Ok(n) => text(end, octets::part(s, 0, n)),
        Err(_) => console::ended_badly(b"nothing was explained"),
    }
}

fn input<R: Input>(rt: &R, end: End) {
    let mut space = [0u8; 262144];
    let file = console::read_input(rt, b"explain: standard input", &mut space);
    read(end, file, &space);
}

fn file<R: Env + Files>(rt: &R, end: End) {
    let mut path = io::buffer();
    let Some(n) = console::arg(rt, 2, &mut path).filter(|n| 0 < *n) else {
        complain(b"FILE is empty or too long");
        return;
    };
    let mut space = [0u8; 262144];
    let file = console::read(rt, b"explain: FILE", &path[..n], &mut space);
    read(end, file, &space);
}

fn with_end<R: Env + Files + Input>(rt: &R, end: End, count: usize) {
    match count {
        0..=2 => input(rt, end),
        3 => file(rt, end),
        _ => complain(b"there are too many arguments"),
    }
}

fn main(rt: HostRuntime) {
    let count = console::arg_count(&rt);
    if count < 2 {
        input(&rt, End::Peer);
        return;
    }
    let mut word = [0u8; 8];
    let n = console::arg(&rt, 1, &mut word).unwrap_or(0);
    match &word[..n] {
        b"help" | b"--help" | b"-h" => help(),
        b"peer" => with_end(&rt, End::Peer, count),
        b"server" => with_end(&rt, End::Server, count),
        _ => complain(b"peer or server is missing"),
    }
}
