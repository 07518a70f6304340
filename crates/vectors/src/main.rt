// Runs the cases of standard input, a line each, and writes the name, the answer's number and the result of each.
#![tactic(auto)]

ghost use Rattle.std.specs.Prelude.{◌≤◌, length, IfOk};

use ends::Ends;
use std::io;
use std::io::{Input, Print, Read};

mod ciphers;
mod digests;
mod ends;
mod responses;
mod script;
mod tables;

// One line. A line that begins with none of the names is a comment.
fn run_line(rt: &impl Print, line: &[u8], ends: &mut Ends) -> io::Result<()> {
    match script::field_of(line, 0) {
        b"md4" => digests::md4(rt, line),
        b"sha1" => digests::sha1(rt, line),
        b"des" => ciphers::des(rt, line),
        b"parity" => ciphers::parity(rt, line),
        b"password_hash" => responses::password_hash(rt, line),
        b"user" => responses::user(rt, line),
        b"challenge_hash" => responses::challenge_hash(rt, line),
        b"nt_response" => responses::nt_response(rt, line),
        b"authenticator" => responses::authenticator(rt, line),
        b"check" => tables::check(rt, line),
        b"find" => tables::find(rt, line),
        b"peer" => ends.make_peer(rt, line),
        b"step" => ends.step(rt, line),
        b"supply" => ends.supply(rt, line),
        b"give_up" => ends.give_up(rt),
        b"server" => ends.make_server(),
        b"start" => ends.start(rt, line),
        b"packet" => ends.packet(rt, line),
        b"resend" => ends.resend(rt),
        _ => Ok(()),
    }
}

fn run(rt: &impl Print, text: &[u8]) -> io::Result<()> {
    let mut ends = Ends::fresh();
    for line in text.split(|x| *x == b'\n') {
        run_line(rt, line, &mut ends)?;
    }
    Ok(())
}

// Reads to the end of the input, or until the buffer is full; how many octets.
fn read_full(input: &mut impl Read, space: &mut [u8]) -> io::Result<usize>
    ensures { IfOk result (λ n. n ≤ length space.new) }
{
    let mut n = 0;
    // no `for`: n grows by what a read gives; console's own complains where this passes the error on
    while n < space.len() {
        let got = input.read(&mut space[n..])?;
        if got == 0 {
            break;
        }
        n += got;
    }
    Ok(n)
}

fn main(rt: HostRuntime) -> io::Result<()> {
    let mut space = [0u8; 262144];
    let n = read_full(&mut rt.reader(), &mut space)?;
    run(&rt, &space[..n])
}
