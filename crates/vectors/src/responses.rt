// password_hash UNITS, user NAME, challenge_hash PEER AUTHENTICATOR USER, nt_response AUTHENTICATOR PEER USER HASH,
// authenticator HASH RESPONSE PEER AUTHENTICATOR USER
ghost use Rattle.std.specs.Prelude.{◌≤◌, length};

use super::script;
use std::io;
use std::io::Print;

// The units of octets, each low octet first; how many.
fn units_of(s: &[u8], units: &mut [u16]) -> usize
    ensures { result ≤ length units.new }
{
    for (unit, pair) in units.iter_mut().zip(s.chunks_exact(2)) {
        *unit = u16::from_le_bytes([pair[0], pair[1]]);
    }
    (s.len() / 2).min(units.len())
}

pub(crate) fn password_hash(rt: &impl Print, line: &[u8]) -> io::Result<()> {
    let mut space = [0u8; 1024];
    let n = script::octets_of(line, 1, &mut space);
    let mut units = [0u16; 512];
    let m = units_of(&space[..n], &mut units);
    script::tell_made(rt, b"password_hash", mschap::password_hash(&units[..m]))
}

pub(crate) fn user(rt: &impl Print, line: &[u8]) -> io::Result<()> {
    let mut name = [0u8; 300];
    let n = script::octets_of(line, 1, &mut name);
    match mschap::user_of(&name[..n]) {
        Ok(user) => script::tell(rt, b"user", 0, octets::part(&name, user.start, user.len)),
        Err(why) => script::tell(rt, b"user", u8::from(why), b""),
    }
}

pub(crate) fn challenge_hash(rt: &impl Print, line: &[u8]) -> io::Result<()> {
    let mut user = [0u8; 300];
    let n = script::octets_of(line, 3, &mut user);
    let made = mschap::challenge_hash(script::array(line, 1), script::array(line, 2), &user[..n]);
    script::tell_made(rt, b"challenge_hash", made)
}

pub(crate) fn nt_response(rt: &impl Print, line: &[u8]) -> io::Result<()> {
    let mut user = [0u8; 300];
    let n = script::octets_of(line, 3, &mut user);
    let made = mschap::nt_response(
        script::array(line, 1),
        script::array(line, 2),
        &user[..n],
        script::array(line, 4),
    );
    script::tell_made(rt, b"nt_response", made)
}

pub(crate) fn authenticator(rt: &impl Print, line: &[u8]) -> io::Result<()> {
    let mut user = [0u8; 300];
    let n = script::octets_of(line, 5, &mut user);
    let made = mschap::authenticator_string(
        script::array(line, 1),
        script::array(line, 2),
        script::array(line, 3),
        script::array(line, 4),
        &user[..n],
    );
    script::tell_made(rt, b"authenticator", made)
}
