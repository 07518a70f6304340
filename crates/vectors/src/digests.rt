// md4 MESSAGE, sha1 MESSAGE. No closure for the digest: each is two lines over tell_made.
use super::script;
use std::io;
use std::io::Print;

pub(crate) fn md4(rt: &impl Print, line: &[u8]) -> io::Result<()> {
    let mut space = [0u8; 65600];
    let n = script::octets_of(line, 1, &mut space);
    script::tell_made(rt, b"md4", digest::md4(&space[..n]))
}

pub(crate) fn sha1(rt: &impl Print, line: &[u8]) -> io::Result<()> {
    let mut space = [0u8; 65600];
    let n = script::octets_of(line, 1, &mut space);
    script::tell_made(rt, b"sha1", digest::sha1(&space[..n]))
}
