// des KEY BLOCK, parity KEY
use super::script;
use std::io;
use std::io::Print;

pub(crate) fn des(rt: &impl Print, line: &[u8]) -> io::Result<()> {
    let out = des::encipher(script::array(line, 1), script::array(line, 2));
    script::tell(rt, b"des", 0, &out)
}

pub(crate) fn parity(rt: &impl Print, line: &[u8]) -> io::Result<()> {
    let out = des::key_octets(script::array(line, 1));
    script::tell(rt, b"parity", 0, &out)
}
