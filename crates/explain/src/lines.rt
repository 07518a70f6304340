// A line for each packet, and its fields.
use hexline::HexError;
use packet::End;

fn begin(number: usize) {
    console::say(b"line ");
    console::number(number as u64);
    console::say(b": ");
}

fn bad(number: usize, place: usize) {
    begin(number);
    console::say(b"not hex octets, at column ");
    console::number(std::num::wrapping_add_usize(place, 1) as u64);
    console::say(b"\n");
}

fn many(number: usize) {
    begin(number);
    console::say(b"more than 65,536 octets\n");
}

// A line without octets is blank.
fn packet(end: End, number: usize, p: &[u8]) {
    if p.len() == 0 {
        return;
    }
    begin(number);
    describe::reading(end, p);
}

// Explains a line; whether it could be read.
fn line(end: End, number: usize, s: &[u8]) -> bool {
    let mut space = io::large_buffer();
    match hexline::octets_of(s, &mut space) {
        Ok(n) => packet(end, number, octets::part(&space, 0, n)),
        Err(HexError::BadAt(place)) => {
            bad(number, place);
            return false;
        }
        Err(HexError::TooMany) => {
            many(number);
            return false;
        }
    }
    true
}

pub(crate) fn explain(end: End, text: &[u8]) {
    let mut read = true;
    for (i, s) in text.split(|x| *x == b'\n').enumerate() {
        read &= line(end, i + 1, s);
    }
    if read {
        console::ended_well();
        return;
    }
    console::ended_badly(b"not every line could be read");
}
