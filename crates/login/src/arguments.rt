// The program's arguments, read one after the other: the first that will not do is named, and nothing is played.
use super::{CHALLENGE, PEER_CHALLENGE, talk};
use roster::LineError;
use std::env::Env;
use std::rt::Files;
use talk::Login;

// Why nothing is played: an argument that will not do, or the table's file, of which that is said already.
#[derive(Clone, Copy)]
pub(crate) enum Unplayed {
    Argument(&'static [u8]),
    Table,
}

// What is wrong, and a hint. Each program has its own: in console it could state nothing that an edit breaks.
pub(crate) fn complain(why: Unplayed) {
    match why {
        Unplayed::Argument(what) => {
            console::complain(b"login: ");
            console::complain(what);
            console::complain(b"; `login help` says how to call it\n");
            console::ended_badly(b"bad arguments");
        }
        Unplayed::Table => console::ended_badly(b"nothing was played"),
    }
}

// ---- the text: the last argument, where it begins with text= and is not the password

// With it, how many arguments stand before it.
fn text_of<'a, R: Env>(
    rt: &R,
    count: usize,
    space: &'a mut [u8],
) -> Result<(&'a [u8], usize), Unplayed> {
    if count < 5 {
        return Ok((&[], count));
    }
    let Some(n) = console::arg(rt, count - 1, space) else {
        return Err(Unplayed::Argument(b"the last argument is too long"));
    };
    let word = octets::part(space, 0, n);
    if !octets::stands_at(word, 0, b"text=") {
        return Ok((&[], count));
    }
    let text = octets::rest(word, 5);
    if 960 < text.len() {
        return Err(Unplayed::Argument(b"TEXT has more than 960 octets"));
    }
    Ok((text, count - 1))
}

// ---- the table, the name and the password

// A file that fills the space is longer than a table has at most.
fn table_of<'a, R: Env + Files>(rt: &R, space: &'a mut [u8]) -> Result<&'a [u8], Unplayed> {
    let mut path = io::buffer();
    let Some(n) = console::arg(rt, 1, &mut path) else {
        return Err(Unplayed::Argument(b"TABLE is too long"));
    };
    let Ok(n) = console::read(rt, b"login: TABLE", &path[..n], space) else {
        return Err(Unplayed::Table);
    };
    let table = octets::part(space, 0, n);
    if accounts::check(table).is_err() {
        console::complain(b"login: TABLE is not a well-formed account table\n");
        return Err(Unplayed::Table);
    }
    Ok(table)
}

fn name_of<'a, R: Env>(rt: &R, space: &'a mut [u8]) -> Result<&'a [u8], Unplayed> {
    match console::arg(rt, 2, space) {
        None => Err(Unplayed::Argument(b"NAME is too long")),
        Some(0) => Err(Unplayed::Argument(b"NAME is empty")),
        Some(n) if n <= 256 => Ok(octets::part(space, 0, n)),
        Some(_) => Err(Unplayed::Argument(b"NAME has more than 256 octets")),
    }
}

fn hash_of<R: Env>(rt: &R) -> Result<[u8; 16], Unplayed> {
    let mut word = io::buffer();
    let Some(n) = console::arg(rt, 3, &mut word) else {
        return Err(Unplayed::Argument(b"PASSWORD is too long"));
    };
    roster::secret_of(&word[..n]).map_err(|why| {
        Unplayed::Argument(match why {
            LineError::BadHash => b"PASSWORD begins with hash=, and 32 hex digits do not follow",
            LineError::LongPassword => b"PASSWORD has more than 256 UTF-16 units",
            _ => b"PASSWORD is not UTF-8",
        })
    })
}

// ---- the challenges, and the retry count: the last argument, where there is an odd one

fn challenge_of<R: Env>(rt: &R, i: usize) -> Option<[u8; 16]> {
    let mut word = [0u8; 64];
    let n = console::arg(rt, i, &mut word)?;
    let digits = octets::part(&word, 0, n);
    if n != 32 || !octets::all_hex(true, digits) {
        return None;
    }
    Some(octets::from_hex(digits))
}

// The server's challenge and the peer's.
fn challenges_of<R: Env>(rt: &R, count: usize) -> Result<([u8; 16], [u8; 16]), Unplayed> {
    if count < 6 {
        return Ok((CHALLENGE, PEER_CHALLENGE));
    }
    let Some(challenge) = challenge_of(rt, 4) else {
        return Err(Unplayed::Argument(b"CHALLENGE is not 32 hex digits"));
    };
    let Some(random) = challenge_of(rt, 5) else {
        return Err(Unplayed::Argument(b"PEER-CHALLENGE is not 32 hex digits"));
    };
    Ok((challenge, random))
}

fn retries_in(word: &[u8]) -> Option<u64> {
    let n = octets::digits_of(word);
    if n < 1 || 2 < n || n < word.len() {
        return None;
    }
    Some(octets::number_of(word)).filter(|retries| *retries <= 10)
}

fn retries_of<R: Env>(rt: &R, count: usize) -> Result<u64, Unplayed> {
    if count != 5 && count != 7 {
        return Ok(0);
    }
    let mut word = [0u8; 16];
    let n = console::arg(rt, count - 1, &mut word).unwrap_or(0);
    retries_in(octets::part(&word, 0, n)).ok_or(Unplayed::Argument(
        b"RETRIES is not a number from 0 to 10",
    ))
}

// Three arguments or more.
pub(crate) fn play<R: Env + Files>(rt: &R, count: usize) -> Result<(), Unplayed> {
    let mut word = io::buffer();
    let (text, count) = text_of(rt, count, &mut word)?;
    if count == 3 {
        return Err(Unplayed::Argument(b"PASSWORD is missing"));
    }
    if 7 < count {
        return Err(Unplayed::Argument(b"there are too many arguments"));
    }
    let mut space = [0u8; 65537];
    let table = table_of(rt, &mut space)?;
    let mut space = io::buffer();
    let name = name_of(rt, &mut space)?;
    let hash = hash_of(rt)?;
    let (challenge, random) = challenges_of(rt, count)?;
    let retries = retries_of(rt, count)?;
    talk::play(&Login {
        table,
        name,
        text,
        hash,
        challenge,
        random,
        retries,
    });
    Ok(())
}
