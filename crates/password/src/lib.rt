// A password in UTF-8: its UTF-16 units and its hash.
#![tactic(auto)]

ghost use Rattle.std.specs.Prelude.{◌≡◌, ◌≤◌};
ghost use Rattle.password.specs.Utf16.{units_of, utf16};
ghost use Rattle.password.specs.Inner.{Extended, Converted};
ghost use Rattle.password.specs.Hashed.{hashed_of};

use std::str;

// Why octets are no password: they are no UTF-8, or more than 256 units.
#[derive(Clone, Copy, PartialEq, Eq)]
pub enum PasswordError {
    NotUtf8,
    TooLong,
}

// Puts the units of a character after the first n, and counts them all; None where they do not fit.
fn append_units(units: &mut [u16; 256], n: usize, c: char) -> Option<usize>
    requires { n ≤ 256 }
    ensures { Extended units.old n (units_of c) result units.new }
{
    let mut pair = [0u16; 2];
    let made = c.encode_utf16(&mut pair);
    let end = n + made.len();
    if 256 < end {
        return None;
    }
    units[n..end].copy_from_slice(made);
    Some(end)
}

// Puts the units of a text at the front, and counts them; None where they do not fit. An array and a count, and no Vec: the
// programs keep fixed memory.
fn put_units(units: &mut [u16; 256], text: &str) -> Option<usize>
    ensures { Converted (utf16 text.now) result units.new }
{
    let mut n = 0;
    for c in text.chars() {
        n = append_units(units, n, c)?;
    }
    Some(n)
}

// The hash of a password of up to 256 units.
pub fn hash(text: &[u8]) -> Result<[u8; 16], PasswordError>
    ensures { result ≡ hashed_of text.now }
{
    let Ok(text) = str::from_utf8(text) else {
        return Err(PasswordError::NotUtf8);
    };
    let mut units = [0u16; 256];
    let Some(n) = put_units(&mut units, text) else {
        return Err(PasswordError::TooLong);
    };
    Ok(mschap::password_hash(&units[0..n]).unwrap())
}
