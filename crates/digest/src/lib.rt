// MD4 (RFC 1320) and SHA-1 (FIPS 180-1) of at most 65,536 octets.
#![tactic(auto)]

ghost use Rattle.std.specs.Prelude.{◌≡◌};
ghost use Rattle.digest.specs.Md4.{told_md4, md4_told};
ghost use Rattle.digest.specs.Sha1.{told_sha1, sha1_told};

use answer::Refusal;
use blocks::Message;
use octets::Order;

mod blocks;
mod md4_rounds;
mod sha1_rounds;
mod words;

// The MD4 digest of m; 23 where m is too long.
pub fn md4(m: &[u8]) -> Result<[u8; 16], Refusal>
    ensures { told_md4 result ≡ md4_told m.now }
{
    let message = Message::new(Order::Little, m)?;
    Ok(message.digest(md4_rounds::INITIAL))
}

// The SHA-1 digest of m; 23 where m is too long.
pub fn sha1(m: &[u8]) -> Result<[u8; 20], Refusal>
    ensures { told_sha1 result ≡ sha1_told m.now }
{
    let message = Message::new(Order::Big, m)?;
    Ok(message.digest(sha1_rounds::INITIAL))
}
