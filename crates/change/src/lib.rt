// A password change (RFC 2759, 8.9 to 8.13): the new password under the old hash, and the old hash under the new.
#![tactic(auto)]

ghost use Rattle.std.specs.Prelude.{◌≡◌, ◌*◌, ◌≤◌, ◌<◌, length};
ghost use Rattle.octets.specs.Lists.{Appended};
ghost use Rattle.answer.specs.Results.{refusal_in, Writes};
ghost use Rattle.answer.specs.Outcome.{Does};
ghost use Rattle.digest.specs.Md4.{md4_of};
ghost use Rattle.change.specs.Forms.{change_octets, change_packet, write_change_password};
ghost use Rattle.change.specs.Change.{password_block, length_in, is_length, octets_in, password_in, new_password, hash_half, encrypted_hash, all_right, checked_of};
ghost use Rattle.change.specs.Writing.{write_change, sent_octets, renewal_in};

use answer::Refusal;
use mschap::Exchange;
use writers::Ids;

// Whether a block's length is one, and the hash of the octets that it holds. A flag beside the hash, and no Option: the hash
// is computed and compared whatever the length, and the promises speak of it then too.
#[derive(Clone, Copy)]
pub struct NewPassword {
    pub valid: bool,
    pub hash: [u8; 16],
}

// What is kept of a change: the new hash, and the authenticator string that is to answer it.
#[derive(Clone, Copy)]
pub struct Renewal {
    pub hash: [u8; 16],
    pub string: [u8; 20],
}

// L of the packet that was written, and what is kept of it.
#[derive(Clone, Copy)]
pub struct Sent {
    pub n: usize,
    pub renewal: Renewal,
}

// A Change-Password: its encrypted password, L, and the random octets that it takes.
const BLOCK_OCTETS: usize = 516;

const CHANGE_OCTETS: usize = 591;

const FILLER_OCTETS: usize = 512;

// ---- the block

// The new password's block under the old hash: random octets, the password's octets, and their number.
fn password_block(old: [u8; 16], units: &[u16], random: &[u8]) -> [u8; BLOCK_OCTETS]
    requires { length units.now ≤ 256 }
    ensures { result ≡ password_block old units.now random.now }
{
    let n = 2 * units.len();
    let password = mschap::unit_octets(units);
    let mut b: [u8; BLOCK_OCTETS] = octets::array_at(random, 0);
    octets::put_at(&mut b, 512 - n, &password[0..n]);
    octets::put_at(&mut b, 512, &(n as u32).to_le_bytes());
    rc4::encipher(old, &mut b);
    b
}

// ---- what a block holds

// The number of the password's octets.
#[tactic(auto, using(crate::proofs::Blocks::length_is))]
fn length_in(b: &[u8]) -> usize
    ensures { result ≡ length_in b.now }
{
    u32::from_le_bytes(octets::array_at(b, 512)) as usize
}

#[tactic(auto, using(octets::proofs::Exits::wide), unfolding(crate::specs::Change::is_length))]
fn is_length(n: usize) -> bool
    ensures { result ≡ is_length n }
{
    n <= 512 && n % 2 == 0
}

fn hash_in(b: &[u8]) -> [u8; 16]
    ensures { result ≡ md4_of (octets_in b.now) }
{
    let start = 512usize.saturating_sub(length_in(b));
    let front = octets::part(b, 0, 512);
    digest::md4(octets::rest(front, start)).unwrap()
}

#[tactic(auto, unfolding(crate::specs::Change::password_in))]
fn password_in(b: &[u8]) -> NewPassword
    ensures { result ≡ password_in b.now }
{
    NewPassword {
        valid: is_length(length_in(b)),
        hash: hash_in(b),
    }
}

// What a block holds under the old hash.
#[tactic(auto, unfolding(crate::specs::Change::new_password, crate::specs::Change::deciphered_block))]
pub fn new_password(old: [u8; 16], block: &[u8]) -> NewPassword
    ensures { result ≡ new_password old block.now }
{
    let mut b: [u8; BLOCK_OCTETS] = octets::array_at(block, 0);
    rc4::encipher(old, &mut b);
    password_in(&b)
}

// ---- the old hash under the new one

#[tactic(auto, using(crate::proofs::Blocks::half_is))]
fn hash_half(old: [u8; 16], new: [u8; 16], j: usize) -> [u8; 8]
    requires { j < 2 }
    ensures { result ≡ hash_half old new j }
{
    let part = octets::array_at(&new, 7 * j);
    let half = octets::array_at(&old, 8 * j);
    des::encipher(des::key_octets(part), half)
}

pub fn encrypted_hash(old: [u8; 16], new: [u8; 16]) -> [u8; 16]
    ensures { result ≡ encrypted_hash old new }
{
    let a = hash_half(old, new, 0);
    let b = hash_half(old, new, 1);
    let mut out = [0u8; 16];
    octets::put_at(&mut out, 0, &a);
    octets::put_at(&mut out, 8, &b);
    out
}

// ---- what the server makes of a change

// Whether length, encrypted hash and NT-Response are right. All three are computed and compared whole, whichever is wrong.
#[tactic(auto, unfolding(crate::specs::Change::all_right))]
fn all_right(
    old: [u8; 16],
    exchange: &Exchange<'_>,
    new: NewPassword,
    encrypted: [u8; 16],
    response: [u8; 24],
) -> bool
    ensures { result ≡ all_right old exchange.now.authenticator exchange.now.peer exchange.now.user.now new encrypted response }
{
    let under = encrypted_hash(old, new.hash);
    let own = exchange.nt_response(new.hash);
    let known = octets::equal(&encrypted, &under);
    let computed = octets::equal(&response, &own);
    new.valid & (known & computed)
}

// A change that a user sent, by the old hash of its account and the challenge that it answers. The string is computed in any
// case.
pub fn check(
    old: [u8; 16],
    challenge: [u8; 16],
    peer: [u8; 16],
    user: &[u8],
    block: &[u8],
    encrypted: [u8; 16],
    response: [u8; 24],
) -> Option<Renewal>
    ensures { result ≡ checked_of old challenge peer user.now block.now encrypted response }
{
    let Ok(exchange) = Exchange::new(challenge, peer, user) else {
        return None;
    };
    let new = new_password(old, block);
    let right = all_right(old, &exchange, new, encrypted, response);
    let string = exchange.authenticator_string(new.hash, response);
    if !right {
        return None;
    }
    let hash = new.hash;
    Some(Renewal { hash, string })
}

// ---- the packet

// Code 2, OpCode 7.
fn put_change(
    ids: Ids,
    block: &[u8; BLOCK_OCTETS],
    hash: [u8; 16],
    peer: [u8; 16],
    response: [u8; 24],
    out: &mut [u8],
) -> usize
    requires { change_octets ≤ length out.old }
    ensures { Appended out.old 0 (change_packet ids.id.0 ids.chapid.0 block.now hash peer response) result out.new }
{
    let at = writers::put_header(2, 7, ids, CHANGE_OCTETS as u16, out);
    let at = octets::append(out, at, block);
    let at = octets::append(out, at, &hash);
    let at = octets::append(out, at, &peer);
    let at = octets::append(out, at, &[0, 0, 0, 0, 0, 0, 0, 0]);
    let at = octets::append(out, at, &response);
    octets::append(out, at, &[0, 0])
}

// Writes a Change-Password of these fields.
pub fn write_change_password(
    ids: Ids,
    block: &[u8],
    hash: [u8; 16],
    peer: [u8; 16],
    response: [u8; 24],
    out: &mut [u8],
) -> Result<usize, Refusal>
    ensures { Writes (write_change_password ids.id.0 ids.chapid.0 block.now hash peer response (length out.old)) result out.old out.new }
{
    let Ok(block) = <&[u8; BLOCK_OCTETS]>::try_from(block) else {
        return Err(Refusal::BadArgument);
    };
    if out.len() < CHANGE_OCTETS {
        return Err(Refusal::NoRoom);
    }
    Ok(put_change(ids, block, hash, peer, response, out))
}

// ---- what the peer sends

// Writes the Change-Password to the authenticator's challenge; `own` is the peer's.
pub fn write(
    ids: Ids,
    authenticator: [u8; 16],
    own: [u8; 16],
    user: &[u8],
    old: &[u16],
    new: &[u16],
    filler: &[u8],
    reply: &mut [u8],
) -> Result<Sent, Refusal>
    ensures { Does (write_change ids.id.0 ids.chapid.0 authenticator own user.now old.now new.now filler.now (length reply.old)) (refusal_in result) (sent_octets result) (renewal_in result) reply.old reply.new }
{
    let exchange = Exchange::new(authenticator, own, user)?;
    // before the hashes, so that a refusal takes no work
    if 256 < old.len() {
        return Err(Refusal::BadArgument);
    }
    if 256 < new.len() {
        return Err(Refusal::BadArgument);
    }
    if filler.len() != FILLER_OCTETS {
        return Err(Refusal::BadArgument);
    }
    if reply.len() < CHANGE_OCTETS {
        return Err(Refusal::NoRoom);
    }
    let old_hash = mschap::password_hash(old)?;
    let hash = mschap::password_hash(new)?;
    let block = password_block(old_hash, new, filler);
    let under = encrypted_hash(old_hash, hash);
    let response = exchange.nt_response(hash);
    let string = exchange.authenticator_string(hash, response);
    let n = put_change(ids, &block, under, own, response, reply);
    Ok(Sent {
        n,
        renewal: Renewal { hash, string },
    })
}
