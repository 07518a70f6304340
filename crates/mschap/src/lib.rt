// The arithmetic of responses (RFC 2759, 8).
#![tactic(auto)]

ghost use Rattle.std.specs.Prelude.{◌≡◌, ◌++◌, ◌+◌, ◌≤◌, ◌<◌, length, MatchResult};
ghost use Rattle.answer.specs.declared.Refusal as Refusal;
ghost use Rattle.octets.specs.Lists.{cells, over};
ghost use Rattle.digest.specs.Md4.{md4_of};
ghost use Rattle.digest.specs.Sha1.{sha1_of};
ghost use Rattle.mschap.specs.Users.{user_start, user_of};
ghost use Rattle.mschap.specs.Responses.{unit_octet, password_hash, challenge_hash, key_part, block_of, nt_response, magic, padding, authenticator_of, digits_of};
ghost use Rattle.mschap.specs.Answers.{password_hash_told, user_told, challenge_hash_told, nt_response_told, authenticator_told, told_password_hash, told_user, told_challenge_hash, told_nt_response, told_authenticator};

use answer::Refusal;

// The user's place in a name, as two numbers: the definition user_told has these.
#[derive(Clone, Copy)]
pub struct User {
    pub start: usize,
    pub len: usize,
}

// What both values of a Response are made of, beside the hash: both challenges, and a user of at most 256 octets.
#[derive(Clone, Copy)]
pub struct Exchange<'a> {
    pub authenticator: [u8; 16],
    pub peer: [u8; 16],
    pub user: &'a [u8],
    ghost short: { length user.now ≤ 256 },
}

// ---- digests of what is short enough

fn md4_of(m: &[u8]) -> [u8; 16]
    requires { length m.now ≤ 65536 }
    ensures { result ≡ md4_of m.now }
{
    digest::md4(m).unwrap()
}

// Three pieces, one after the other, over the front of dst.
#[tactic(auto, using(crate::proofs::Pieces::joined))]
fn join(dst: &mut [u8], a: &[u8], b: &[u8], c: &[u8])
    requires { length a.now + length b.now + length c.now ≤ length dst.old }
    ensures { dst.new ≡ over (a.now ++ b.now ++ c.now) dst.old }
{
    let i = a.len();
    let j = i + b.len();
    octets::put_at(dst, 0, a);
    octets::put_at(dst, i, b);
    octets::put_at(dst, j, c);
}

// SHA-1 over three pieces.
fn sha1_of(a: &[u8], b: &[u8], c: &[u8]) -> [u8; 20]
    requires { length a.now + length b.now + length c.now ≤ 288 }
    ensures { result ≡ sha1_of (a.now ++ b.now ++ c.now) }
{
    let n = a.len() + b.len() + c.len();
    let mut buffer = [0u8; 288];
    join(&mut buffer, a, b, c);
    digest::sha1(&buffer[0..n]).unwrap()
}

// ---- the password hash

// Octet k of the units, each low octet first; 0 past the end.
#[tactic(auto, using(crate::proofs::Pieces::octet_none))]
fn unit_octet(units: &[u16], k: usize) -> u8
    ensures { result ≡ unit_octet units.now k }
{
    if units.len() <= k / 2 {
        return 0;
    }
    units[k / 2].to_le_bytes()[k % 2]
}

fn put_units(dst: &mut [u8], units: &[u16])
    ensures { dst.new ≡ cells (length dst.old) (unit_octet units.now) }
{
    for (k, x) in dst.iter_mut().enumerate() {
        *x = unit_octet(units, k);
    }
}

// The octets of the first 256 units, and zeros after them. A short password takes no work for the zeros.
pub fn unit_octets(units: &[u16]) -> [u8; 512]
    ensures { result ≡ cells 512 (unit_octet units.now) }
{
    let mut out = [0u8; 512];
    let n = units.len().min(256);
    put_units(&mut out[..2 * n], units);
    out
}

#[tactic(auto, using(crate::proofs::Pieces::password_is))]
fn hash_of(units: &[u16]) -> [u8; 16]
    requires { length units.now ≤ 256 }
    ensures { result ≡ password_hash units.now }
{
    let n = 2 * units.len();
    let octets = unit_octets(units);
    md4_of(&octets[0..n])
}

// MD4 of the units, each low octet first; 23 for more than 256 units.
#[tactic(auto, using(crate::proofs::Answers::answers), unfolding(crate::specs::Answers::password_hash_told))]
pub fn password_hash(units: &[u16]) -> Result<[u8; 16], Refusal>
    ensures { told_password_hash result ≡ password_hash_told units.now }
{
    if 256 < units.len() {
        return Err(Refusal::BadArgument);
    }
    Ok(hash_of(units))
}

// ---- the user of a name

// The place after the first backslash; 0 where there is none: no Option, since the definition user_start says 0 there.
fn user_start(name: &[u8]) -> usize
    ensures { (result ≡ user_start name.now) × (result ≤ length name.now) }
{
    match name.iter().position(|x| *x == b'\\') {
        Some(i) => i + 1,
        None => 0,
    }
}

// The user's octets, of a name of any length.
#[tactic(auto, unfolding(crate::specs::Users::user_of))]
pub fn user_part(name: &[u8]) -> &[u8]
    ensures { result.now ≡ user_of name.now }
{
    let start = user_start(name);
    octets::rest(name, start)
}

// The user is what stands after the name's first backslash, or all of it; 23 for a name of more than 256 octets.
#[tactic(auto, using(crate::proofs::Answers::answers), unfolding(crate::specs::Answers::user_told))]
pub fn user_of(name: &[u8]) -> Result<User, Refusal>
    ensures { told_user result ≡ user_told name.now }
{
    if 256 < name.len() {
        return Err(Refusal::BadArgument);
    }
    let start = user_start(name);
    Ok(User {
        start,
        len: name.len() - start,
    })
}

// ---- the challenge hash

impl<'a> Exchange<'a> {
    // 23 for a user of more than 256 octets.
    pub fn new(
        authenticator: [u8; 16],
        peer: [u8; 16],
        user: &'a [u8],
    ) -> Result<Exchange<'a>, Refusal>
        ensures { MatchResult result (λ x. (x.authenticator ≡ authenticator) × (x.peer ≡ peer) × (x.user.now ≡ user.now) × (length user.now ≤ 256)) (λ why. (why ≡ Refusal.BadArgument) × (256 < length user.now)) }
    {
        if 256 < user.len() {
            return Err(Refusal::BadArgument);
        }
        Ok(Exchange {
            authenticator,
            peer,
            user,
        })
    }

    // The first 8 octets of SHA-1 over peer challenge, authenticator challenge and user.
    #[tactic(auto, using(crate::proofs::Pieces::challenge_is))]
    pub fn challenge_hash(&self) -> [u8; 8]
        ensures { result ≡ challenge_hash self.now.peer self.now.authenticator self.now.user.now }
    {
        let d = sha1_of(&self.peer, &self.authenticator, self.user);
        octets::array_at(&d, 0)
    }

    // The challenge hash enciphered under each of the three keys of a hash.
    #[tactic(auto, unfolding(crate::specs::Responses::nt_response))]
    pub fn nt_response(&self, hash: [u8; 16]) -> [u8; 24]
        ensures { result ≡ nt_response self.now.authenticator self.now.peer self.now.user.now hash }
    {
        let challenge = self.challenge_hash();
        blocks_of(hash, challenge)
    }

    // The authenticator string to a hash and the NT-Response that it was made with.
    #[tactic(auto, unfolding(crate::specs::Responses::authenticator_of))]
    pub fn authenticator_string(&self, hash: [u8; 16], response: [u8; 24]) -> [u8; 20]
        ensures { result ≡ authenticator_of hash response self.now.peer self.now.authenticator self.now.user.now }
    {
        let first = signed(hash, response);
        let challenge = self.challenge_hash();
        padded(first, challenge)
    }
}

// The challenge hash; 23 for a user of more than 256 octets.
#[tactic(auto, using(crate::proofs::Answers::answers), unfolding(crate::specs::Answers::challenge_hash_told))]
pub fn challenge_hash(
    peer: [u8; 16],
    authenticator: [u8; 16],
    user: &[u8],
) -> Result<[u8; 8], Refusal>
    ensures { told_challenge_hash result ≡ challenge_hash_told peer authenticator user.now }
{
    let exchange = Exchange::new(authenticator, peer, user)?;
    Ok(exchange.challenge_hash())
}

// ---- the NT-Response

// Key j of the three that the hash and five zeros are cut in.
#[tactic(auto, using(crate::proofs::Pieces::key_is))]
fn key_part(hash: [u8; 16], j: usize) -> [u8; 7]
    requires { j < 3 }
    ensures { result ≡ key_part hash j }
{
    octets::array_at(&hash, 7 * j)
}

// The challenge hash enciphered under key j.
#[tactic(auto, unfolding(crate::specs::Responses::block_of))]
fn block_of(hash: [u8; 16], challenge: [u8; 8], j: usize) -> [u8; 8]
    requires { j < 3 }
    ensures { result ≡ block_of hash challenge j }
{
    let part = key_part(hash, j);
    let key = des::key_octets(part);
    des::encipher(key, challenge)
}

// Three blocks, one after the other.
#[tactic(auto, using(crate::proofs::Pieces::joined_blocks))]
fn together(a: [u8; 8], b: [u8; 8], c: [u8; 8]) -> [u8; 24]
    ensures { result ≡ a ++ b ++ c }
{
    let mut out = [0u8; 24];
    join(&mut out, &a, &b, &c);
    out
}

// The challenge hash enciphered under each of the three keys.
fn blocks_of(hash: [u8; 16], challenge: [u8; 8]) -> [u8; 24]
    ensures { result ≡ block_of hash challenge 0 ++ block_of hash challenge 1 ++ block_of hash challenge 2 }
{
    let a = block_of(hash, challenge, 0);
    let b = block_of(hash, challenge, 1);
    let c = block_of(hash, challenge, 2);
    together(a, b, c)
}

// The NT-Response; 23 for a user of more than 256 octets.
#[tactic(auto, using(crate::proofs::Answers::answers), unfolding(crate::specs::Answers::nt_response_told))]
pub fn nt_response(
    authenticator: [u8; 16],
    peer: [u8; 16],
    user: &[u8],
    hash: [u8; 16],
) -> Result<[u8; 24], Refusal>
    ensures { told_nt_response result ≡ nt_response_told authenticator peer user.now hash }
{
    let exchange = Exchange::new(authenticator, peer, user)?;
    Ok(exchange.nt_response(hash))
}

// ---- the authenticator string

// SHA-1 over MD4 of the hash, the NT-Response and the first constant.
#[tactic(auto, unfolding(crate::specs::Responses::magic))]
fn signed(hash: [u8; 16], response: [u8; 24]) -> [u8; 20]
    ensures { result ≡ sha1_of (md4_of hash ++ response ++ magic) }
{
    let m = md4_of(&hash);
    sha1_of(&m, &response, b"Magic server to client signing constant")
}

// SHA-1 over that digest, the challenge hash and the second constant.
#[tactic(auto, unfolding(crate::specs::Responses::padding))]
fn padded(first: [u8; 20], challenge: [u8; 8]) -> [u8; 20]
    ensures { result ≡ sha1_of (first ++ challenge ++ padding) }
{
    sha1_of(
        &first,
        &challenge,
        b"Pad to make it do more than one iteration",
    )
}

// The authenticator string; 23 for a user of more than 256 octets.
#[tactic(auto, using(crate::proofs::Answers::answers), unfolding(crate::specs::Answers::authenticator_told))]
pub fn authenticator_string(
    hash: [u8; 16],
    response: [u8; 24],
    peer: [u8; 16],
    authenticator: [u8; 16],
    user: &[u8],
) -> Result<[u8; 20], Refusal>
    ensures { told_authenticator result ≡ authenticator_told hash response peer authenticator user.now }
{
    let exchange = Exchange::new(authenticator, peer, user)?;
    Ok(exchange.authenticator_string(hash, response))
}

// Its 40 hex digits, in upper case.
#[tactic(auto, unfolding(crate::specs::Responses::digits_of))]
pub fn authenticator_digits(string: [u8; 20]) -> [u8; 40]
    ensures { result ≡ digits_of string }
{
    let mut out = [0u8; 40];
    octets::to_hex(&mut out, &string);
    out
}
