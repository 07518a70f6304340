// The calls that C and Rust link, over slices alone: the sizes are tested, the state is decoded, the end moves, and the state is
// encoded again. A refused call writes no octet; each answers with one word. A slice that is written is tested for its size: std's
// `TryFrom` for `&mut [u8; N]` does not say that the slice holds afterwards what was written through the array.
// `23` is the number of BadArgument: what is exported answers with one word, by the C interface.
#![tactic(auto)]

ghost use Rattle.std.specs.Prelude.{◌≡◌, [], ◌<◌, ◌≤◌, length, replicate};
ghost use Rattle.answer.specs.Results.{refusal_in, count_in, told_by, reply_number, reply_count};
ghost use Rattle.accounts.specs.Accounts.{check_number};
ghost use Rattle.calls.specs.Inner.{Encoded};
ghost use Rattle.calls.specs.Ends.{peer_new_at, peer_step_at, peer_supply_at, peer_give_up_at, server_new_at, server_start_at, server_packet_at, server_resend_at};
ghost use Rattle.calls.specs.Done.{word_of, word_telling, done, made, given_by};
ghost use Rattle.calls.specs.Stateless.{version, unit_at, accounts_append_at, md4_at, sha1_at, password_hash_at, des_at, nt_response_at, authenticator_at};

use answer::{Identifier, Refusal, Reply};
use packet::{NOWHERE, Place};
use peer::Peer;
use server::Server;
use state::Stored;

// ---- words
// The word of an answer: its number and n.
#[tactic(auto, unfolding(crate::specs::Done::word_of))]
pub fn word(number: u8, n: usize) -> u64
    ensures { result ≡ word_of number n }
{
    (number as u64) + (n as u64) % 16777216 * 256
}

// The same with the place of a text.
#[tactic(auto, unfolding(crate::specs::Done::word_of, crate::specs::Done::text_bits))]
pub fn word_telling(number: u8, n: usize, text: Place) -> u64
    ensures { result ≡ word_telling number n text }
{
    let start = (text.start as u64) % 65536 * 4294967296;
    let len = (text.len as u64) % 65536 * 281474976710656;
    (number as u64) + (n as u64) % 16777216 * 256 + (start + len)
}

// The word of a call that writes octets and gives their number.
pub fn word_written(answer: Result<usize, Refusal>) -> u64
    ensures { result ≡ word_of (refusal_in answer) (count_in answer) }
{
    match answer {
        Ok(n) => word(0, n),
        Err(why) => word(u8::from(why), 0),
    }
}

// The word of a call that answers with a reply.
fn word_replied(answer: Result<Reply, Refusal>, text: Place) -> u64
    ensures { result ≡ word_telling (reply_number answer) (reply_count answer) text }
{
    match answer {
        Ok(reply) => word_telling(u8::from(reply.done), reply.n, text),
        Err(why) => word_telling(u8::from(why), 0, text),
    }
}

// The answer's word; the state is written unless the call was refused.
fn keep<S: Stored>(answer: Result<Reply, Refusal>, text: Place, next: S, state: &mut [u8]) -> u64
    requires { length state.old ≡ S.OCTETS }
    ensures { Encoded (word_telling (reply_number answer) (reply_count answer) text) (reply_number answer) (S.octets_of next) state.old result state.new }
{
    let word = word_replied(answer, text);
    if answer.is_err() {
        return word;
    }
    next.encode(state);
    word
}

// ---- the peer
// A peer of this name and hash. A name that is too long is 23, and a failed peer is written.
pub fn peer_new(state: &mut [u8], name: &[u8], hash: &[u8]) -> u64
    ensures { done result state.new [] ≡ peer_new_at state.old name.now hash.now }
{
    if state.len() != Peer::OCTETS {
        return 23;
    }
    let Ok(hash) = <[u8; 16]>::try_from(hash) else {
        return 23;
    };
    let step = Peer::new(name, hash);
    step.peer.encode(state);
    word_replied(step.answer, NOWHERE)
}

pub fn peer_step(state: &mut [u8], packet: &[u8], random: &[u8], reply: &mut [u8]) -> u64
    ensures { done result state.new reply.new ≡ peer_step_at state.old packet.now random.now reply.old }
{
    if state.len() != Peer::OCTETS {
        return 23;
    }
    let Ok(random) = <[u8; 16]>::try_from(random) else {
        return 23;
    };
    let step = Peer::decode(state).step(packet, random, reply);
    keep(step.answer, step.text, step.peer, state)
}

pub fn peer_supply(
    state: &mut [u8],
    name: &[u8],
    hash: &[u8],
    random: &[u8],
    reply: &mut [u8],
) -> u64
    ensures { done result state.new reply.new ≡ peer_supply_at state.old name.now hash.now random.now reply.old }
{
    if state.len() != Peer::OCTETS {
        return 23;
    }
    let Ok(hash) = <[u8; 16]>::try_from(hash) else {
        return 23;
    };
    let Ok(random) = <[u8; 16]>::try_from(random) else {
        return 23;
    };
    let step = Peer::decode(state).supply(name, hash, random, reply);
    keep(step.answer, step.text, step.peer, state)
}

pub fn peer_give_up(state: &mut [u8]) -> u64
    ensures { done result state.new [] ≡ peer_give_up_at state.old }
{
    if state.len() != Peer::OCTETS {
        return 23;
    }
    let step = Peer::decode(state).give_up();
    keep(step.answer, step.text, step.peer, state)
}

// ---- the server
pub fn server_new(state: &mut [u8]) -> u64
    ensures { done result state.new [] ≡ server_new_at state.old }
{
    if state.len() != Server::OCTETS {
        return 23;
    }
    Server::new().encode(state);
    0
}

pub fn server_start(
    state: &mut [u8],
    identifier: u8,
    challenge: &[u8],
    name: &[u8],
    retries: u64,
    reply: &mut [u8],
) -> u64
    ensures { done result state.new reply.new ≡ server_start_at state.old identifier challenge.now name.now retries reply.old }
{
    if state.len() != Server::OCTETS {
        return 23;
    }
    let Ok(challenge) = <[u8; 16]>::try_from(challenge) else {
        return 23;
    };
    let server = Server::decode(state);
    let step = server.start(Identifier(identifier), challenge, name, retries, reply);
    keep(step.answer, NOWHERE, step.server, state)
}

pub fn server_packet(
    state: &mut [u8],
    packet: &[u8],
    table: &[u8],
    fresh: &[u8],
    reply: &mut [u8],
) -> u64
    ensures { done result state.new reply.new ≡ server_packet_at state.old packet.now table.now fresh.now reply.old }
{
    if state.len() != Server::OCTETS {
        return 23;
    }
    let Ok(fresh) = <[u8; 16]>::try_from(fresh) else {
        return 23;
    };
    let step = Server::decode(state).packet(packet, table, fresh, reply);
    keep(step.answer, NOWHERE, step.server, state)
}

// The state is read and not written.
pub fn server_resend(state: &[u8], reply: &mut [u8]) -> u64
    ensures { done result state.now reply.new ≡ server_resend_at state.now reply.old }
{
    if state.len() != Server::OCTETS {
        return 23;
    }
    let step = Server::decode(state).resend(reply);
    word_replied(step.answer, NOWHERE)
}

// ---- without a state
pub fn version() -> u64
    ensures { result ≡ version }
{
    400
}

pub fn accounts_check(table: &[u8]) -> u64
    ensures { result ≡ word_of (check_number table.now) 0 }
{
    match accounts::check(table) {
        Ok(()) => word(0, 0),
        Err(why) => word(u8::from(why), 0),
    }
}

// An account after a table, which is the first octets of the buffer, as many as are used. n is the table's new length.
pub fn accounts_append(table: &mut [u8], used: usize, code: u64, hash: &[u8], name: &[u8]) -> u64
    ensures { made result table.new ≡ accounts_append_at table.old used code hash.now name.now }
{
    let Ok(hash) = <[u8; 16]>::try_from(hash) else {
        return 23;
    };
    word_written(accounts::append(table, used, code, hash, name))
}

// The answer's word; the octets that were made are written unless the call was refused.
fn give<const N: usize>(answer: Result<[u8; N], Refusal>, out: &mut [u8]) -> u64
    requires { length out.old ≡ N }
    ensures { made result out.new ≡ given_by (told_by (λ q. q) (replicate N 0) answer.entry) out.old }
{
    match answer {
        Ok(octets) => {
            out.copy_from_slice(&octets);
            word(0, 0)
        }
        Err(why) => word(u8::from(why), 0),
    }
}

// A call each for the two digests, as for all that is exported: C's interface. The length of out is tested, and not converted: TryFrom for
// `&mut` says nothing of the slice afterwards. So of a state.
pub fn md4(message: &[u8], out: &mut [u8]) -> u64
    ensures { made result out.new ≡ md4_at message.now out.old }
{
    if out.len() != 16 {
        return 23;
    }
    give(digest::md4(message), out)
}

pub fn sha1(message: &[u8], out: &mut [u8]) -> u64
    ensures { made result out.new ≡ sha1_at message.now out.old }
{
    if out.len() != 20 {
        return 23;
    }
    give(digest::sha1(message), out)
}

#[tactic(auto, using(crate::proofs::Laws::unit_read), unfolding(crate::specs::Stateless::unit_at))]
fn unit_at(s: &[u8], k: usize) -> u16
    requires { k < 256 }
    ensures { result ≡ unit_at s.now k }
{
    u16::from_le_bytes([octets::octet(s, k * 2), octets::octet(s, k * 2 + 1)])
}

// The password's UTF-16 units come as octets, the low octet of each first.
pub fn password_hash(units: &[u8], out: &mut [u8]) -> u64
    ensures { made result out.new ≡ password_hash_at units.now out.old }
{
    if out.len() != 16 {
        return 23;
    }
    if units.len() % 2 != 0 {
        return 23;
    }
    if 512 < units.len() {
        return 23;
    }
    let n = units.len() / 2;
    let units: [u16; 256] = std::array::from_fn(|k| unit_at(units, k));
    give(mschap::password_hash(&units[0..n]), out)
}

pub fn des(key: &[u8], block: &[u8], out: &mut [u8]) -> u64
    ensures { made result out.new ≡ des_at key.now block.now out.old }
{
    let Ok(key) = <[u8; 8]>::try_from(key) else {
        return 23;
    };
    let Ok(block) = <[u8; 8]>::try_from(block) else {
        return 23;
    };
    if out.len() != 8 {
        return 23;
    }
    out.copy_from_slice(&des::encipher(key, block));
    0
}

pub fn nt_response(
    authenticator: &[u8],
    peer: &[u8],
    user: &[u8],
    hash: &[u8],
    out: &mut [u8],
) -> u64
    ensures { made result out.new ≡ nt_response_at authenticator.now peer.now user.now hash.now out.old }
{
    let Ok(authenticator) = <[u8; 16]>::try_from(authenticator) else {
        return 23;
    };
    let Ok(peer) = <[u8; 16]>::try_from(peer) else {
        return 23;
    };
    let Ok(hash) = <[u8; 16]>::try_from(hash) else {
        return 23;
    };
    if out.len() != 24 {
        return 23;
    }
    give(mschap::nt_response(authenticator, peer, user, hash), out)
}

pub fn authenticator(
    hash: &[u8],
    ntresponse: &[u8],
    peer: &[u8],
    authenticator: &[u8],
    user: &[u8],
    out: &mut [u8],
) -> u64
    ensures { made result out.new ≡ authenticator_at hash.now ntresponse.now peer.now authenticator.now user.now out.old }
{
    let Ok(hash) = <[u8; 16]>::try_from(hash) else {
        return 23;
    };
    let Ok(response) = <[u8; 24]>::try_from(ntresponse) else {
        return 23;
    };
    let Ok(peer) = <[u8; 16]>::try_from(peer) else {
        return 23;
    };
    let Ok(authenticator) = <[u8; 16]>::try_from(authenticator) else {
        return 23;
    };
    if out.len() != 20 {
        return 23;
    }
    give(
        mschap::authenticator_string(hash, response, peer, authenticator, user),
        out,
    )
}
