// Both ends' states as octets, and back. Lengths have their low octet first. The peer's 1667:
//   0 stage, 1 MS-CHAPv2-ID, 2 name length, 4 request length, 6 reply length, 8 password hash, 24 authenticator challenge,
//   40 peer challenge, 56 name, 312 request, 1332 reply, 1647 expected string.
// The server's 304:
//   0 stage, 1 Identifier, 2 MS-CHAPv2-ID, 3 retries, 4 request length, 6 challenge, 22 request.
#![tactic(auto)]

ghost use Rattle.std.specs.Prelude.{ℕ, ◌≡◌, List};
ghost use Rattle.octets.specs.Octets.{number_at};
ghost use Rattle.octets.specs.declared.Order.TheVariants.{Little};
ghost use Rattle.state.specs.Stored.{stored};
ghost use Rattle.state.specs.PeerOctets.{peer_octets, peer_stage_of, peer_of, peer_numbers, octets_of_peer};
ghost use Rattle.state.specs.ServerOctets.{server_octets, server_stage_of, server_of, server_numbers, octets_of_server};

use answer::{ChapId, Identifier};
use peer::{Challenges, Credentials, Peer};
use server::Server;

// An end whose state is stored in octets of one size: include/zirgumtak.h has the sizes and the places.
pub trait Stored: Copy {
    ghost OCTETS: { ℕ };

    ghost octets_of: { Self → List ℕ };

    ghost of_octets: { List ℕ → Self };

    const OCTETS: usize;

    // The state that octets stand for.
    fn decode(octets: &[u8]) -> Self
        ensures { result ≡ of_octets octets.now };

    // Writes the state's octets, where there is room for just these.
    fn encode(self, octets: &mut [u8])
        ensures { octets.new ≡ stored OCTETS (octets_of self) octets.old };
}

// The length in the two octets at `at`.
fn length_at(s: &[u8], at: usize) -> u16
    ensures { result ≡ number_at Little s.now at }
{
    u16::from_le_bytes(octets::array_at(s, at))
}

// ---- the peer
const HASH_AT: usize = 8;

const AUTHENTICATOR_AT: usize = HASH_AT + 16;

const OWN_AT: usize = AUTHENTICATOR_AT + 16;

const NAME_AT: usize = OWN_AT + 16;

const PEER_REQUEST_AT: usize = NAME_AT + Peer::MAX_NAME;

const REPLY_AT: usize = PEER_REQUEST_AT + Peer::MAX_PACKET;

const EXPECTED_AT: usize = REPLY_AT + Peer::REPLY_ROOM;

const PEER_OCTETS: usize = EXPECTED_AT + 20;

// No `From<u8>`: the stages are other crates' enums, and these numbers belong to the layout above. In order, they are 0 to 6.
#[tactic(auto, using(crate::proofs::Trips::peer_other), unfolding(crate::specs::PeerOctets::peer_stage_of))]
fn peer_stage_of(n: u8) -> peer::Stage
    ensures { result ≡ peer_stage_of n }
{
    match n {
        0 => peer::Stage::Begin,
        1 => peer::Stage::ChallengeResponseSent,
        2 => peer::Stage::SuccessResponseSent,
        3 => peer::Stage::FailureResponseSent,
        4 => peer::Stage::Waiting,
        5 => peer::Stage::Success,
        _ => peer::Stage::Failed,
    }
}

// The peer in octets of its size.
fn peer_in(state: &[u8]) -> Peer
    ensures { result ≡ peer_of state.now }
{
    Peer {
        stage: peer_stage_of(octets::octet(state, 0)),
        credentials: Credentials {
            name: octets::array_at(state, NAME_AT),
            namelen: length_at(state, 2),
            hash: octets::array_at(state, HASH_AT),
        },
        challenges: Challenges {
            authenticator: octets::array_at(state, AUTHENTICATOR_AT),
            own: octets::array_at(state, OWN_AT),
            chapid: ChapId(octets::octet(state, 1)),
            expected: octets::array_at(state, EXPECTED_AT),
        },
        request: octets::array_at(state, PEER_REQUEST_AT),
        requestlen: length_at(state, 4),
        reply: octets::array_at(state, REPLY_AT),
        replylen: length_at(state, 6),
    }
}

fn peer_numbers(p: Peer) -> [u8; 8]
    ensures { result ≡ peer_numbers p }
{
    let [name_low, name_high] = p.credentials.namelen.to_le_bytes();
    let [request_low, request_high] = p.requestlen.to_le_bytes();
    let [reply_low, reply_high] = p.replylen.to_le_bytes();
    [
        p.stage as u8,
        p.challenges.chapid.0,
        name_low,
        name_high,
        request_low,
        request_high,
        reply_low,
        reply_high,
    ]
}

impl Stored for Peer {
    ghost OCTETS = { peer_octets };

    ghost octets_of = { octets_of_peer };

    ghost of_octets = { peer_of };

    const OCTETS: usize = PEER_OCTETS;

    // In an array each field's size and place are known, and the compiler copies it at once, from the caller's octets: neither the
    // array nor the arrays of peer_in take stack.
    fn decode(octets: &[u8]) -> Peer {
        let whole: [u8; PEER_OCTETS] = octets::array_at(octets, 0);
        peer_in(&whole)
    }

    fn encode(self, octets: &mut [u8]) {
        if octets.len() != PEER_OCTETS {
            return;
        }
        let at = octets::append(octets, 0, &peer_numbers(self));
        let at = octets::append(octets, at, &self.credentials.hash);
        let at = octets::append(octets, at, &self.challenges.authenticator);
        let at = octets::append(octets, at, &self.challenges.own);
        let at = octets::append(octets, at, &self.credentials.name);
        let at = octets::append(octets, at, &self.request);
        let at = octets::append(octets, at, &self.reply);
        octets::append(octets, at, &self.challenges.expected);
    }
}

// ---- the server
const CHALLENGE_AT: usize = 6;

const SERVER_REQUEST_AT: usize = CHALLENGE_AT + 16;

const SERVER_OCTETS: usize = SERVER_REQUEST_AT + Server::REQUEST_ROOM;

// No `From<u8>`, as above. In order, the stages are 0 to 5.
#[tactic(auto, using(crate::proofs::Trips::server_other), unfolding(crate::specs::ServerOctets::server_stage_of))]
fn server_stage_of(n: u8) -> server::Stage
    ensures { result ≡ server_stage_of n }
{
    match n {
        0 => server::Stage::Begin,
        1 => server::Stage::ChallengeSent,
        2 => server::Stage::SuccessRequestSent,
        3 => server::Stage::FailureRequestSent,
        4 => server::Stage::Success,
        _ => server::Stage::Failed,
    }
}

fn server_numbers(s: Server) -> [u8; 6]
    ensures { result ≡ server_numbers s }
{
    let [low, high] = s.request.len.to_le_bytes();
    [
        s.stage as u8,
        s.request.id.0,
        s.request.chapid.0,
        s.retries,
        low,
        high,
    ]
}

impl Stored for Server {
    ghost OCTETS = { server_octets };

    ghost octets_of = { octets_of_server };

    ghost of_octets = { server_of };

    const OCTETS: usize = SERVER_OCTETS;

    fn decode(octets: &[u8]) -> Server {
        Server {
            stage: server_stage_of(octets::octet(octets, 0)),
            retries: octets::octet(octets, 3),
            request: server::Request {
                id: Identifier(octets::octet(octets, 1)),
                chapid: ChapId(octets::octet(octets, 2)),
                challenge: octets::array_at(octets, CHALLENGE_AT),
                octets: octets::array_at(octets, SERVER_REQUEST_AT),
                len: length_at(octets, 4),
            },
        }
    }

    fn encode(self, octets: &mut [u8]) {
        if octets.len() != SERVER_OCTETS {
            return;
        }
        let at = octets::append(octets, 0, &server_numbers(self));
        let at = octets::append(octets, at, &self.request.challenge);
        octets::append(octets, at, &self.request.octets);
    }
}
