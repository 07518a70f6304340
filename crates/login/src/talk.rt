// A login between both ends: what each end answers, and each packet.
ghost use Rattle.std.specs.Prelude.{◌≡◌};
ghost use Rattle.login.specs.Counted.{counted_up};

use super::words;
use answer::{Done, Identifier, Refusal, Reply};
use packet::{End, Kind, Packet, Place};
use peer::Peer;
use server::Server;
use writers::Ids;

// The server's account table, the peer's name and its password's hash, the first challenge of either end, how often the server
// lets the peer try again, and the text that it puts in each Failure Request.
#[derive(Clone, Copy)]
pub(crate) struct Login<'a> {
    pub table: &'a [u8],
    pub name: &'a [u8],
    pub text: &'a [u8],
    pub hash: [u8; 16],
    pub challenge: [u8; 16],
    pub random: [u8; 16],
    pub retries: u64,
}

// Both ends, and how many octets the packet has that is on its way to the peer: 0 once the talk is over (no Option: an empty packet is
// none, and so is a refused one).
#[derive(Drop)]
struct Ends {
    peer: Peer,
    server: Server,
    n: usize,
}

// A challenge with its last octet counted up. For show: challenges must be random.
fn counted_up(challenge: [u8; 16], turn: u8) -> [u8; 16]
    ensures { result ≡ counted_up challenge turn }
{
    let mut out = challenge;
    out[15] = challenge[15].wrapping_add(turn);
    out
}

// A packet on its way: its fields in words, and its octets.
fn show(end: End, p: &[u8]) {
    match end {
        End::Peer => console::say(b"\n  server -> peer    "),
        End::Server => console::say(b"\n  peer -> server    "),
    }
    describe::reading(end, p);
    describe::dump(p);
    console::say(b"\n");
}

// The reply that an answer wrote: a line, in vectors too.
fn written(answer: Result<Reply, Refusal>, reply: &[u8]) -> &[u8] {
    octets::part(reply, 0, answer.map_or(0, |said| said.n))
}

// What an end answers, its stage, and the packet that it sends to the other end.
fn tell(answer: Result<Reply, Refusal>, stage: &[u8], other: End, reply: &[u8]) {
    words::answer(answer);
    console::say(b", stage ");
    console::say(stage);
    console::say(b"\n");
    let p = written(answer, reply);
    if 0 < p.len() {
        show(other, p);
    }
}

// What the clerk is shown: the text that the step tells, if it has any octets.
fn tell_text(text: Place, packet: &[u8]) {
    if text.len == 0 {
        return;
    }
    console::say(b"peer, the server's text: ");
    console::quoted(text.of(packet));
    console::say(b"\n");
}

// ---- a server that has a text

// A Failure Request with the text after M= in place of what it has; its length.
fn with_text(k: Packet, text: &[u8], packet: &mut [u8]) -> usize {
    let written = writers::write_failure_request(
        Ids {
            id: k.id,
            chapid: k.chapid,
        },
        k.error,
        u8::from(k.kind == Kind::RetryRequest),
        packet::hex_sixteen_at(packet, k.challenge.start),
        text,
        packet,
    );
    let n = written.unwrap_or(0);
    console::say(b"with the text, as another server writes it:\n");
    show(End::Peer, octets::part(packet, 0, n));
    n
}

// The n octets that the server wrote, or, where they are a Failure Request and a text is given, the same with the text.
fn given_text(n: usize, text: &[u8], packet: &mut [u8]) -> usize {
    if text.len() == 0 {
        return n;
    }
    match packet::read(End::Peer, octets::part(packet, 0, n)) {
        Ok(k) if matches!(k.kind, Kind::FailureRequest | Kind::RetryRequest) => {
            with_text(k, text, packet)
        }
        _ => n,
    }
}

// ---- both

impl Ends {
    fn begin(login: &Login, packet: &mut [u8]) -> Ends {
        let peer = Peer::new(login.name, login.hash).peer;
        let done = Server::new().start(
            Identifier(1),
            login.challenge,
            b"server",
            login.retries,
            packet,
        );
        console::say(b"server starts: ");
        let stage = words::server_stage(done.server.stage);
        tell(done.answer, stage, End::Peer, packet);
        Ends {
            peer,
            server: done.server,
            n: written(done.answer, packet).len(),
        }
    }

    // The peer takes the packet, and is given the same name and password again where it asks for them; the length of its reply.
    fn peer_turn(&mut self, login: &Login, turn: u8, packet: &[u8], reply: &mut [u8]) -> usize {
        let random = counted_up(login.random, turn);
        let mut done = self.peer.step(packet, random, reply);
        tell_text(done.text, packet);
        console::say(b"peer: ");
        let stage = words::peer_stage(done.peer.stage);
        tell(done.answer, stage, End::Server, reply);
        if done
            .answer
            .is_ok_and(|said| said.done == Done::NeedsCredentials)
        {
            done = done.peer.supply(login.name, login.hash, random, reply);
            console::say(b"peer, given the same name and password: ");
            let stage = words::peer_stage(done.peer.stage);
            tell(done.answer, stage, End::Server, reply);
        }
        self.peer = done.peer;
        written(done.answer, reply).len()
    }

    // The server takes the peer's reply.
    fn server_turn(&mut self, login: &Login, turn: u8, reply: &[u8], packet: &mut [u8]) {
        let fresh = counted_up(login.challenge, turn.wrapping_add(1));
        let done = self.server.packet(reply, login.table, fresh, packet);
        console::say(b"server: ");
        let stage = words::server_stage(done.server.stage);
        tell(done.answer, stage, End::Peer, packet);
        self.server = done.server;
        self.n = given_text(written(done.answer, packet).len(), login.text, packet);
    }

    fn round(&mut self, login: &Login, turn: u8, packet: &mut [u8]) {
        let mut reply = [0u8; 400];
        let n = self.peer_turn(login, turn, octets::part(packet, 0, self.n), &mut reply);
        if n == 0 {
            self.n = 0;
            return;
        }
        self.server_turn(login, turn, octets::part(&reply, 0, n), packet);
    }

    fn tell_stages(&self) {
        console::say(b"peer ");
        console::say(words::peer_stage(self.peer.stage));
        console::say(b", server ");
        console::say(words::server_stage(self.server.stage));
        console::say(b".\n");
    }

    fn over(&self) {
        if self.peer.stage == peer::Stage::Success {
            console::say(b"\nLogged in: ");
            self.tell_stages();
            console::ended_well();
            return;
        }
        console::say(b"\nNot logged in: ");
        self.tell_stages();
        console::ended_badly(b"not logged in");
    }
}

// Twenty turns are more than any login takes.
pub(crate) fn play(login: &Login) {
    let mut packet = [0u8; 1020];
    let mut ends = Ends::begin(login, &mut packet);
    for turn in 0..20 {
        if ends.n == 0 {
            break;
        }
        ends.round(login, turn, &mut packet);
    }
    ends.over();
}
