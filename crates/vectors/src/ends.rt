// A peer and a server that go from case to case. The peer: peer NAME HASH; step PACKET RANDOM; supply NAME HASH RANDOM;
// give_up. The server: server; start IDENTIFIER CHALLENGE NAME RETRIES; packet PACKET TABLE FRESH; resend. Each writes what
// is in the reply buffer, and a step also the text that it tells.
use super::script;
use answer::{Identifier, Refusal, Reply};
use peer::{Peer, PeerStep};
use server::{Server, ServerStep};
use std::io;
use std::io::Print;

#[derive(Drop)]
pub(crate) struct Ends {
    peer: Peer,
    server: Server,
}

// A line for an answer: its number, and what it wrote.
fn tell(
    rt: &impl Print,
    name: &[u8],
    answer: Result<Reply, Refusal>,
    reply: &[u8],
) -> io::Result<()> {
    let written = octets::part(reply, 0, answer.map_or(0, |said| said.n));
    script::tell(rt, name, number_of(answer), written)
}

fn number_of(answer: Result<Reply, Refusal>) -> u8 {
    answer::number(answer.map(|reply| reply.done))
}

impl Ends {
    pub(crate) fn fresh() -> Ends {
        Ends {
            peer: Peer::new(b"", [0u8; 16]).peer,
            server: Server::new(),
        }
    }

    fn after_peer(
        &mut self,
        rt: &impl Print,
        name: &[u8],
        done: PeerStep,
        reply: &[u8],
    ) -> io::Result<()> {
        self.peer = done.peer;
        tell(rt, name, done.answer, reply)
    }

    fn after_server(
        &mut self,
        rt: &impl Print,
        name: &[u8],
        done: ServerStep,
        reply: &[u8],
    ) -> io::Result<()> {
        self.server = done.server;
        tell(rt, name, done.answer, reply)
    }

    pub(crate) fn make_peer(&mut self, rt: &impl Print, line: &[u8]) -> io::Result<()> {
        let mut name = [0u8; 300];
        let n = script::octets_of(line, 1, &mut name);
        let done = Peer::new(&name[..n], script::array(line, 2));
        self.after_peer(rt, b"peer", done, b"")
    }

    // The text that a step tells has a line if it has any octets.
    pub(crate) fn step(&mut self, rt: &impl Print, line: &[u8]) -> io::Result<()> {
        let mut packet = [0u8; 1100];
        let n = script::octets_of(line, 1, &mut packet);
        let mut reply = [0u8; 400];
        let done = self
            .peer
            .step(&packet[..n], script::array(line, 2), &mut reply);
        self.after_peer(rt, b"step", done, &reply)?;
        let text = done.text;
        if text.len == 0 {
            return Ok(());
        }
        let told = text.of(octets::part(&packet, 0, n));
        script::tell(rt, b"text", number_of(done.answer), told)
    }

    pub(crate) fn supply(&mut self, rt: &impl Print, line: &[u8]) -> io::Result<()> {
        let mut name = [0u8; 300];
        let n = script::octets_of(line, 1, &mut name);
        let mut reply = [0u8; 400];
        let hash = script::array(line, 2);
        let random = script::array(line, 3);
        let done = self.peer.supply(&name[..n], hash, random, &mut reply);
        self.after_peer(rt, b"supply", done, &reply)
    }

    pub(crate) fn give_up(&mut self, rt: &impl Print) -> io::Result<()> {
        let done = self.peer.give_up();
        self.after_peer(rt, b"give_up", done, b"")
    }

    pub(crate) fn make_server(&mut self) -> io::Result<()> {
        self.server = Server::new();
        Ok(())
    }

    pub(crate) fn start(&mut self, rt: &impl Print, line: &[u8]) -> io::Result<()> {
        let mut name = [0u8; 300];
        let n = script::octets_of(line, 3, &mut name);
        let mut reply = [0u8; 400];
        let [id]: [u8; 1] = script::array(line, 1);
        let [retries]: [u8; 1] = script::array(line, 4);
        let done = self.server.start(
            Identifier(id),
            script::array(line, 2),
            &name[..n],
            u64::from(retries),
            &mut reply,
        );
        self.after_server(rt, b"start", done, &reply)
    }

    pub(crate) fn packet(&mut self, rt: &impl Print, line: &[u8]) -> io::Result<()> {
        let mut packet = [0u8; 1100];
        let n = script::octets_of(line, 1, &mut packet);
        let mut table = [0u8; 4096];
        let m = script::octets_of(line, 2, &mut table);
        let mut reply = [0u8; 400];
        let fresh = script::array(line, 3);
        let done = self
            .server
            .packet(&packet[..n], &table[..m], fresh, &mut reply);
        self.after_server(rt, b"packet", done, &reply)
    }

    pub(crate) fn resend(&mut self, rt: &impl Print) -> io::Result<()> {
        let mut reply = [0u8; 400];
        let done = self.server.resend(&mut reply);
        self.after_server(rt, b"resend", done, &reply)
    }
}
