// The peer's end: document 01, "The logger's moves (peer)".
#![tactic(auto)]

ghost use Rattle.std.specs.Prelude.{◌≡◌, [], ◌<◌, ◌≤◌, length, Ok, IfOk, MatchResult};
ghost use Rattle.answer.specs.Outcome.{outcome, fitting, Does};
ghost use Rattle.answer.specs.Results.{refusal_in, reply_number, Replies};
ghost use Rattle.answer.specs.declared.Done.TheVariants.{Written};
ghost use Rattle.answer.specs.declared.Refusal.TheVariants.{BadArgument};
ghost use Rattle.answer.specs.Sizes.{max_packet, max_name};
ghost use Rattle.packet.specs.Kinds.{is_request};
ghost use Rattle.packet.specs.Forms.{failure_response};
ghost use Rattle.packet.specs.Texts.{text_told};
ghost use Rattle.packet.specs.Reader.{nowhere, told_reading};
ghost use Rattle.writers.specs.Writers.{sends};
ghost use Rattle.peer.specs.declared.Move.TheVariants as move;
ghost use Rattle.peer.specs.declared.Stage.TheVariants as stage;
ghost use Rattle.peer.specs.Inner.{name_in, sent_count, starting};
ghost use Rattle.peer.specs.State.{reply_room, last_request, last_reply, response_to, string_to, right_digits, credentials_of, challenges_of, at_stage, with_request, with_reply, staged, answered, awaiting};
ghost use Rattle.peer.specs.Moves.{takes, move_of, sent, repeats, misnumbered, turn_of};
ghost use Rattle.peer.specs.Calls.{new_of, renewed_in, turn_in, moved_of, taken_by, read_by, step_of, text_by, step_text, DoesTelling, supply_of, give_up_of};

use answer::{ChapId, Done, Identifier, Refusal, Reply};
use mschap::Exchange;
use packet::{End, Kind, Packet, Place};
use writers::Ids;

#[derive(Clone, Copy, PartialEq, Eq)]
pub enum Stage {
    Begin,
    ChallengeResponseSent,
    SuccessResponseSent,
    FailureResponseSent,
    Waiting,
    Success,
    Failed,
}

impl Stage {
    fn takes(self, kind: Kind) -> bool
        ensures { result ≡ takes self kind }
    {
        match self {
            Stage::Begin => matches!(kind, Kind::Challenge),
            Stage::ChallengeResponseSent => matches!(
                kind,
                Kind::SuccessRequest | Kind::FailureRequest | Kind::RetryRequest | Kind::EapFailure
            ),
            Stage::SuccessResponseSent => matches!(kind, Kind::EapSuccess | Kind::EapFailure),
            Stage::FailureResponseSent => matches!(kind, Kind::EapFailure),
            Stage::Waiting | Stage::Success | Stage::Failed => false,
        }
    }

    fn is_sent(self) -> bool
        ensures { result ≡ sent self }
    {
        matches!(
            self,
            Stage::ChallengeResponseSent | Stage::SuccessResponseSent | Stage::FailureResponseSent
        )
    }
}

// What a stage makes of a packet. An enum and no closure: the definitions of specs/Calls go by it, and closures may not be handed out.
#[derive(Clone, Copy)]
enum Move {
    NotTaken,
    WrongIdentifier,
    Again,
    Respond,
    Confirm,
    Fail,
    Wait,
    Succeed,
    End,
}

// Of each array with a length the octets past it are zero; a length past its array counts as the array's. Arrays with a length
// beside them and no Vec: memory is fixed, and a state that is handed in may give any length. The length stands first: with no
// padding before the name the compiler copies it at once.
#[derive(Clone, Copy)]
pub struct Credentials {
    pub namelen: u16,
    pub name: [u8; Peer::MAX_NAME],
    pub hash: [u8; 16],
}

impl Credentials {
    const NONE: Credentials = Credentials {
        namelen: 0,
        name: [0u8; Peer::MAX_NAME],
        hash: [0u8; 16],
    };
}

// The last Response's challenges and MS-CHAPv2-ID, and the authenticator string that is to answer it; in WAITING the
// authenticator's challenge is C.
#[derive(Clone, Copy)]
pub struct Challenges {
    pub authenticator: [u8; 16],
    pub own: [u8; 16],
    pub chapid: ChapId,
    pub expected: [u8; 20],
}

// The state.
#[derive(Clone, Copy)]
pub struct Peer {
    pub stage: Stage,
    pub credentials: Credentials,
    pub challenges: Challenges,
    // the last answered request; in WAITING, the kept one
    pub request: [u8; Peer::MAX_PACKET],
    pub requestlen: u16,
    pub reply: [u8; Peer::REPLY_ROOM],
    pub replylen: u16,
}

#[derive(Clone, Copy)]
pub struct PeerStep {
    pub answer: Result<Reply, Refusal>,
    // where the server's text lies in the packet that was taken; at 0 where none is told, as step_text has it, and no Option
    pub text: Place,
    pub peer: Peer,
}

// A packet that was read, and its octets up to L.
#[derive(Clone, Copy)]
struct Received<'a> {
    packet: Packet,
    octets: &'a [u8],
    ghost few: { length octets.now ≤ max_packet },
}

// The move that a packet brings where it is taken.
fn move_of(kind: Kind) -> Move
    ensures { result ≡ move_of kind }
{
    match kind {
        Kind::Challenge => Move::Respond,
        Kind::SuccessRequest => Move::Confirm,
        Kind::FailureRequest => Move::Fail,
        Kind::RetryRequest => Move::Wait,
        Kind::EapSuccess => Move::Succeed,
        Kind::EapFailure => Move::End,
        Kind::Response | Kind::SuccessResponse | Kind::FailureResponse => Move::NotTaken,
    }
}

fn is_request(kind: Kind) -> bool
    ensures { result ≡ is_request kind }
{
    matches!(
        kind,
        Kind::Challenge | Kind::SuccessRequest | Kind::FailureRequest | Kind::RetryRequest
    )
}

// The repeat rule. same: the packet's first L octets equal the last answered request's.
#[tactic(auto, using(octets::proofs::Exits::exits), unfolding(crate::specs::Moves::repeats, octets::specs::Choice::pick))]
fn is_repeat(stage: Stage, kind: Kind, same: bool) -> bool
    ensures { result ≡ repeats stage kind same }
{
    stage.is_sent() && is_request(kind) && same
}

// Number 18. known: the packet's Identifier is the last answered one.
fn is_misnumbered(stage: Stage, kind: Kind, known: bool) -> bool
    ensures { result ≡ misnumbered stage kind known }
{
    stage.is_sent() && is_request(kind) == known
}

// The repeat rule, 19, 18, and then the table's move.
#[tactic(auto, using(octets::proofs::Exits::exits), unfolding(crate::specs::Moves::turn_of))]
fn turn_of(stage: Stage, kind: Kind, same: bool, known: bool) -> Move
    ensures { result ≡ turn_of stage kind same known }
{
    if is_repeat(stage, kind, same) {
        return Move::Again;
    }
    if !stage.takes(kind) {
        return Move::NotTaken;
    }
    if is_misnumbered(stage, kind, known) {
        return Move::WrongIdentifier;
    }
    move_of(kind)
}

// The turn that a packet brings after the last answered request.
#[tactic(auto, unfolding(crate::specs::Calls::turn_in))]
fn turn_in(stage: Stage, x: Received, last: &[u8]) -> Move
    ensures { result ≡ turn_in stage x.entry.packet x.entry.octets.now last.now }
{
    // `equal`, since it is the definition `same`
    let same = octets::equal(x.octets, last);
    let known = octets::octet_is(last, 1, x.packet.id.0);
    turn_of(stage, x.packet.kind, same, known)
}

// ---- Responses
// 23 for a name of more than 256 octets.
fn credentials_of(name: &[u8], hash: [u8; 16]) -> Result<Credentials, Refusal>
    ensures { MatchResult result (λ c. (length name.now ≤ max_name) × (c ≡ credentials_of name.now hash)) (λ why. (max_name < length name.now) × (why ≡ BadArgument)) }
{
    if Peer::MAX_NAME < name.len() {
        return Err(Refusal::BadArgument);
    }
    Ok(Credentials {
        namelen: name.len() as u16,
        name: octets::array_at(name, 0),
        hash,
    })
}

fn name_in(credentials: &Credentials) -> &[u8]
    ensures is { result.now ≡ name_in credentials.now }
    ensures few { length result.now ≤ max_name }
{
    octets::part(&credentials.name, 0, credentials.namelen as usize)
}

// A Response that was written: its length, and what the state keeps of it.
#[derive(Clone, Copy)]
struct Sent {
    n: usize,
    challenges: Challenges,
}

// Writes the Response to a challenge, or answers 20.
fn send_response(
    ids: Ids,
    authenticator: [u8; 16],
    own: [u8; 16],
    credentials: &Credentials,
    reply: &mut [u8],
) -> Result<Sent, Refusal>
    ensures writes { Does (sends (length reply.old) (response_to ids.id.0 ids.chapid.0 authenticator own (name_in credentials.now) credentials.now.hash)) (refusal_in result) (sent_count result) tt reply.old reply.new }
    ensures keeps { IfOk result (λ s. s.challenges ≡ challenges_of authenticator own ids.chapid (string_to authenticator own (name_in credentials.now) credentials.now.hash)) }
{
    let name = name_in(credentials);
    let hash = credentials.hash;
    let exchange = Exchange {
        authenticator,
        peer: own,
        user: mschap::user_part(name),
    };
    let response = exchange.nt_response(hash);
    let n = writers::write_response(ids, own, response, name, reply)?;
    let expected = exchange.authenticator_string(hash, response);
    Ok(Sent {
        n,
        challenges: Challenges {
            authenticator,
            own,
            chapid: ids.chapid,
            expected,
        },
    })
}

// An answer without a reply.
fn said(done: Done) -> Result<Reply, Refusal>
    ensures { result ≡ Ok (record { done = done; n = 0 }) }
{
    Ok(Reply { done, n: 0 })
}

// A reply of n octets.
fn wrote(n: usize) -> Result<Reply, Refusal>
    ensures { result ≡ Ok (record { done = Written; n = n }) }
{
    Ok(Reply {
        done: Done::Written,
        n,
    })
}

impl Peer {
    pub const MAX_PACKET: usize = answer::MAX_PACKET;

    pub const MAX_NAME: usize = answer::MAX_NAME;

    pub const REPLY_ROOM: usize = packet::RESPONSE_NAME_AT + Peer::MAX_NAME;

    fn initial(stage: Stage, credentials: Credentials) -> Peer
        ensures { result ≡ starting stage credentials }
    {
        Peer {
            stage,
            credentials,
            challenges: Challenges {
                authenticator: [0u8; 16],
                own: [0u8; 16],
                chapid: ChapId(0),
                expected: [0u8; 20],
            },
            request: [0u8; Peer::MAX_PACKET],
            requestlen: 0,
            reply: [0u8; Peer::REPLY_ROOM],
            replylen: 0,
        }
    }

    // ---- what the state holds
    #[tactic(auto, unfolding(crate::specs::State::last_request))]
    fn last_request(&self) -> &[u8]
        ensures { result.now ≡ last_request self.now }
    {
        octets::part(&self.request, 0, self.requestlen as usize)
    }

    #[tactic(auto, unfolding(crate::specs::State::last_reply))]
    fn last_reply(&self) -> &[u8]
        ensures { result.now ≡ last_reply self.now }
    {
        octets::part(&self.reply, 0, self.replylen as usize)
    }

    // ---- what a move changes
    fn keep_request(&mut self, x: Received)
        ensures { self.new ≡ with_request x.entry.octets.now self.old }
    {
        octets::fill(&mut self.request, x.octets);
        self.requestlen = x.octets.len() as u16;
    }

    // The reply w was sent.
    fn sent(&mut self, stage: Stage, w: &[u8])
        requires { length w.now ≤ reply_room }
        ensures { self.new ≡ at_stage stage self.old.credentials self.old.challenges (with_reply w.now self.old) }
    {
        self.stage = stage;
        octets::fill(&mut self.reply, w);
        self.replylen = w.len() as u16;
    }

    // ---- the moves of a packet
    // A repeat brings the stored reply again.
    fn repeat(&self, reply: &mut [u8]) -> Result<Reply, Refusal>
        ensures { Replies (fitting (length reply.old) self.now (outcome 0 (last_reply self.now) self.now)) result self.now reply.old reply.new }
    {
        let n = writers::send(self.last_reply(), reply)?;
        wrote(n)
    }

    // The Response to a Challenge.
    fn respond(&mut self, x: Received, random: [u8; 16], reply: &mut [u8]) -> Result<Reply, Refusal>
        ensures { Replies (moved_of move.Respond self.old x.entry.packet x.entry.octets.now random (length reply.old)) result self.new reply.old reply.new }
    {
        let ids = Ids {
            id: x.packet.id,
            chapid: x.packet.chapid,
        };
        let authenticator = octets::array_at(x.octets, x.packet.challenge.start);
        let sent = send_response(ids, authenticator, random, &self.credentials, reply)?;
        self.challenges = sent.challenges;
        self.keep_request(x);
        self.sent(Stage::ChallengeResponseSent, octets::part(reply, 0, sent.n));
        wrote(sent.n)
    }

    // The Success Response to the right string, all of whose digits are compared. Another ends the login.
    fn confirm(&mut self, x: Received, reply: &mut [u8]) -> Result<Reply, Refusal>
        ensures { Replies (moved_of move.Confirm self.old x.entry.packet x.entry.octets.now [] (length reply.old)) result self.new reply.old reply.new }
    {
        let right = mschap::authenticator_digits(self.challenges.expected);
        let digits = octets::part(x.octets, x.packet.response.start, 40);
        if !octets::equal(digits, &right) {
            self.stage = Stage::Failed;
            return said(Done::Ended);
        }
        let n = writers::write_success_response(x.packet.id, reply)?;
        self.keep_request(x);
        self.sent(Stage::SuccessResponseSent, octets::part(reply, 0, n));
        wrote(n)
    }

    // The Failure Response to R=0.
    fn fail(&mut self, x: Received, reply: &mut [u8]) -> Result<Reply, Refusal>
        ensures { Replies (fitting (length reply.old) self.old (outcome 0 (failure_response x.entry.packet.id.0) (answered stage.FailureResponseSent x.entry.octets.now (failure_response x.entry.packet.id.0) self.old))) result self.new reply.old reply.new }
    {
        let n = writers::write_failure_response(x.packet.id, reply)?;
        self.keep_request(x);
        self.sent(Stage::FailureResponseSent, octets::part(reply, 0, n));
        wrote(n)
    }

    // WAITING, keeping the Failure Request x, R=1, and its C.
    #[tactic(auto, unfolding(crate::specs::State::awaiting, crate::specs::Calls::renewed_in))]
    fn wait(&mut self, x: Received)
        ensures { self.new ≡ awaiting (renewed_in x.entry.packet x.entry.octets.now) x.entry.octets.now self.old }
    {
        self.stage = Stage::Waiting;
        self.challenges = Challenges {
            authenticator: packet::hex_sixteen_at(x.octets, x.packet.challenge.start),
            ..self.challenges
        };
        self.keep_request(x);
    }

    // Takes a packet. A refusal leaves the state as it was.
    fn take(&mut self, x: Received, random: [u8; 16], reply: &mut [u8]) -> Result<Reply, Refusal>
        ensures { Replies (taken_by (right_digits self.old) self.old x.entry.packet x.entry.octets.now random (length reply.old)) result self.new reply.old reply.new }
    {
        match turn_in(self.stage, x, self.last_request()) {
            Move::NotTaken => Err(Refusal::NotTaken),
            Move::WrongIdentifier => Err(Refusal::WrongIdentifier),
            Move::Again => self.repeat(reply),
            Move::Respond => self.respond(x, random, reply),
            Move::Confirm => self.confirm(x, reply),
            Move::Fail => self.fail(x, reply),
            Move::Wait => {
                self.wait(x);
                said(Done::NeedsCredentials)
            }
            Move::Succeed => {
                self.stage = Stage::Success;
                said(Done::Authenticated)
            }
            Move::End => {
                self.stage = Stage::Failed;
                said(Done::Ended)
            }
        }
    }

    // What was read of the octets s: a packet up to L, or a refusal.
    fn receive(
        &mut self,
        read: Result<Packet, Refusal>,
        s: &[u8],
        random: [u8; 16],
        reply: &mut [u8],
    ) -> Result<Reply, Refusal>
        requires { (told_reading read).value.length ≤ max_packet }
        ensures { Replies (read_by (right_digits self.old) (told_reading read) self.old s.now random (length reply.old)) result self.new reply.old reply.new }
    {
        let packet = read?;
        let octets = octets::part(s, 0, packet.length);
        self.take(Received { packet, octets }, random, reply)
    }

    pub fn step(mut self, packet: &[u8], random: [u8; 16], reply: &mut [u8]) -> PeerStep
        ensures { DoesTelling (step_of self packet.now random (length reply.old)) (step_text self packet.now random (length reply.old)) result reply.old reply.new }
    {
        let read = packet::read(End::Peer, packet);
        let answer = self.receive(read, packet, random, reply);
        // a refusal tells no text
        let text = packet::text_told(answer.and(read));
        PeerStep {
            answer,
            text,
            peer: self,
        }
    }

    // ---- the two calls of WAITING
    // New credentials answer C by a Response, under the kept request's Identifier and MS-CHAPv2-ID.
    fn resume(
        &mut self,
        name: &[u8],
        hash: [u8; 16],
        random: [u8; 16],
        reply: &mut [u8],
    ) -> Result<Reply, Refusal>
        ensures { Replies (supply_of self.old name.now hash random (length reply.old)) result self.new reply.old reply.new }
    {
        if self.stage != Stage::Waiting {
            return Err(Refusal::NotTaken);
        }
        let credentials = credentials_of(name, hash)?;
        let kept = self.last_request();
        let ids = Ids {
            id: Identifier(octets::octet(kept, 1)),
            chapid: ChapId(octets::octet(kept, 6)),
        };
        let authenticator = self.challenges.authenticator;
        let sent = send_response(ids, authenticator, random, &credentials, reply)?;
        self.credentials = credentials;
        self.challenges = sent.challenges;
        self.sent(Stage::ChallengeResponseSent, octets::part(reply, 0, sent.n));
        wrote(sent.n)
    }

    pub fn supply(
        mut self,
        name: &[u8],
        hash: [u8; 16],
        random: [u8; 16],
        reply: &mut [u8],
    ) -> PeerStep
        ensures { DoesTelling (supply_of self name.now hash random (length reply.old)) nowhere result reply.old reply.new }
    {
        let answer = self.resume(name, hash, random, reply);
        PeerStep {
            answer,
            text: packet::NOWHERE,
            peer: self,
        }
    }

    fn abandon(&mut self) -> Result<Reply, Refusal>
        ensures { Replies (give_up_of self.old) result self.new [] [] }
    {
        if self.stage != Stage::Waiting {
            return Err(Refusal::NotTaken);
        }
        self.stage = Stage::Failed;
        said(Done::Ended)
    }

    pub fn give_up(mut self) -> PeerStep
        ensures { DoesTelling (give_up_of self) nowhere result [] [] }
    {
        let answer = self.abandon();
        PeerStep {
            answer,
            text: packet::NOWHERE,
            peer: self,
        }
    }

    // ---- made from name and hash
    pub fn new(name: &[u8], hash: [u8; 16]) -> PeerStep
        ensures { DoesTelling (new_of name.now hash) nowhere result [] [] }
    {
        match credentials_of(name, hash) {
            Ok(credentials) => PeerStep {
                answer: said(Done::Written),
                text: packet::NOWHERE,
                peer: Peer::initial(Stage::Begin, credentials),
            },
            Err(why) => PeerStep {
                answer: Err(why),
                text: packet::NOWHERE,
                peer: Peer::initial(Stage::Failed, Credentials::NONE),
            },
        }
    }
}
