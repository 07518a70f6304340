// The server's end: start, packet and resend, each on the state by value.
#![tactic(auto)]

ghost use Rattle.std.specs.Prelude.{◌≡◌, ◌≤◌, true, length};
ghost use Rattle.answer.specs.Outcome.{gives, told, outcome, fitting};
ghost use Rattle.answer.specs.Results.{Writes, Replies};
ghost use Rattle.answer.specs.Sizes.{max_name};
ghost use Rattle.answer.specs.declared.Done.TheVariants as Done;
ghost use Rattle.packet.specs.Reader.{no_packet, told_reading, challenge_in};
ghost use Rattle.verdict.specs.Verdict.{judge_of};
ghost use Rattle.writers.specs.Writers.{sends};
ghost use Rattle.server.specs.declared.Stage.TheVariants as Stage;
ghost use Rattle.server.specs.State.{request_room, stored_request, next_id, ids_of, challenge_to, success_to, retry_digit, failure_to, initial, asked, staged};
ghost use Rattle.server.specs.Moves.{begins, sent, takes, misnumbered, turn_refusal, turn_of};
ghost use Rattle.server.specs.Calls.{succeeding, start_fits, start_of, final, due_of, fail_of, verdict_of, judged_by, nt_response_of, response_name, packet_of, resend_of};

use answer::{ChapId, Done, Identifier, Refusal, Reply};
use packet::{End, Kind, Packet};
use verdict::Verdict;
use writers::Ids;

#[derive(Clone, Copy, PartialEq, Eq)]
pub enum Stage {
    Begin,
    ChallengeSent,
    SuccessRequestSent,
    FailureRequestSent,
    Success,
    Failed,
}

// A request: its Identifier and MS-CHAPv2-ID, the challenge that is outstanding with it, and its octets. They stand in an array
// with their number beside it: no heap, and a state that is handed in may give any number. Before the first request all is zero,
// and no Option: a state's octets are so.
#[derive(Clone, Copy)]
pub struct Request {
    pub id: Identifier,
    pub chapid: ChapId,
    pub challenge: [u8; 16],
    pub octets: [u8; Server::REQUEST_ROOM],
    pub len: u16,
}

// The retries left, and the outstanding request.
#[derive(Clone, Copy)]
pub struct Server {
    pub stage: Stage,
    pub retries: u8,
    pub request: Request,
}

// What a call answers, and the state after it. The octets of the reply are in the reply buffer.
#[derive(Clone, Copy)]
pub struct ServerStep {
    pub answer: Result<Reply, Refusal>,
    pub server: Server,
}

// A Failure Request's E and R, and the stage and the retries left after it.
#[derive(Clone, Copy)]
struct Failure {
    stage: Stage,
    retries: u8,
    error: u16,
    retry: bool,
}

// What a verdict brings: the Success Request with the authenticator string, or a Failure Request.
#[derive(Clone, Copy)]
enum Due {
    Success([u8; 20]),
    Failure(Failure),
}

// ---- stages
impl Stage {
    fn is_begin(self) -> bool
        ensures { result ≡ begins self }
    {
        self == Stage::Begin
    }

    fn is_sent(self) -> bool
        ensures { result ≡ sent self }
    {
        matches!(
            self,
            Stage::ChallengeSent | Stage::SuccessRequestSent | Stage::FailureRequestSent
        )
    }

    // Whether the stage takes packets of that kind.
    fn takes(self, kind: Kind) -> bool
        ensures { result ≡ takes self kind }
    {
        match self {
            Stage::ChallengeSent => kind == Kind::Response,
            Stage::SuccessRequestSent => kind == Kind::SuccessResponse,
            Stage::FailureRequestSent => kind == Kind::FailureResponse,
            Stage::Begin | Stage::Success | Stage::Failed => false,
        }
    }
}

// ---- the numbers of a request
#[tactic(auto, unfolding(crate::specs::State::next_id))]
fn next_id(id: Identifier) -> Identifier
    ensures { result ≡ next_id id }
{
    Identifier(id.0.wrapping_add(1))
}

// The server writes both numbers equal. They are two kinds of number, and no From makes one of the other elsewhere.
#[tactic(auto, unfolding(crate::specs::State::chap_of))]
fn ids_of(id: Identifier) -> Ids
    ensures { result ≡ ids_of id }
{
    Ids {
        id,
        chapid: ChapId(id.0),
    }
}

// ---- what goes out
fn challenge_request(
    id: Identifier,
    challenge: [u8; 16],
    name: &[u8],
    reply: &mut [u8],
) -> Result<usize, Refusal>
    requires { (1 ≤ length name.now) × (length name.now ≤ max_name) }
    ensures { Writes (sends (length reply.old) (challenge_to id challenge name.now)) result reply.old reply.new }
{
    writers::write_challenge(ids_of(id), challenge, name, reply)
}

fn success_request(id: Identifier, string: [u8; 20], reply: &mut [u8]) -> Result<usize, Refusal>
    ensures { Writes (sends (length reply.old) (success_to id string)) result reply.old reply.new }
{
    writers::write_success_request(ids_of(id), string, b"", reply)
}

fn failure_request(
    id: Identifier,
    f: Failure,
    fresh: [u8; 16],
    reply: &mut [u8],
) -> Result<usize, Refusal>
    ensures { Writes (sends (length reply.old) (failure_to id f.error (retry_digit f.retry) fresh)) result reply.old reply.new }
{
    let error = u64::from(f.error);
    let retry = u8::from(f.retry);
    writers::write_failure_request(ids_of(id), error, retry, fresh, b"", reply)
}

// Whether a start's name and retry count keep to their sizes.
#[tactic(auto, using(octets::proofs::Exits::exits), unfolding(crate::specs::Calls::start_fits))]
fn start_fits(n: usize, retries: u64) -> bool
    ensures { result ≡ start_fits n retries }
{
    n != 0 && n <= Server::MAX_NAME && retries <= Server::MAX_RETRIES
}

impl Server {
    pub const MAX_NAME: usize = answer::MAX_NAME;

    pub const MAX_RETRIES: u64 = 10;

    pub const REQUEST_ROOM: usize = packet::CHALLENGE_NAME_AT + Server::MAX_NAME;

    // The E of a wrong Response.
    const AUTHENTICATION_FAILURE: u16 = 691;

    #[tactic(auto, unfolding(crate::specs::State::initial))]
    pub fn new() -> Server
        ensures { result ≡ initial }
    {
        Server {
            stage: Stage::Begin,
            retries: 0,
            request: Request {
                id: Identifier(0),
                chapid: ChapId(0),
                challenge: [0u8; 16],
                octets: [0u8; Server::REQUEST_ROOM],
                len: 0,
            },
        }
    }

    // The request q was written, and the state waits for its answer. id, challenge and retries are start's own parameters, and in no struct:
    // it would be made in one call and taken apart in the next.
    #[tactic(auto, unfolding(crate::specs::State::asked))]
    fn ask(
        &mut self,
        stage: Stage,
        id: Identifier,
        challenge: [u8; 16],
        retries: u8,
        q: &[u8],
    ) -> Reply
        requires { length q.now ≤ request_room }
        ensures { (result ≡ record { done = Done.Written; n = length q.now }) × (self.new ≡ asked stage id challenge retries q.now self.old) }
    {
        let ids = ids_of(id);
        self.stage = stage;
        self.retries = retries;
        self.request = Request {
            id,
            chapid: ids.chapid,
            challenge,
            octets: octets::array_at(q, 0),
            len: q.len() as u16,
        };
        Reply {
            done: Done::Written,
            n: q.len(),
        }
    }

    // The last packet went out in n octets.
    #[tactic(auto, unfolding(crate::specs::State::staged))]
    fn close(&mut self, stage: Stage, done: Done, n: usize) -> Reply
        ensures { (result ≡ record { done = done; n = n }) × (self.new ≡ staged stage self.old) }
    {
        self.stage = stage;
        Reply { done, n }
    }

    // ---- start
    // 19, 23 and 20, or the Challenge.
    fn begin(
        &mut self,
        id: Identifier,
        challenge: [u8; 16],
        name: &[u8],
        retries: u64,
        reply: &mut [u8],
    ) -> Result<Reply, Refusal>
        ensures { Replies (start_of self.old id challenge name.now retries (length reply.old)) result self.new reply.old reply.new }
    {
        if !self.stage.is_begin() {
            return Err(Refusal::NotTaken);
        }
        if !start_fits(name.len(), retries) {
            return Err(Refusal::BadArgument);
        }
        let n = challenge_request(id, challenge, name, reply)?;
        Ok(self.ask(
            Stage::ChallengeSent,
            id,
            challenge,
            retries as u8,
            &reply[..n],
        ))
    }

    // First Identifier, challenge, own name and retry count: the Challenge.
    pub fn start(
        mut self,
        id: Identifier,
        challenge: [u8; 16],
        name: &[u8],
        retries: u64,
        reply: &mut [u8],
    ) -> ServerStep
        ensures { Replies (start_of self id challenge name.now retries (length reply.old)) result.answer result.server reply.old reply.new }
    {
        let answer = self.begin(id, challenge, name, retries, reply);
        ServerStep {
            answer,
            server: self,
        }
    }

    // ---- the turn: no table is read
    #[tactic(auto, using(octets::proofs::Exits::wide), unfolding(crate::specs::Moves::misnumbered))]
    fn misnumbered(&self, k: Packet) -> bool
        ensures { result ≡ misnumbered self.now k }
    {
        k.id != self.request.id || k.kind == Kind::Response && k.chapid != self.request.chapid
    }

    // 19, then 18.
    #[tactic(auto, using(crate::proofs::Laws::check_stage, crate::proofs::Laws::check_numbers, crate::proofs::Laws::check_taken))]
    fn checked(&self, k: Packet) -> Result<Packet, Refusal>
        ensures { told_reading result ≡ told (turn_refusal self.now (gives k)) no_packet k }
    {
        if !self.stage.takes(k.kind) {
            return Err(Refusal::NotTaken);
        }
        if self.misnumbered(k) {
            return Err(Refusal::WrongIdentifier);
        }
        Ok(k)
    }

    fn turn(&self, p: &[u8]) -> Result<Packet, Refusal>
        ensures { told_reading result ≡ turn_of self.now p.now }
    {
        let k = packet::read(End::Server, p)?;
        self.checked(k)
    }

    // ---- what is due
    // The end, with R=0.
    fn last(&self, error: u16) -> Failure
        ensures { result ≡ final self.now error }
    {
        Failure {
            stage: Stage::FailureRequestSent,
            retries: self.retries,
            error,
            retry: false,
        }
    }

    // 21, or what the verdict brings.
    #[tactic(auto, using(octets::proofs::Exits::exits), unfolding(crate::specs::Calls::due_of))]
    fn due(&self, verdict: Verdict) -> Result<Due, Refusal>
        ensures { result ≡ due_of verdict self.now }
    {
        match verdict {
            Verdict::Malformed => Err(Refusal::BadTable),
            Verdict::Right { code: 0, string } => Ok(Due::Success(string)),
            Verdict::Right { code, string: _ } => Ok(Due::Failure(self.last(code))),
            Verdict::Wrong if self.retries == 0 => {
                Ok(Due::Failure(self.last(Server::AUTHENTICATION_FAILURE)))
            }
            Verdict::Wrong => Ok(Due::Failure(Failure {
                stage: self.stage,
                retries: self.retries - 1,
                error: Server::AUTHENTICATION_FAILURE,
                retry: true,
            })),
        }
    }

    // ---- the act
    // 22, then the Failure Request, with the fresh challenge.
    fn fail(&mut self, f: Failure, fresh: [u8; 16], reply: &mut [u8]) -> Result<Reply, Refusal>
        ensures { Replies (fail_of f self.old fresh (length reply.old)) result self.new reply.old reply.new }
    {
        // by octets::equal, which looks at every octet
        let outstanding = self.request.challenge;
        if octets::equal(&fresh, &outstanding) {
            return Err(Refusal::SameChallenge);
        }
        let id = next_id(self.request.id);
        let n = failure_request(id, f, fresh, reply)?;
        Ok(self.ask(f.stage, id, fresh, f.retries, &reply[..n]))
    }

    fn succeed(&mut self, string: [u8; 20], reply: &mut [u8]) -> Result<Reply, Refusal>
        ensures { Replies (fitting (length reply.old) self.old (succeeding self.old string)) result self.new reply.old reply.new }
    {
        let id = next_id(self.request.id);
        let challenge = self.request.challenge;
        let retries = self.retries;
        let n = success_request(id, string, reply)?;
        Ok(self.ask(
            Stage::SuccessRequestSent,
            id,
            challenge,
            retries,
            &reply[..n],
        ))
    }

    fn judged(
        &mut self,
        verdict: Verdict,
        fresh: [u8; 16],
        reply: &mut [u8],
    ) -> Result<Reply, Refusal>
        ensures { Replies (judged_by verdict self.old fresh (length reply.old)) result self.new reply.old reply.new }
    {
        match self.due(verdict)? {
            Due::Success(string) => self.succeed(string, reply),
            Due::Failure(f) => self.fail(f, fresh, reply),
        }
    }

    // ---- the packet
    // The verdict on a Response, by its peer challenge, NT-Response and name.
    #[tactic(auto, unfolding(crate::specs::Calls::verdict_of, packet::specs::Reader::challenge_in, crate::specs::Calls::nt_response_of, crate::specs::Calls::response_name))]
    fn verdict(&self, k: Packet, p: &[u8], table: &[u8]) -> Verdict
        ensures { result ≡ verdict_of self.now k p.now table.now }
    {
        let challenge = self.request.challenge;
        let peer = octets::array_at(p, k.challenge.start);
        let response = octets::array_at(p, k.response.start);
        // by part: any Packet counts, and a place past the octets is cut
        let name = octets::part(p, k.tail.start, k.tail.len);
        verdict::judge(challenge, peer, response, name, table)
    }

    // The turn, and what the stage does with the packet that it takes.
    fn step(
        &mut self,
        packet: &[u8],
        table: &[u8],
        fresh: [u8; 16],
        reply: &mut [u8],
    ) -> Result<Reply, Refusal>
        ensures { Replies (packet_of self.old packet.now table.now fresh (length reply.old)) result self.new reply.old reply.new }
    {
        let k = self.turn(packet)?;
        // each stage is a case of its own: no table of functions
        match self.stage {
            Stage::ChallengeSent => {
                let verdict = self.verdict(k, packet, table);
                self.judged(verdict, fresh, reply)
            }
            Stage::SuccessRequestSent => {
                let n = writers::write_eap_success(k.id, reply)?;
                Ok(self.close(Stage::Success, Done::Authenticated, n))
            }
            Stage::FailureRequestSent => {
                let m = writers::write_eap_failure(k.id, reply)?;
                Ok(self.close(Stage::Failed, Done::Ended, m))
            }
            Stage::Begin | Stage::Success | Stage::Failed => Err(Refusal::NotTaken),
        }
    }

    // A packet, the account table, and a fresh challenge for a Failure Request.
    pub fn packet(
        mut self,
        packet: &[u8],
        table: &[u8],
        fresh: [u8; 16],
        reply: &mut [u8],
    ) -> ServerStep
        ensures { Replies (packet_of self packet.now table.now fresh (length reply.old)) result.answer result.server reply.old reply.new }
    {
        let answer = self.step(packet, table, fresh, reply);
        ServerStep {
            answer,
            server: self,
        }
    }

    // ---- resend
    // 19 and 20, or the request.
    fn again(&self, reply: &mut [u8]) -> Result<Reply, Refusal>
        ensures { Replies (resend_of self.now (length reply.old)) result self.now reply.old reply.new }
    {
        if !self.stage.is_sent() {
            return Err(Refusal::NotTaken);
        }
        // by part: a number past the array counts as the array's length
        let n = writers::send(
            octets::part(&self.request.octets, 0, usize::from(self.request.len)),
            reply,
        )?;
        Ok(Reply {
            done: Done::Written,
            n,
        })
    }

    // The outstanding request again.
    pub fn resend(self, reply: &mut [u8]) -> ServerStep
        ensures { Replies (resend_of self (length reply.old)) result.answer result.server reply.old reply.new }
    {
        ServerStep {
            answer: self.again(reply),
            server: self,
        }
    }
}
