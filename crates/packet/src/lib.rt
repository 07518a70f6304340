// The packets of document 01, "Packet forms", and their reader.
#![tactic(auto)]

ghost use Rattle.std.specs.Prelude.{◌≡◌, MatchResult, true, false, not, ◌&&◌, ◌||◌, ◌+◌, ◌-◌, length, get_or, drop, ltb, leb, eqb};
ghost use Rattle.octets.specs.Lists.{cells, part};
ghost use Rattle.octets.specs.Octets.{octet_is, number_at, digits, number, unhex_at};
ghost use Rattle.octets.specs.declared.Order.TheVariants as order;
ghost use Rattle.answer.specs.declared.Refusal.TheVariants.{BadType, BadMsLength, BadForm};
ghost use Rattle.packet.specs.Frame.{frame_of, told_frame};
ghost use Rattle.packet.specs.Kinds.{kind_number, has_text};
ghost use Rattle.packet.specs.Inner.{RefusedIf, FailureFormed, FailureUnlike, request, reply};
ghost use Rattle.packet.specs.Reader.{place, nowhere, at, reading, told_reading, challenge_formed, read_challenge, response_formed, read_response, success_formed, text_at, read_success, failure_of, read_failure, read_bare, read_cut, read_packet};
ghost use Rattle.packet.specs.Texts.{text_in, text_told, text_part};

use answer::{ChapId, Identifier, Refusal};
use octets::Order;

// Where the parts of a packet start: challenges, the NT-Response, names and texts.
pub const CHALLENGE_AT: usize = 10;

pub const NT_RESPONSE_AT: usize = 34;

pub const CHALLENGE_NAME_AT: usize = 26;

pub const RESPONSE_NAME_AT: usize = 59;

pub const SUCCESS_TEXT_AT: usize = 54;

// Where a Success message's tail starts, or L where it has none.
pub const SUCCESS_TAIL_AT: usize = 51;

// The most octets of a Response.
pub const MAX_RESPONSE: usize = RESPONSE_NAME_AT + answer::MAX_NAME;

// A part that is not there.
pub const NOWHERE: Place = Place { start: 0, len: 0 };

const CHALLENGE: Place = Place {
    start: CHALLENGE_AT,
    len: 16,
};

const NT_RESPONSE: Place = Place {
    start: NT_RESPONSE_AT,
    len: 24,
};

const STRING: Place = Place { start: 11, len: 40 };

// The end that a packet is read for.
#[derive(Clone, Copy, PartialEq, Eq)]
pub enum End {
    Peer,
    Server,
}

// A Failure Request has R=0, a Retry Request is a Failure Request with R=1.
#[derive(Clone, Copy, PartialEq, Eq)]
pub enum Kind {
    Challenge,
    Response,
    SuccessRequest,
    FailureRequest,
    RetryRequest,
    SuccessResponse,
    FailureResponse,
    EapSuccess,
    EapFailure,
}

// The number of a kind.
impl From<Kind> for u8 {
    ghost from_gives = { λ kind n. n ≡ kind_number kind };

    fn from(kind: Kind) -> u8 {
        match kind {
            Kind::Challenge => 0,
            Kind::Response => 1,
            Kind::SuccessRequest => 2,
            Kind::FailureRequest => 3,
            Kind::RetryRequest => 4,
            Kind::SuccessResponse => 5,
            Kind::FailureResponse => 6,
            Kind::EapSuccess => 7,
            Kind::EapFailure => 8,
        }
    }
}

// Where a part of a packet lies.
#[derive(Clone, Copy)]
pub struct Place {
    pub start: usize,
    pub len: usize,
}

impl Place {
    // The octets of a packet at this place, or as many as there are.
    pub fn of(self, p: &[u8]) -> &[u8]
        ensures { result.now ≡ at p.now self }
    {
        octets::part(p, self.start, self.len)
    }
}

// What a packet says. A number that its kind does not have is 0, and so are start and length of such a place. One struct for all kinds:
// C has it so, in 25 octets, and `Tells` and `Learned` speak of the three places of any kind.
#[derive(Clone, Copy)]
pub struct Packet {
    pub kind: Kind,
    pub id: Identifier,
    pub chapid: ChapId,
    // L
    pub length: usize,
    // the number of E= in a Failure Request
    pub error: u64,
    // the challenge; a Response's peer challenge; the 32 digits of a Failure Request's C
    pub challenge: Place,
    // a Response's NT-Response; a Success Request's 40 digits
    pub response: Place,
    // the name, or the text after M=; it is empty and starts at L, 51, where a Success message ends with its digits
    pub tail: Place,
}

// L of any packet of EAP, or 10 to 12.
#[tactic(auto, using(crate::proofs::Frames::frames))]
pub fn frame(p: &[u8]) -> Result<usize, Refusal>
    ensures { told_frame result ≡ frame_of p.now }
{
    if p.len() < 4 {
        return Err(Refusal::Short);
    }
    let l = octets::number_at(Order::Big, p, 2);
    if l < 4 || p.len() < l {
        return Err(Refusal::BadLength);
    }
    if answer::MAX_PACKET < l {
        return Err(Refusal::TooLong);
    }
    Ok(l)
}

// Nothing where a test holds, and else why not.
pub fn ensure<E: Copy>(holds: bool, why: E) -> Result<(), E>
    ensures { MatchResult result (λ _. holds ≡ true) (λ e. (holds ≡ false) × (e ≡ why)) }
{
    if holds { Ok(()) } else { Err(why) }
}

// Number 16: L is under 9, or MS-Length is not L - 5.
fn ms_length(q: &[u8]) -> Result<(), Refusal>
    ensures { RefusedIf (ltb (length q.now) 9 || not (eqb (number_at order.Big q.now 7) (length q.now - 5))) BadMsLength result }
{
    if q.len() < 9 || octets::number_at(Order::Big, q, 7) != q.len() - 5 {
        return Err(Refusal::BadMsLength);
    }
    Ok(())
}

// Number 17: the rest breaks its form.
fn form(holds: bool) -> Result<(), Refusal>
    ensures { RefusedIf (not holds) BadForm result }
{
    ensure(holds, Refusal::BadForm)
}

// A packet with an MS-CHAPv2-ID, whose name or text goes from tail to L. All fields are written here and in read_bare: of a packet made from
// another the compiler copies both.
fn chap_packet(kind: Kind, q: &[u8], tail: usize) -> Packet
    ensures { result ≡ reading kind (get_or q.now 1 0) (get_or q.now 6 0) (length q.now) 0 nowhere nowhere (place tail (length (drop tail q.now))) }
{
    Packet {
        kind,
        id: Identifier(octets::octet(q, 1)),
        chapid: ChapId(octets::octet(q, 6)),
        length: q.len(),
        error: 0,
        challenge: NOWHERE,
        response: NOWHERE,
        tail: Place {
            start: tail,
            len: octets::rest(q, tail).len(),
        },
    }
}

#[tactic(auto, using(octets::proofs::Exits::wide), unfolding(crate::specs::Reader::challenge_formed))]
fn challenge_formed(q: &[u8]) -> bool
    ensures { result ≡ challenge_formed q.now }
{
    CHALLENGE_NAME_AT < q.len() && octets::octet_is(q, 9, 16)
}

#[tactic(auto, using(crate::proofs::Steps::rows), unfolding(crate::specs::Reader::read_challenge))]
fn read_challenge(q: &[u8]) -> Result<Packet, Refusal>
    ensures { told_reading result ≡ read_challenge q.now }
{
    ms_length(q)?;
    form(challenge_formed(q))?;
    Ok(Packet {
        challenge: CHALLENGE,
        ..chap_packet(Kind::Challenge, q, CHALLENGE_NAME_AT)
    })
}

#[tactic(auto, using(octets::proofs::Exits::exits), unfolding(crate::specs::Reader::response_formed))]
fn response_form(q: &[u8]) -> Result<(), Refusal>
    ensures { RefusedIf (not (response_formed q.now)) BadForm result }
{
    form((RESPONSE_NAME_AT..=MAX_RESPONSE).contains(&q.len()))?;
    form(octets::octet_is(q, 9, 49))?;
    form(octets::stands_at(q, 26, &[0; 8]))?;
    form(octets::octet_is(q, 58, 0))
}

#[tactic(auto, using(crate::proofs::Steps::rows), unfolding(crate::specs::Reader::read_response))]
fn read_response(q: &[u8]) -> Result<Packet, Refusal>
    ensures { told_reading result ≡ read_response q.now }
{
    ms_length(q)?;
    response_form(q)?;
    Ok(Packet {
        challenge: CHALLENGE,
        response: NT_RESPONSE,
        ..chap_packet(Kind::Response, q, RESPONSE_NAME_AT)
    })
}

#[tactic(auto, using(octets::proofs::Exits::wide), unfolding(crate::specs::Reader::success_formed))]
fn success_formed(q: &[u8]) -> bool
    ensures { result ≡ success_formed q.now }
{
    octets::stands_at(q, 9, b"S=")
        && octets::hex_stands(false, q, 11, 40)
        && (q.len() == SUCCESS_TAIL_AT || octets::stands_at(q, SUCCESS_TAIL_AT, b" M="))
}

// Where the text starts: at L where there is no tail.
#[tactic(auto, using(octets::proofs::Exits::wide), unfolding(crate::specs::Reader::text_at))]
fn text_at(q: &[u8]) -> usize
    ensures { result ≡ text_at q.now }
{
    if q.len() == SUCCESS_TAIL_AT {
        SUCCESS_TAIL_AT
    } else {
        SUCCESS_TEXT_AT
    }
}

#[tactic(auto, using(crate::proofs::Steps::rows), unfolding(crate::specs::Reader::read_success))]
fn read_success(q: &[u8]) -> Result<Packet, Refusal>
    ensures { told_reading result ≡ read_success q.now }
{
    ms_length(q)?;
    form(success_formed(q))?;
    Ok(Packet {
        response: STRING,
        ..chap_packet(Kind::SuccessRequest, q, text_at(q))
    })
}

// Whether n is 1 to 10.
pub fn few_digits(n: usize) -> bool
    ensures { result ≡ (leb 1 n && leb n 10) }
{
    (1..=10).contains(&n)
}

// Whether the digit 0 or 1 stands at i.
pub fn is_bit(q: &[u8], i: usize) -> bool
    ensures { result ≡ (octet_is q.now i 48 || octet_is q.now i 49) }
{
    octets::octet_is(q, i, b'0') || octets::octet_is(q, i, b'1')
}

// The kind of a Failure Request, by the digit of R at i.
#[tactic(auto, using(crate::proofs::Steps::retry_so, crate::proofs::Steps::no_retry))]
fn failure_kind(q: &[u8], i: usize) -> Kind
    ensures { result ≡ failure_of (get_or q.now i 0 - 48) }
{
    if octets::octet_is(q, i, b'1') {
        Kind::RetryRequest
    } else {
        Kind::FailureRequest
    }
}

// How many digits stand at i.
pub fn digits_at(q: &[u8], i: usize) -> usize
    ensures { result ≡ digits (drop i q.now) }
{
    octets::digits_of(octets::rest(q, i))
}

// The number of the n digits at i.
fn decimal_at(q: &[u8], i: usize, n: usize) -> u64
    ensures { result ≡ number (part q.now i n) }
{
    octets::number_of(octets::part(q, i, n))
}

// Whether the n digits at i are 1 to 10, and their number is 3.
pub fn is_version(q: &[u8], i: usize, n: usize) -> bool
    ensures { result ≡ ((leb 1 n && leb n 10) && eqb (number (part q.now i n)) 3) }
{
    few_digits(n) && decimal_at(q, i, n) == 3
}

// How many digits E and V of a Failure Request have.
#[derive(Clone, Copy)]
struct Digits {
    e: usize,
    v: usize,
}

#[tactic(auto, using(crate::proofs::Steps::forms), unfolding(crate::specs::Reader::failure_formed))]
fn failure_digits(q: &[u8]) -> Result<Digits, Refusal>
    ensures { MatchResult result (λ n. FailureFormed q.now n.e n.v) (λ why. FailureUnlike q.now × (why ≡ BadForm)) }
{
    form(octets::stands_at(q, 9, b"E="))?;
    let e = digits_at(q, 11);
    form(few_digits(e))?;
    form(octets::stands_at(q, 11 + e, b" R="))?;
    form(is_bit(q, 14 + e))?;
    form(octets::stands_at(q, 15 + e, b" C="))?;
    form(octets::hex_stands(true, q, 18 + e, 32))?;
    form(octets::stands_at(q, 50 + e, b" V="))?;
    let v = digits_at(q, 53 + e);
    form(is_version(q, 53 + e, v))?;
    form(octets::stands_at(q, 53 + e + v, b" M="))?;
    Ok(Digits { e, v })
}

#[tactic(auto, using(crate::proofs::Steps::rows))]
fn read_failure(q: &[u8]) -> Result<Packet, Refusal>
    ensures { told_reading result ≡ read_failure q.now }
{
    ms_length(q)?;
    let Digits { e, v } = failure_digits(q)?;
    Ok(Packet {
        error: decimal_at(q, 11, e),
        challenge: Place {
            start: 18 + e,
            len: 32,
        },
        ..chap_packet(failure_kind(q, 14 + e), q, 56 + e + v)
    })
}

// A packet of l octets with nothing after its OpCode, or with no OpCode.
#[tactic(auto, using(crate::proofs::Steps::rows), unfolding(crate::specs::Reader::read_bare))]
fn read_bare(kind: Kind, l: usize, q: &[u8]) -> Result<Packet, Refusal>
    ensures { told_reading result ≡ read_bare kind l q.now }
{
    form(q.len() == l)?;
    Ok(Packet {
        kind,
        id: Identifier(octets::octet(q, 1)),
        chapid: ChapId(0),
        length: q.len(),
        error: 0,
        challenge: NOWHERE,
        response: NOWHERE,
        tail: NOWHERE,
    })
}

// The OpCode, of Type 26.
fn op_code(q: &[u8]) -> Result<u8, Refusal>
    ensures { MatchResult result (λ op. (octet_is q.now 4 26 ≡ true) × (op ≡ get_or q.now 5 0)) (λ why. (octet_is q.now 4 26 ≡ false) × (why ≡ BadType)) }
{
    ensure(octets::octet_is(q, 4, 26), Refusal::BadType)?;
    Ok(octets::octet(q, 5))
}

// Code 1.
#[tactic(auto, using(octets::proofs::Exits::wide))]
fn read_request(op: u8, q: &[u8]) -> Result<Packet, Refusal>
    ensures { told_reading result ≡ request op q.now }
{
    match op {
        1 => read_challenge(q),
        3 => read_success(q),
        4 => read_failure(q),
        _ => Err(Refusal::BadOpCode),
    }
}

// Code 2.
#[tactic(auto, using(octets::proofs::Exits::wide))]
fn read_reply(op: u8, q: &[u8]) -> Result<Packet, Refusal>
    ensures { told_reading result ≡ reply op q.now }
{
    match op {
        2 => read_response(q),
        3 => read_bare(Kind::SuccessResponse, 6, q),
        4 => read_bare(Kind::FailureResponse, 6, q),
        _ => Err(Refusal::BadOpCode),
    }
}

// A packet cut at L. A Type or an OpCode that is not there counts as 0, which no packet has.
#[tactic(auto, using(crate::proofs::Steps::cuts))]
fn read_cut(end: End, q: &[u8]) -> Result<Packet, Refusal>
    ensures { told_reading result ≡ read_cut end q.now }
{
    match (end, octets::octet(q, 0)) {
        (End::Peer, 1) => read_request(op_code(q)?, q),
        (End::Peer, 3) => read_bare(Kind::EapSuccess, 4, q),
        (End::Peer, 4) => read_bare(Kind::EapFailure, 4, q),
        (End::Server, 2) => read_reply(op_code(q)?, q),
        _ => Err(Refusal::BadCode),
    }
}

// Reads a packet for an end. Octets after L are not looked at.
#[tactic(auto, using(crate::proofs::Steps::reads))]
pub fn read(end: End, p: &[u8]) -> Result<Packet, Refusal>
    ensures { told_reading result ≡ read_packet end p.now }
{
    let l = frame(p)?;
    read_cut(end, octets::part(p, 0, l))
}

fn has_text(kind: Kind) -> bool
    ensures { result ≡ has_text kind }
{
    matches!(
        kind,
        Kind::SuccessRequest | Kind::FailureRequest | Kind::RetryRequest
    )
}

// Where the text after M= lies in a packet: in a Success or Failure Request from its start to L; in others nowhere, at 0. Not an Option: C
// is told 0 and 0, and the definition says so.
#[tactic(auto, using(octets::proofs::Exits::exits, octets::proofs::Exits::gave), unfolding(crate::specs::Texts::text_in))]
pub fn text_in(k: Packet) -> Place
    ensures { result ≡ text_in k }
{
    if has_text(k.kind) { k.tail } else { NOWHERE }
}

// The same of a reading; at 0 where it is refused.
#[tactic(auto, using(crate::proofs::Texts::text_refused, crate::proofs::Texts::text_read))]
pub fn text_told(x: Result<Packet, Refusal>) -> Place
    ensures { result ≡ text_told (told_reading x) }
{
    match x {
        Err(_) => NOWHERE,
        Ok(k) => text_in(k),
    }
}

// The text after M=, the part of the packet that goes on to L; no octets where a packet has none or cannot be read.
#[tactic(auto, unfolding(crate::specs::Texts::text_part, crate::specs::Texts::text_place))]
pub fn text(end: End, p: &[u8]) -> &[u8]
    ensures { result.now ≡ text_part end p.now }
{
    text_told(read(end, p)).of(p)
}

// The sixteen octets of the 32 hex digits from a place on: the challenge of a Failure Request.
pub fn hex_sixteen_at(p: &[u8], at: usize) -> [u8; 16]
    ensures { result ≡ cells 16 (unhex_at (part p.now at 32)) }
{
    octets::from_hex(octets::part(p, at, 32))
}
