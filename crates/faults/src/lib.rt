// What is wrong with a packet: the first condition of document 01, "What a call answers", that it breaks, in detail. By tests of its own and
// not the reader's: the reader stays as fast as it is, and `FaultsExact` ties the two.
#![tactic(auto)]

ghost use Rattle.std.specs.Prelude.{◌≡◌, ℕ, MatchResult};
ghost use Rattle.packet.specs.Frame.{with_type};
ghost use Rattle.packet.specs.Reader.{code_for};
ghost use Rattle.faults.specs.Numbers.{challenge_number, response_number, success_number, failure_number, fault_number, found};
ghost use Rattle.faults.specs.Faults.{challenge_fault, response_fault, success_fault, failure_fault, bare_fault, chap_fault, request_fault, reply_fault, typed_fault, code_fault, fault_of};

use octets::Order;
use packet::{End, ensure};

// Of a Challenge.
#[derive(Clone, Copy, PartialEq, Eq)]
pub enum ChallengeFault {
    NoName,
    ValueSize,
}

// Of a Response.
#[derive(Clone, Copy, PartialEq, Eq)]
pub enum ResponseFault {
    TooShort,
    LongName,
    ValueSize,
    Zeros,
    Flags,
}

// Of a Success message: no `S=`, not 40 digits, and neither an end nor ` M=` after them.
#[derive(Clone, Copy, PartialEq, Eq)]
pub enum SuccessFault {
    Start,
    Digits,
    Tail,
}

// Of a Failure message: the six words, and what stands after the first four.
#[derive(Clone, Copy, PartialEq, Eq)]
pub enum FailureFault {
    Start,
    Error,
    NoRetry,
    Retry,
    NoChallenge,
    Challenge,
    NoVersion,
    Version,
    NoText,
}

// In the order of the numbers of document 01.
#[derive(Clone, Copy, PartialEq, Eq)]
pub enum Fault {
    FewerThanFour,
    LengthUnderFour,
    LengthOverLent,
    LengthOverMost,
    Code,
    NoType,
    OtherType,
    NoOpCode,
    OtherOpCode,
    LengthUnderNine,
    MsLength,
    EapLength,
    ResponseLength,
    Challenge(ChallengeFault),
    Response(ResponseFault),
    Success(SuccessFault),
    Failure(FailureFault),
}

impl From<ChallengeFault> for u16 {
    ghost from_gives = { λ fault n. n ≡ challenge_number fault };

    fn from(fault: ChallengeFault) -> u16 {
        match fault {
            ChallengeFault::NoName => 1710,
            ChallengeFault::ValueSize => 1711,
        }
    }
}

impl From<ResponseFault> for u16 {
    ghost from_gives = { λ fault n. n ≡ response_number fault };

    fn from(fault: ResponseFault) -> u16 {
        match fault {
            ResponseFault::TooShort => 1720,
            ResponseFault::LongName => 1721,
            ResponseFault::ValueSize => 1722,
            ResponseFault::Zeros => 1723,
            ResponseFault::Flags => 1724,
        }
    }
}

impl From<SuccessFault> for u16 {
    ghost from_gives = { λ fault n. n ≡ success_number fault };

    fn from(fault: SuccessFault) -> u16 {
        match fault {
            SuccessFault::Start => 1730,
            SuccessFault::Digits => 1731,
            SuccessFault::Tail => 1732,
        }
    }
}

impl From<FailureFault> for u16 {
    ghost from_gives = { λ fault n. n ≡ failure_number fault };

    fn from(fault: FailureFault) -> u16 {
        match fault {
            FailureFault::Start => 1740,
            FailureFault::Error => 1741,
            FailureFault::NoRetry => 1742,
            FailureFault::Retry => 1743,
            FailureFault::NoChallenge => 1744,
            FailureFault::Challenge => 1745,
            FailureFault::NoVersion => 1746,
            FailureFault::Version => 1747,
            FailureFault::NoText => 1748,
        }
    }
}

// 100 times the refusal's number, and two digits for the part of its condition.
impl From<Fault> for u16 {
    ghost from_gives = { λ fault n. n ≡ fault_number fault };

    fn from(fault: Fault) -> u16 {
        match fault {
            Fault::FewerThanFour => 1000,
            Fault::LengthUnderFour => 1100,
            Fault::LengthOverLent => 1101,
            Fault::LengthOverMost => 1200,
            Fault::Code => 1300,
            Fault::NoType => 1400,
            Fault::OtherType => 1401,
            Fault::NoOpCode => 1500,
            Fault::OtherOpCode => 1501,
            Fault::LengthUnderNine => 1600,
            Fault::MsLength => 1601,
            Fault::EapLength => 1700,
            Fault::ResponseLength => 1701,
            Fault::Challenge(form) => u16::from(form),
            Fault::Response(form) => u16::from(form),
            Fault::Success(form) => u16::from(form),
            Fault::Failure(form) => u16::from(form),
        }
    }
}

// ---- 17. q is a packet, cut at L

#[tactic(auto, using(crate::proofs::Checks::checks), unfolding(crate::specs::Faults::challenge_fault))]
fn challenge(q: &[u8]) -> Result<(), ChallengeFault>
    ensures { found challenge_number result ≡ challenge_fault q.now }
{
    ensure(packet::CHALLENGE_NAME_AT < q.len(), ChallengeFault::NoName)?;
    ensure(octets::octet_is(q, 9, 16), ChallengeFault::ValueSize)
}

#[tactic(auto, using(crate::proofs::Checks::checks), unfolding(crate::specs::Faults::response_fault))]
fn response(q: &[u8]) -> Result<(), ResponseFault>
    ensures { found response_number result ≡ response_fault q.now }
{
    ensure(packet::RESPONSE_NAME_AT <= q.len(), ResponseFault::TooShort)?;
    ensure(q.len() <= packet::MAX_RESPONSE, ResponseFault::LongName)?;
    ensure(octets::octet_is(q, 9, 49), ResponseFault::ValueSize)?;
    ensure(octets::stands_at(q, 26, &[0; 8]), ResponseFault::Zeros)?;
    ensure(octets::octet_is(q, 58, 0), ResponseFault::Flags)
}

#[tactic(auto, using(crate::proofs::Checks::checks), unfolding(crate::specs::Faults::success_fault))]
fn success(q: &[u8]) -> Result<(), SuccessFault>
    ensures { found success_number result ≡ success_fault q.now }
{
    ensure(octets::stands_at(q, 9, b"S="), SuccessFault::Start)?;
    ensure(octets::hex_stands(false, q, 11, 40), SuccessFault::Digits)?;
    ensure(
        q.len() == packet::SUCCESS_TAIL_AT || octets::stands_at(q, packet::SUCCESS_TAIL_AT, b" M="),
        SuccessFault::Tail,
    )
}

#[tactic(auto, using(crate::proofs::Checks::checks), unfolding(crate::specs::Faults::failure_fault, crate::specs::Faults::message_fault, crate::specs::Faults::rest_fault))]
fn failure(q: &[u8]) -> Result<(), FailureFault>
    ensures { found failure_number result ≡ failure_fault q.now }
{
    ensure(octets::stands_at(q, 9, b"E="), FailureFault::Start)?;
    let e = packet::digits_at(q, 11);
    ensure(packet::few_digits(e), FailureFault::Error)?;
    ensure(octets::stands_at(q, 11 + e, b" R="), FailureFault::NoRetry)?;
    ensure(packet::is_bit(q, 14 + e), FailureFault::Retry)?;
    ensure(
        octets::stands_at(q, 15 + e, b" C="),
        FailureFault::NoChallenge,
    )?;
    ensure(
        octets::hex_stands(true, q, 18 + e, 32),
        FailureFault::Challenge,
    )?;
    ensure(
        octets::stands_at(q, 50 + e, b" V="),
        FailureFault::NoVersion,
    )?;
    let v = packet::digits_at(q, 53 + e);
    ensure(packet::is_version(q, 53 + e, v), FailureFault::Version)?;
    ensure(
        octets::stands_at(q, 53 + e + v, b" M="),
        FailureFault::NoText,
    )
}

// ---- 16

// MS-Length is L - 5.
#[tactic(auto, using(crate::proofs::Checks::checks), unfolding(crate::specs::Faults::chap_fault))]
fn ms_length(q: &[u8]) -> Result<(), Fault>
    ensures { (form : ℕ) → MatchResult result (λ _. chap_fault q.now form ≡ form) (λ why. chap_fault q.now form ≡ fault_number why) }
{
    ensure(9 <= q.len(), Fault::LengthUnderNine)?;
    ensure(
        octets::number_at(Order::Big, q, 7) == q.len() - 5,
        Fault::MsLength,
    )
}

// ---- 13 to 15

// A packet with nothing after its OpCode, or with no OpCode, is of l octets.
#[tactic(auto, using(crate::proofs::Checks::checks), unfolding(crate::specs::Faults::bare_fault))]
fn bare(q: &[u8], l: usize, fault: Fault) -> Result<(), Fault>
    ensures { found fault_number result ≡ bare_fault q.now l (fault_number fault) }
{
    ensure(q.len() == l, fault)
}

#[tactic(auto, using(crate::proofs::Checks::checks), unfolding(crate::specs::Faults::request_fault))]
fn request(op: u8, q: &[u8]) -> Result<(), Fault>
    ensures { found fault_number result ≡ request_fault op q.now }
{
    match op {
        1 => {
            ms_length(q)?;
            challenge(q).map_err(Fault::Challenge)
        }
        3 => {
            ms_length(q)?;
            success(q).map_err(Fault::Success)
        }
        4 => {
            ms_length(q)?;
            failure(q).map_err(Fault::Failure)
        }
        _ => Err(Fault::OtherOpCode),
    }
}

#[tactic(auto, using(crate::proofs::Checks::checks), unfolding(crate::specs::Faults::reply_fault))]
fn reply(op: u8, q: &[u8]) -> Result<(), Fault>
    ensures { found fault_number result ≡ reply_fault op q.now }
{
    match op {
        2 => {
            ms_length(q)?;
            response(q).map_err(Fault::Response)
        }
        3 | 4 => bare(q, 6, Fault::ResponseLength),
        _ => Err(Fault::OtherOpCode),
    }
}

// A packet with Code 1 or 2.
#[tactic(auto, using(crate::proofs::Checks::checks), unfolding(crate::specs::Faults::typed_fault))]
fn typed(code: u8, q: &[u8]) -> Result<(), Fault>
    ensures { found fault_number result ≡ typed_fault code q.now }
{
    ensure(5 <= q.len(), Fault::NoType)?;
    ensure(octets::octet_is(q, 4, 26), Fault::OtherType)?;
    ensure(6 <= q.len(), Fault::NoOpCode)?;
    let op = octets::octet(q, 5);
    if code == 1 {
        request(op, q)
    } else {
        reply(op, q)
    }
}

// Whether a packet with this Code is for this end.
fn code_for(end: End, code: u8) -> bool
    ensures { result ≡ code_for end code }
{
    match end {
        End::Peer => matches!(code, 1 | 3 | 4),
        End::Server => code == 2,
    }
}

// Whether a packet with this Code has a Type.
fn with_type(code: u8) -> bool
    ensures { result ≡ with_type code }
{
    matches!(code, 1 | 2)
}

// A packet cut at L.
#[tactic(auto, using(crate::proofs::Checks::checks), unfolding(crate::specs::Faults::code_fault))]
fn cut(end: End, code: u8, q: &[u8]) -> Result<(), Fault>
    ensures { found fault_number result ≡ code_fault end code q.now }
{
    ensure(code_for(end, code), Fault::Code)?;
    if with_type(code) {
        typed(code, q)
    } else {
        bare(q, 4, Fault::EapLength)
    }
}

// What is wrong with a packet for an end, and nothing where it is read. Octets after L are not looked at.
#[tactic(auto, using(crate::proofs::Checks::checks), unfolding(crate::specs::Faults::fault_of))]
pub fn fault_of(end: End, p: &[u8]) -> Result<(), Fault>
    ensures { found fault_number result ≡ fault_of end p.now }
{
    ensure(4 <= p.len(), Fault::FewerThanFour)?;
    let l = octets::number_at(Order::Big, p, 2);
    ensure(4 <= l, Fault::LengthUnderFour)?;
    ensure(l <= p.len(), Fault::LengthOverLent)?;
    ensure(l <= answer::MAX_PACKET, Fault::LengthOverMost)?;
    let q = octets::part(p, 0, l);
    cut(end, octets::octet(q, 0), q)
}
