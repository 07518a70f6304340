// What a call answers, with the numbers of document 01, and the two kinds of identifier.
#![tactic(auto)]

ghost use Rattle.std.specs.Prelude.{◌≡◌};
ghost use Rattle.answer.specs.Answer.{refusal_of, done_of, number_of};

// The most octets of a packet and of a name.
pub const MAX_PACKET: usize = 1020;

pub const MAX_NAME: usize = 256;

// The refusals, in the order of their numbers, 10 to 23.
#[derive(Clone, Copy, PartialEq, Eq)]
pub enum Refusal {
    Short,
    BadLength,
    TooLong,
    BadCode,
    BadType,
    BadOpCode,
    BadMsLength,
    BadForm,
    WrongIdentifier,
    NotTaken,
    NoRoom,
    BadTable,
    SameChallenge,
    BadArgument,
}

// What a call did that was not refused: 0 to 3.
#[derive(Clone, Copy, PartialEq, Eq)]
pub enum Done {
    Written,
    NeedsCredentials,
    Authenticated,
    Ended,
}

// What a call did, and how many octets of a reply it wrote.
#[derive(Clone, Copy, PartialEq, Eq)]
pub struct Reply {
    pub done: Done,
    pub n: usize,
}

// The Identifier of an EAP packet.
#[derive(Clone, Copy, PartialEq, Eq)]
pub struct Identifier(pub u8);

// The MS-CHAPv2-ID, a number of another kind.
#[derive(Clone, Copy, PartialEq, Eq)]
pub struct ChapId(pub u8);

impl From<Refusal> for u8 {
    ghost from_gives = { λ why n. n ≡ refusal_of why };

    fn from(why: Refusal) -> u8 {
        match why {
            Refusal::Short => 10,
            Refusal::BadLength => 11,
            Refusal::TooLong => 12,
            Refusal::BadCode => 13,
            Refusal::BadType => 14,
            Refusal::BadOpCode => 15,
            Refusal::BadMsLength => 16,
            Refusal::BadForm => 17,
            Refusal::WrongIdentifier => 18,
            Refusal::NotTaken => 19,
            Refusal::NoRoom => 20,
            Refusal::BadTable => 21,
            Refusal::SameChallenge => 22,
            Refusal::BadArgument => 23,
        }
    }
}

impl From<Done> for u8 {
    ghost from_gives = { λ done n. n ≡ done_of done };

    fn from(done: Done) -> u8 {
        match done {
            Done::Written => 0,
            Done::NeedsCredentials => 1,
            Done::Authenticated => 2,
            Done::Ended => 3,
        }
    }
}

// The number of an answer: of what was done, or of the refusal.
pub fn number(answer: Result<Done, Refusal>) -> u8
    ensures { result ≡ number_of answer }
{
    match answer {
        Ok(done) => u8::from(done),
        Err(why) => u8::from(why),
    }
}
