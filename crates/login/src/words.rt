// Answers and stages in words. No Display: answer, peer and server are linked from C, and print nothing.
use answer::{Done, Refusal, Reply};

pub(crate) fn answer(answer: Result<Reply, Refusal>) {
    console::say(b"answer ");
    console::number(u64::from(answer::number(answer.map(|reply| reply.done))));
    console::say(b" (");
    console::say(answer.map_or(b"refused".as_slice(), |reply| done(reply.done)));
    console::say(b")");
}

fn done(done: Done) -> &'static [u8] {
    match done {
        Done::Written => b"packet written",
        Done::NeedsCredentials => b"credentials needed",
        Done::Authenticated => b"authenticated",
        Done::Ended => b"ended",
    }
}

pub(crate) fn peer_stage(stage: peer::Stage) -> &'static [u8] {
    match stage {
        peer::Stage::Begin => b"BEGIN",
        peer::Stage::ChallengeResponseSent => b"CHALLENGE_RESPONSE_SENT",
        peer::Stage::SuccessResponseSent => b"SUCCESS_RESPONSE_SENT",
        peer::Stage::FailureResponseSent => b"FAILURE_RESPONSE_SENT",
        peer::Stage::Waiting => b"WAITING",
        peer::Stage::Success => b"SUCCESS",
        peer::Stage::Failed => b"FAILED",
    }
}

pub(crate) fn server_stage(stage: server::Stage) -> &'static [u8] {
    match stage {
        server::Stage::Begin => b"BEGIN",
        server::Stage::ChallengeSent => b"CHALLENGE_SENT",
        server::Stage::SuccessRequestSent => b"SUCCESS_REQUEST_SENT",
        server::Stage::FailureRequestSent => b"FAILURE_REQUEST_SENT",
        server::Stage::Success => b"SUCCESS",
        server::Stage::Failed => b"FAILED",
    }
}
