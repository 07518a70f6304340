// A packet that was read: its name, its numbers, its fields in words.
use crate::screen::Screen;
use packet::{Kind, Packet};
use std::fmt;
use std::fmt::Write;

// By what is printed: `packet` says what a Kind is, and its Display would go into the archive for C, which prints nothing.
fn name(kind: Kind) -> &'static str {
    match kind {
        Kind::Challenge => "Challenge",
        Kind::Response => "Response",
        Kind::SuccessRequest => "Success Request",
        Kind::FailureRequest | Kind::RetryRequest => "Failure Request",
        Kind::SuccessResponse => "Success Response",
        Kind::FailureResponse => "Failure Response",
        Kind::EapSuccess => "EAP Success",
        Kind::EapFailure => "EAP Failure",
    }
}

// ---- a line for each field, by three functions and no closure: each is a label and one call

fn plain(label: &[u8], octets: &[u8]) {
    console::say(label);
    console::say(octets);
    console::say(b"\n");
}

fn hex(label: &[u8], octets: &[u8]) {
    console::say(label);
    console::hex(octets);
    console::say(b"\n");
}

fn quoted(label: &[u8], octets: &[u8]) {
    console::say(label);
    console::quoted(octets);
    console::say(b"\n");
}

fn challenge(k: Packet, p: &[u8]) {
    hex(b"    challenge       ", k.challenge.of(p));
    quoted(b"    name            ", k.tail.of(p));
}

fn response(k: Packet, p: &[u8]) {
    hex(b"    peer challenge  ", k.challenge.of(p));
    hex(b"    NT-Response     ", k.response.of(p));
    quoted(b"    name            ", k.tail.of(p));
}

// A Success message may end with its digits.
fn success(k: Packet, p: &[u8]) {
    plain(b"    authenticator   S=", k.response.of(p));
    if k.tail.start == packet::SUCCESS_TAIL_AT {
        console::say(b"    text            none\n");
    } else {
        quoted(b"    text            M=", k.tail.of(p));
    }
}

fn failure(retry: &[u8], k: Packet, p: &[u8]) {
    console::say(b"    error           E=");
    console::number(k.error);
    console::say(b", ");
    console::code(k.error);
    plain(b"\n    retry           ", retry);
    plain(b"    new challenge   C=", k.challenge.of(p));
    quoted(b"    text            M=", k.tail.of(p));
}

fn fields(k: Packet, p: &[u8]) {
    match k.kind {
        Kind::Challenge => challenge(k, p),
        Kind::Response => response(k, p),
        Kind::SuccessRequest => success(k, p),
        Kind::FailureRequest => failure(b"R=0, not allowed", k, p),
        Kind::RetryRequest => failure(b"R=1, allowed", k, p),
        Kind::SuccessResponse | Kind::FailureResponse | Kind::EapSuccess | Kind::EapFailure => {}
    }
}

fn has_chap_id(kind: Kind) -> bool {
    matches!(
        kind,
        Kind::Challenge
            | Kind::Response
            | Kind::SuccessRequest
            | Kind::FailureRequest
            | Kind::RetryRequest
    )
}

pub(crate) fn packet(out: &mut Screen, k: Packet, p: &[u8]) -> fmt::Result {
    write!(out, "{}, Identifier {}", name(k.kind), k.id.0)?;
    if has_chap_id(k.kind) {
        write!(out, ", MS-CHAPv2-ID {}", k.chapid.0)?;
    }
    writeln!(out, ", {} octets", k.length)?;
    fields(k, p);
    Ok(())
}
