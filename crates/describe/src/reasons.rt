// Why a packet is refused, by what `faults` finds wrong.
use crate::screen::Screen;
use faults::{ChallengeFault, FailureFault, Fault, ResponseFault, SuccessFault};
use octets::Order;
use std::fmt;
use std::fmt::Write;

// ---- 10 to 12. p is what was lent

fn there(out: &mut Screen, n: usize) -> fmt::Result {
    if n == 1 {
        write!(out, "1 octet is there")
    } else {
        write!(out, "{n} octets are there")
    }
}

fn over_lent(out: &mut Screen, l: usize, p: &[u8]) -> fmt::Result {
    write!(out, "L is {l}, and ")?;
    there(out, p.len())
}

// ---- 13 to 16. q is the packet, cut at L

fn code(out: &mut Screen, q: &[u8]) -> fmt::Result {
    let code = octets::octet(q, 0);
    let end = match code {
        1 | 3 | 4 => "the peer",
        2 => "the server",
        _ => "neither end",
    };
    write!(out, "Code {code} is for {end}")
}

fn op_code(out: &mut Screen, q: &[u8]) -> fmt::Result {
    let least = if octets::octet_is(q, 0, 1) { 1 } else { 2 };
    write!(
        out,
        "OpCode {} is none of {least}, 3 and 4",
        octets::octet(q, 5)
    )
}

fn ms_length(out: &mut Screen, q: &[u8]) -> fmt::Result {
    let m = octets::number_at(Order::Big, q, 7);
    write!(
        out,
        "MS-Length is {m}, and L - 5 is {}",
        octets::rest(q, 5).len()
    )
}

// ---- 17

fn outcome(success: bool) -> &'static str {
    if success { "Success" } else { "Failure" }
}

fn eap_length(out: &mut Screen, l: usize, q: &[u8]) -> fmt::Result {
    let kind = outcome(octets::octet_is(q, 0, 3));
    write!(out, "L of an EAP {kind} is {l}, not 4")
}

fn response_length(out: &mut Screen, l: usize, q: &[u8]) -> fmt::Result {
    let kind = outcome(octets::octet_is(q, 5, 3));
    write!(out, "L of a {kind} Response is {l}, not 6")
}

fn challenge(out: &mut Screen, fault: ChallengeFault, l: usize, q: &[u8]) -> fmt::Result {
    match fault {
        ChallengeFault::NoName => {
            write!(
                out,
                "the Challenge has no name: L is {l}, and a name begins at 26"
            )
        }
        ChallengeFault::ValueSize => {
            write!(
                out,
                "Value-Size of the Challenge is {}, not 16",
                octets::octet(q, 9)
            )
        }
    }
}

fn zeros(out: &mut Screen, q: &[u8]) -> fmt::Result {
    write!(out, "octets 26 to 33 of the Response are ")?;
    console::hex(octets::part(q, 26, 8));
    write!(out, ", not all zero")
}

fn response(out: &mut Screen, fault: ResponseFault, l: usize, q: &[u8]) -> fmt::Result {
    match fault {
        ResponseFault::TooShort => write!(out, "L of a Response is {l}, under 59"),
        ResponseFault::LongName => {
            let n = octets::rest(q, packet::RESPONSE_NAME_AT).len();
            write!(
                out,
                "the name of the Response has {n} octets, more than 256"
            )
        }
        ResponseFault::ValueSize => {
            write!(
                out,
                "Value-Size of the Response is {}, not 49",
                octets::octet(q, 9)
            )
        }
        ResponseFault::Zeros => zeros(out, q),
        ResponseFault::Flags => {
            write!(
                out,
                "flags of the Response are {}, not 0",
                octets::octet(q, 58)
            )
        }
    }
}

fn success(out: &mut Screen, fault: SuccessFault) -> fmt::Result {
    let what = match fault {
        SuccessFault::Start => "does not begin with \"S=\"",
        SuccessFault::Digits => "does not go on with 40 upper-case hex digits after \"S=\"",
        SuccessFault::Tail => "neither ends after its digits nor goes on with \" M=\"",
    };
    write!(out, "the Success message {what}")
}

fn error(out: &mut Screen, e: usize) -> fmt::Result {
    if e == 0 {
        write!(out, "has no digits after \"E=\"")
    } else {
        write!(out, "has {e} digits after \"E=\", more than 10")
    }
}

// R, after e digits of E.
fn retry(out: &mut Screen, q: &[u8], e: usize) -> fmt::Result {
    write!(out, "has R=")?;
    console::quoted(octets::part(octets::rest(q, 14), e, 1));
    write!(out, ", neither 0 nor 1")
}

// V, after e digits of E.
fn version(out: &mut Screen, q: &[u8], e: usize) -> fmt::Result {
    let s = octets::rest(octets::rest(q, 53), e);
    let n = octets::digits_of(s);
    if n == 0 {
        write!(out, "has no digits after \"V=\"")
    } else if 10 < n {
        write!(out, "has {n} digits after \"V=\", more than 10")
    } else {
        write!(
            out,
            "has V={}, not 3",
            octets::number_of(octets::part(s, 0, n))
        )
    }
}

fn failure(out: &mut Screen, fault: FailureFault, q: &[u8]) -> fmt::Result {
    let e = packet::digits_at(q, 11);
    write!(out, "the Failure message ")?;
    match fault {
        FailureFault::Start => write!(out, "does not begin with \"E=\""),
        FailureFault::Error => error(out, e),
        FailureFault::NoRetry => write!(out, "does not go on with \" R=\" after E"),
        FailureFault::Retry => retry(out, q, e),
        FailureFault::NoChallenge => write!(out, "does not go on with \" C=\" after R"),
        FailureFault::Challenge => { write!(out, "does not go on with 32 hex digits after \"C=\"") }
        FailureFault::NoVersion => write!(out, "does not go on with \" V=\" after C"),
        FailureFault::Version => version(out, q, e),
        FailureFault::NoText => write!(out, "does not go on with \" M=\" after V"),
    }
}

// ---- each of them

fn reason(out: &mut Screen, fault: Fault, p: &[u8]) -> fmt::Result {
    let l = octets::number_at(Order::Big, p, 2);
    let q = octets::part(p, 0, l);
    match fault {
        Fault::FewerThanFour => there(out, p.len()),
        Fault::LengthUnderFour | Fault::LengthOverMost | Fault::LengthUnderNine => {
            write!(out, "L is {l}")
        }
        Fault::LengthOverLent => over_lent(out, l, p),
        Fault::Code => code(out, q),
        Fault::NoType => write!(out, "L is {l}, and there is no Type octet"),
        Fault::OtherType => write!(out, "Type is {}, not 26", octets::octet(q, 4)),
        Fault::NoOpCode => write!(out, "L is {l}, and there is no OpCode"),
        Fault::OtherOpCode => op_code(out, q),
        Fault::MsLength => ms_length(out, q),
        Fault::EapLength => eap_length(out, l, q),
        Fault::ResponseLength => response_length(out, l, q),
        Fault::Challenge(form) => challenge(out, form, l, q),
        Fault::Response(form) => response(out, form, l, q),
        Fault::Success(form) => success(out, form),
        Fault::Failure(form) => failure(out, form, q),
    }
}

// In document 01's words. No Display for Fault: it would be public, and state nothing that an edit breaks.
fn meaning(fault: Fault) -> &'static str {
    match fault {
        Fault::FewerThanFour => "fewer than 4 octets lent",
        Fault::LengthUnderFour | Fault::LengthOverLent => "L under 4 or over the octets lent",
        Fault::LengthOverMost => "L over 1,020",
        Fault::Code => "Code not for this end",
        Fault::NoType | Fault::OtherType => "Code 1 or 2 and no Type octet, or Type not 26",
        Fault::NoOpCode | Fault::OtherOpCode => "no OpCode, or not one of the table for that Code",
        Fault::LengthUnderNine | Fault::MsLength => "L under 9, or MS-Length not L - 5",
        Fault::EapLength
        | Fault::ResponseLength
        | Fault::Challenge(_)
        | Fault::Response(_)
        | Fault::Success(_)
        | Fault::Failure(_) => "the rest breaks its form",
    }
}

pub(crate) fn refused(out: &mut Screen, fault: Fault, p: &[u8]) -> fmt::Result {
    let number = u16::from(fault) / 100;
    write!(out, "refused with {number}, {}: ", meaning(fault))?;
    reason(out, fault, p)?;
    writeln!(out)
}
