// Packets and refusals in words, on the screen.
#![tactic(auto)]

ghost use Rattle.std.specs.Prelude.{◌≡◌};

use crate::screen::Screen;
use octets::Order;
use packet::End;
use std::fmt;
use std::fmt::Write;

mod fields;
mod reasons;
mod screen;

// Octets after L.
fn padding(out: &mut Screen, p: &[u8]) -> fmt::Result {
    let l = octets::number_at(Order::Big, p, 2);
    let n = octets::rest(p, l).len();
    if p.len() < 4 || l < 4 || n == 0 {
        return Ok(());
    }
    let s = if n == 1 { "" } else { "s" };
    writeln!(out, "    padding         {n} octet{s} after L, ignored")
}

fn show(out: &mut Screen, end: End, p: &[u8]) -> fmt::Result {
    match packet::read(end, p) {
        Ok(k) => fields::packet(out, k, p)?,
        Err(_) => {
            if let Err(fault) = faults::fault_of(end, p) {
                reasons::refused(out, fault, p)?;
            }
        }
    }
    padding(out, p)
}

// What a packet reads as for an end: its name and numbers and a line for each field, or why it is refused.
pub fn reading(end: End, p: &[u8])
    ensures { p.now ≡ p.now }
{
    // the screen tells of no error
    let _ = show(&mut Screen, end, p);
}

// A packet's octets, as a field.
pub fn dump(p: &[u8])
    ensures { p.now ≡ p.now }
{
    console::say(b"    octets          ");
    console::lines(p, b"                    ");
    console::say(b"\n");
}
