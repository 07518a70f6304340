// The reader and the stateless writers over slices alone, as C and Rust link them. Each answers with one word.
// `23` is the number of BadArgument: what is exported answers with one word, by the C interface.
#![tactic(auto)]

ghost use Rattle.std.specs.Prelude.{◌≡◌, length};
ghost use Rattle.octets.specs.Lists.{Appended};
ghost use Rattle.packet.specs.Frame.{frame_of};
ghost use Rattle.packet.specs.Reader.{told_reading};
ghost use Rattle.calls.specs.Done.{word_of, made};
ghost use Rattle.wire.specs.Readings.{reading_octets, two_low, octets_of_place, octets_of_reading};
ghost use Rattle.wire.specs.Calls.{told_in, without_end, read_at, challenge_at, response_at, success_request_at, failure_request_at, success_response_at, failure_response_at, eap_success_at, eap_failure_at};

use answer::{ChapId, Identifier, Refusal};
use packet::{End, Packet, Place};
use writers::Ids;

// ---- the reader
const READING_OCTETS: usize = 25;

// A number's two low octets, the low one first.
fn two_low(n: usize) -> [u8; 2]
    ensures { result ≡ two_low n }
{
    ((n % 65536) as u16).to_le_bytes()
}

// Appends where a part begins and how long it is.
fn append_place(out: &mut [u8], at: usize, place: Place) -> usize
    ensures { Appended out.old at (octets_of_place place) result out.new }
{
    let [start_low, start_high] = two_low(place.start);
    let [len_low, len_high] = two_low(place.len);
    octets::append(out, at, &[start_low, start_high, len_low, len_high])
}

// Writes a reading as octets, the low octet of a number first.
fn put_reading(k: Packet, out: &mut [u8])
    requires { length out.old ≡ reading_octets }
    ensures { out.new ≡ octets_of_reading k }
{
    let at = octets::append(out, 0, &[u8::from(k.kind), k.id.0, k.chapid.0]);
    let at = octets::append(out, at, &two_low(k.length));
    let at = octets::append(out, at, &k.error.to_le_bytes());
    let at = append_place(out, at, k.challenge);
    let at = append_place(out, at, k.response);
    append_place(out, at, k.tail);
}

fn tell(x: Result<Packet, Refusal>, out: &mut [u8]) -> u64
    requires { length out.old ≡ reading_octets }
    ensures { made result out.new ≡ told_in (told_reading x) out.old }
{
    match x {
        Ok(k) => {
            put_reading(k, out);
            calls::word_telling(0, 0, packet::text_in(k))
        }
        Err(why) => calls::word(u8::from(why), 0),
    }
}

fn read_without_end(packet: &[u8]) -> u64
    ensures { result ≡ word_of (without_end (frame_of packet.now)) 0 }
{
    match packet::frame(packet) {
        Ok(_) => calls::word(23, 0),
        Err(why) => calls::word(u8::from(why), 0),
    }
}

// The whole reading of a packet for an end: 0 is the peer, 1 the server. For another end 10 to 12 come before 23.
pub fn read(end: u8, packet: &[u8], out: &mut [u8]) -> u64
    ensures { made result out.new ≡ read_at end packet.now out.old }
{
    if out.len() != READING_OCTETS {
        return 23;
    }
    match end {
        0 => tell(packet::read(End::Peer, packet), out),
        1 => tell(packet::read(End::Server, packet), out),
        _ => read_without_end(packet),
    }
}

// ---- the writers
// C passes the two numbers one by one.
fn ids_of(identifier: u8, chapid: u8) -> Ids
    ensures { result ≡ record { id = record { 0 = identifier }; chapid = record { 0 = chapid } } }
{
    Ids {
        id: Identifier(identifier),
        chapid: ChapId(chapid),
    }
}

pub fn write_challenge(
    identifier: u8,
    chapid: u8,
    challenge: &[u8],
    name: &[u8],
    out: &mut [u8],
) -> u64
    ensures { made result out.new ≡ challenge_at identifier chapid challenge.now name.now out.old }
{
    let Ok(challenge) = <[u8; 16]>::try_from(challenge) else {
        return 23;
    };
    calls::word_written(writers::write_challenge(ids_of(identifier, chapid), challenge, name, out))
}

// The arrays are lent up to the writer: made here by value each stands on the stack once more.
pub fn write_response(
    identifier: u8,
    chapid: u8,
    peer: &[u8],
    ntresponse: &[u8],
    name: &[u8],
    out: &mut [u8],
) -> u64
    ensures { made result out.new ≡ response_at identifier chapid peer.now ntresponse.now name.now out.old }
{
    let Ok(peer) = <&[u8; 16]>::try_from(peer) else {
        return 23;
    };
    let Ok(response) = <&[u8; 24]>::try_from(ntresponse) else {
        return 23;
    };
    calls::word_written(writers::write_response(
        ids_of(identifier, chapid),
        *peer,
        *response,
        name,
        out,
    ))
}

// The string's 20 octets, and a text.
pub fn write_success_request(
    identifier: u8,
    chapid: u8,
    string: &[u8],
    text: &[u8],
    out: &mut [u8],
) -> u64
    ensures { made result out.new ≡ success_request_at identifier chapid string.now text.now out.old }
{
    let Ok(string) = <[u8; 20]>::try_from(string) else {
        return 23;
    };
    calls::word_written(writers::write_success_request(
        ids_of(identifier, chapid),
        string,
        text,
        out,
    ))
}

pub fn write_failure_request(
    identifier: u8,
    chapid: u8,
    error: u64,
    retry: u64,
    challenge: &[u8],
    text: &[u8],
    out: &mut [u8],
) -> u64
    ensures { made result out.new ≡ failure_request_at identifier chapid error retry challenge.now text.now out.old }
{
    let Ok(challenge) = <[u8; 16]>::try_from(challenge) else {
        return 23;
    };
    let Ok(retry) = u8::try_from(retry) else {
        return 23;
    };
    calls::word_written(writers::write_failure_request(
        ids_of(identifier, chapid),
        error,
        retry,
        challenge,
        text,
        out,
    ))
}

pub fn write_success_response(identifier: u8, out: &mut [u8]) -> u64
    ensures { made result out.new ≡ success_response_at identifier out.old }
{
    calls::word_written(writers::write_success_response(Identifier(identifier), out))
}

pub fn write_failure_response(identifier: u8, out: &mut [u8]) -> u64
    ensures { made result out.new ≡ failure_response_at identifier out.old }
{
    calls::word_written(writers::write_failure_response(Identifier(identifier), out))
}

pub fn write_eap_success(identifier: u8, out: &mut [u8]) -> u64
    ensures { made result out.new ≡ eap_success_at identifier out.old }
{
    calls::word_written(writers::write_eap_success(Identifier(identifier), out))
}

pub fn write_eap_failure(identifier: u8, out: &mut [u8]) -> u64
    ensures { made result out.new ≡ eap_failure_at identifier out.old }
{
    calls::word_written(writers::write_eap_failure(Identifier(identifier), out))
}
