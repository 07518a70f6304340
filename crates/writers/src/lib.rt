// The stateless writers, one for each row of the packet table, and one for octets that were written before. Each gives L of the packet.
#![tactic(auto)]

ghost use Rattle.std.specs.Prelude.{◌≡◌, true, ◌+◌, ◌≤◌, length};
ghost use Rattle.octets.specs.Lists.{Appended};
ghost use Rattle.octets.specs.Octets.{decimal};
ghost use Rattle.answer.specs.Results.{Writes};
ghost use Rattle.answer.specs.Sizes.{max_packet};
ghost use Rattle.packet.specs.Forms.{challenge_name_at, response_name_at, success_text_at, header, challenge_packet, response_packet, success_request, failure_request};
ghost use Rattle.writers.specs.Writers.{sends, writing, HasRoom, write_challenge, write_response, write_success_request, write_failure_request, write_success_response, write_failure_response, write_eap_success, write_eap_failure};

use answer::{ChapId, Identifier, Refusal};

// The two numbers that a packet with an MS-CHAPv2-ID bears, each of its own kind.
#[derive(Clone, Copy)]
pub struct Ids {
    pub id: Identifier,
    pub chapid: ChapId,
}

// Whether a packet of l octets may be written into so many: 23 where it is over 1,020, then 20 where it does not fit.
fn check_room(l: usize, room: usize) -> Result<(), Refusal>
    ensures { HasRoom l room result }
{
    if answer::MAX_PACKET < l {
        return Err(Refusal::BadArgument);
    }
    if room < l {
        return Err(Refusal::NoRoom);
    }
    Ok(())
}

// Writes octets as they are, or answers 20.
#[tactic(auto, using(crate::proofs::Writing::not_sent, crate::proofs::Writing::all_sent))]
pub fn send(q: &[u8], out: &mut [u8]) -> Result<usize, Refusal>
    ensures { Writes (sends (length out.old) q.now) result out.old out.new }
{
    if out.len() < q.len() {
        return Err(Refusal::NoRoom);
    }
    octets::put_at(out, 0, q);
    Ok(q.len())
}

// Writes octets that are a packet.
fn write_whole(q: &[u8], out: &mut [u8]) -> Result<usize, Refusal>
    requires { length q.now ≤ max_packet }
    ensures { Writes (writing true (length out.old) q.now) result out.old out.new }
{
    send(q, out)
}

// Here and below the slice and the place in it (`at`) are two values, as octets' append has them.
// The first nine octets of a packet of L octets with an MS-CHAPv2-ID.
#[tactic(auto, unfolding(packet::specs::Forms::header))]
pub fn put_header(code: u8, op: u8, ids: Ids, l: u16, out: &mut [u8]) -> usize
    ensures { Appended out.old 0 (header code op ids.id.0 ids.chapid.0 l) result out.new }
{
    let [high, low] = l.to_be_bytes();
    let [ms_high, ms_low] = l.saturating_sub(5).to_be_bytes();
    let head = [
        code,
        ids.id.0,
        high,
        low,
        26,
        op,
        ids.chapid.0,
        ms_high,
        ms_low,
    ];
    octets::append(out, 0, &head)
}

fn put_challenge(ids: Ids, challenge: &[u8], name: &[u8], out: &mut [u8]) -> usize
    requires { (length challenge.now ≡ 16) × (challenge_name_at + length name.now ≤ max_packet) × (challenge_name_at + length name.now ≤ length out.old) }
    ensures { Appended out.old 0 (challenge_packet ids.id.0 ids.chapid.0 challenge.now name.now) result out.new }
{
    let l = packet::CHALLENGE_NAME_AT + name.len();
    let at = put_header(1, 1, ids, l as u16, out);
    let at = octets::append(out, at, &[16]);
    let at = octets::append(out, at, challenge);
    octets::append(out, at, name)
}

pub fn write_challenge(
    ids: Ids,
    challenge: [u8; 16],
    name: &[u8],
    out: &mut [u8],
) -> Result<usize, Refusal>
    ensures { Writes (write_challenge ids.id.0 ids.chapid.0 challenge name.now (length out.old)) result out.old out.new }
{
    if name.len() < 1 {
        return Err(Refusal::BadArgument);
    }
    check_room(packet::CHALLENGE_NAME_AT + name.len(), out.len())?;
    Ok(put_challenge(ids, &challenge, name, out))
}

fn put_response(ids: Ids, peer: &[u8], response: &[u8], name: &[u8], out: &mut [u8]) -> usize
    requires { (length peer.now ≡ 16) × (length response.now ≡ 24) × (response_name_at + length name.now ≤ max_packet) × (response_name_at + length name.now ≤ length out.old) }
    ensures { Appended out.old 0 (response_packet ids.id.0 ids.chapid.0 peer.now response.now name.now) result out.new }
{
    let l = packet::RESPONSE_NAME_AT + name.len();
    let at = put_header(2, 2, ids, l as u16, out);
    let at = octets::append(out, at, &[49]);
    let at = octets::append(out, at, peer);
    let at = octets::append(out, at, &[0, 0, 0, 0, 0, 0, 0, 0]);
    let at = octets::append(out, at, response);
    let at = octets::append(out, at, &[0]);
    octets::append(out, at, name)
}

pub fn write_response(
    ids: Ids,
    peer: [u8; 16],
    response: [u8; 24],
    name: &[u8],
    out: &mut [u8],
) -> Result<usize, Refusal>
    ensures { Writes (write_response ids.id.0 ids.chapid.0 peer response name.now (length out.old)) result out.old out.new }
{
    if answer::MAX_NAME < name.len() {
        return Err(Refusal::BadArgument);
    }
    check_room(packet::RESPONSE_NAME_AT + name.len(), out.len())?;
    Ok(put_response(ids, &peer, &response, name, out))
}

fn put_success(ids: Ids, string: &[u8], text: &[u8], out: &mut [u8]) -> usize
    requires { (success_text_at + length text.now ≤ max_packet) × (success_text_at + length text.now ≤ length out.old) }
    ensures { Appended out.old 0 (success_request ids.id.0 ids.chapid.0 string.now text.now) result out.new }
{
    let l = packet::SUCCESS_TEXT_AT + text.len();
    let at = put_header(1, 3, ids, l as u16, out);
    let at = octets::append(out, at, b"S=");
    let at = octets::append_hex(out, at, 40, string);
    let at = octets::append(out, at, b" M=");
    octets::append(out, at, text)
}

pub fn write_success_request(
    ids: Ids,
    string: [u8; 20],
    text: &[u8],
    out: &mut [u8],
) -> Result<usize, Refusal>
    ensures { Writes (write_success_request ids.id.0 ids.chapid.0 string text.now (length out.old)) result out.old out.new }
{
    check_room(packet::SUCCESS_TEXT_AT + text.len(), out.len())?;
    Ok(put_success(ids, &string, text, out))
}

fn put_failure(
    ids: Ids,
    error: u64,
    retry: u8,
    challenge: &[u8],
    text: &[u8],
    l: usize,
    out: &mut [u8],
) -> usize
    requires { (l ≡ 57 + length (decimal error) + length text.now) × (retry ≤ 1) × (l ≤ max_packet) × (l ≤ length out.old) }
    ensures { Appended out.old 0 (failure_request ids.id.0 ids.chapid.0 error retry challenge.now text.now) result out.new }
{
    let at = put_header(1, 4, ids, l as u16, out);
    let at = octets::append(out, at, b"E=");
    let at = octets::append_decimal(out, at, error);
    let at = octets::append(out, at, b" R=");
    let at = octets::append(out, at, &[b'0' + retry]);
    let at = octets::append(out, at, b" C=");
    let at = octets::append_hex(out, at, 32, challenge);
    let at = octets::append(out, at, b" V=3 M=");
    octets::append(out, at, text)
}

// The greatest number of ten digits.
const MAX_ERROR: u64 = 9999999999;

// R is a number, since document 01 promises 23 for one over 1.
pub fn write_failure_request(
    ids: Ids,
    error: u64,
    retry: u8,
    challenge: [u8; 16],
    text: &[u8],
    out: &mut [u8],
) -> Result<usize, Refusal>
    ensures { Writes (write_failure_request ids.id.0 ids.chapid.0 error retry challenge text.now (length out.old)) result out.old out.new }
{
    if MAX_ERROR < error {
        return Err(Refusal::BadArgument);
    }
    if 1 < retry {
        return Err(Refusal::BadArgument);
    }
    let l = 57 + octets::decimal_len(error) + text.len();
    check_room(l, out.len())?;
    Ok(put_failure(ids, error, retry, &challenge, text, l, out))
}

// The packets of constant octets are a function each, as the packet table and the C calls have them, over one writer.
pub fn write_success_response(id: Identifier, out: &mut [u8]) -> Result<usize, Refusal>
    ensures { Writes (write_success_response id.0 (length out.old)) result out.old out.new }
{
    write_whole(&[2, id.0, 0, 6, 26, 3], out)
}

pub fn write_failure_response(id: Identifier, out: &mut [u8]) -> Result<usize, Refusal>
    ensures { Writes (write_failure_response id.0 (length out.old)) result out.old out.new }
{
    write_whole(&[2, id.0, 0, 6, 26, 4], out)
}

pub fn write_eap_success(id: Identifier, out: &mut [u8]) -> Result<usize, Refusal>
    ensures { Writes (write_eap_success id.0 (length out.old)) result out.old out.new }
{
    write_whole(&[3, id.0, 0, 4], out)
}

pub fn write_eap_failure(id: Identifier, out: &mut [u8]) -> Result<usize, Refusal>
    ensures { Writes (write_eap_failure id.0 (length out.old)) result out.old out.new }
{
    write_whole(&[4, id.0, 0, 4], out)
}
