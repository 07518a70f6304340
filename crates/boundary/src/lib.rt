// What C and Rust link, declared in include/zirgumtak.h. Each slice is a pointer and a length there. The functions stand in crates/calls and
// crates/wire.
#![tactic(auto)]

ghost use Rattle.std.specs.Prelude.{◌≡◌, []};
ghost use Rattle.accounts.specs.Accounts.{check_number};
ghost use Rattle.calls.specs.Done.{word_of, done, made};
ghost use Rattle.calls.specs.Ends.{peer_new_at, peer_step_at, peer_supply_at, peer_give_up_at, server_new_at, server_start_at, server_packet_at, server_resend_at};
ghost use Rattle.calls.specs.Stateless.{version, accounts_append_at, md4_at, sha1_at, password_hash_at, des_at, nt_response_at, authenticator_at};
ghost use Rattle.wire.specs.Calls.{read_at, challenge_at, response_at, success_request_at, failure_request_at, success_response_at, failure_response_at, eap_success_at, eap_failure_at};

#[unsafe(no_mangle)]
pub extern "C" fn zt_peer_new(state: &mut [u8], name: &[u8], hash: &[u8]) -> u64
    ensures { done result state.new [] ≡ peer_new_at state.old name.now hash.now }
{
    calls::peer_new(state, name, hash)
}

#[unsafe(no_mangle)]
pub extern "C" fn zt_peer_step(
    state: &mut [u8],
    packet: &[u8],
    random: &[u8],
    reply: &mut [u8],
) -> u64
    ensures { done result state.new reply.new ≡ peer_step_at state.old packet.now random.now reply.old }
{
    calls::peer_step(state, packet, random, reply)
}

#[unsafe(no_mangle)]
pub extern "C" fn zt_peer_supply(
    state: &mut [u8],
    name: &[u8],
    hash: &[u8],
    random: &[u8],
    reply: &mut [u8],
) -> u64
    ensures { done result state.new reply.new ≡ peer_supply_at state.old name.now hash.now random.now reply.old }
{
    calls::peer_supply(state, name, hash, random, reply)
}

#[unsafe(no_mangle)]
pub extern "C" fn zt_peer_give_up(state: &mut [u8]) -> u64
    ensures { done result state.new [] ≡ peer_give_up_at state.old }
{
    calls::peer_give_up(state)
}

#[unsafe(no_mangle)]
pub extern "C" fn zt_server_new(state: &mut [u8]) -> u64
    ensures { done result state.new [] ≡ server_new_at state.old }
{
    calls::server_new(state)
}

#[unsafe(no_mangle)]
pub extern "C" fn zt_server_start(
    state: &mut [u8],
    identifier: u8,
    challenge: &[u8],
    name: &[u8],
    retries: u64,
    reply: &mut [u8],
) -> u64
    ensures { done result state.new reply.new ≡ server_start_at state.old identifier challenge.now name.now retries reply.old }
{
    calls::server_start(state, identifier, challenge, name, retries, reply)
}

#[unsafe(no_mangle)]
pub extern "C" fn zt_server_packet(
    state: &mut [u8],
    packet: &[u8],
    table: &[u8],
    fresh: &[u8],
    reply: &mut [u8],
) -> u64
    ensures { done result state.new reply.new ≡ server_packet_at state.old packet.now table.now fresh.now reply.old }
{
    calls::server_packet(state, packet, table, fresh, reply)
}

#[unsafe(no_mangle)]
pub extern "C" fn zt_server_resend(state: &[u8], reply: &mut [u8]) -> u64
    ensures { done result state.now reply.new ≡ server_resend_at state.now reply.old }
{
    calls::server_resend(state, reply)
}

#[unsafe(no_mangle)]
pub extern "C" fn zt_version() -> u64
    ensures { result ≡ version }
{
    calls::version()
}

#[unsafe(no_mangle)]
pub extern "C" fn zt_read(end: u8, packet: &[u8], reading: &mut [u8]) -> u64
    ensures { made result reading.new ≡ read_at end packet.now reading.old }
{
    wire::read(end, packet, reading)
}

#[unsafe(no_mangle)]
pub extern "C" fn zt_write_challenge(
    identifier: u8,
    chapid: u8,
    challenge: &[u8],
    name: &[u8],
    out: &mut [u8],
) -> u64
    ensures { made result out.new ≡ challenge_at identifier chapid challenge.now name.now out.old }
{
    wire::write_challenge(identifier, chapid, challenge, name, out)
}

#[unsafe(no_mangle)]
pub extern "C" fn zt_write_response(
    identifier: u8,
    chapid: u8,
    peer: &[u8],
    ntresponse: &[u8],
    name: &[u8],
    out: &mut [u8],
) -> u64
    ensures { made result out.new ≡ response_at identifier chapid peer.now ntresponse.now name.now out.old }
{
    wire::write_response(identifier, chapid, peer, ntresponse, name, out)
}

#[unsafe(no_mangle)]
pub extern "C" fn zt_write_success_request(
    identifier: u8,
    chapid: u8,
    string: &[u8],
    text: &[u8],
    out: &mut [u8],
) -> u64
    ensures { made result out.new ≡ success_request_at identifier chapid string.now text.now out.old }
{
    wire::write_success_request(identifier, chapid, string, text, out)
}

#[unsafe(no_mangle)]
pub extern "C" fn zt_write_failure_request(
    identifier: u8,
    chapid: u8,
    code: u64,
    retry: u64,
    challenge: &[u8],
    text: &[u8],
    out: &mut [u8],
) -> u64
    ensures { made result out.new ≡ failure_request_at identifier chapid code retry challenge.now text.now out.old }
{
    wire::write_failure_request(identifier, chapid, code, retry, challenge, text, out)
}

#[unsafe(no_mangle)]
pub extern "C" fn zt_write_success_response(identifier: u8, out: &mut [u8]) -> u64
    ensures { made result out.new ≡ success_response_at identifier out.old }
{
    wire::write_success_response(identifier, out)
}

#[unsafe(no_mangle)]
pub extern "C" fn zt_write_failure_response(identifier: u8, out: &mut [u8]) -> u64
    ensures { made result out.new ≡ failure_response_at identifier out.old }
{
    wire::write_failure_response(identifier, out)
}

#[unsafe(no_mangle)]
pub extern "C" fn zt_write_eap_success(identifier: u8, out: &mut [u8]) -> u64
    ensures { made result out.new ≡ eap_success_at identifier out.old }
{
    wire::write_eap_success(identifier, out)
}

#[unsafe(no_mangle)]
pub extern "C" fn zt_write_eap_failure(identifier: u8, out: &mut [u8]) -> u64
    ensures { made result out.new ≡ eap_failure_at identifier out.old }
{
    wire::write_eap_failure(identifier, out)
}

#[unsafe(no_mangle)]
pub extern "C" fn zt_accounts_check(table: &[u8]) -> u64
    ensures { result ≡ word_of (check_number table.now) 0 }
{
    calls::accounts_check(table)
}

#[unsafe(no_mangle)]
pub extern "C" fn zt_accounts_append(
    table: &mut [u8],
    used: usize,
    code: u64,
    hash: &[u8],
    name: &[u8],
) -> u64
    ensures { made result table.new ≡ accounts_append_at table.old used code hash.now name.now }
{
    calls::accounts_append(table, used, code, hash, name)
}

#[unsafe(no_mangle)]
pub extern "C" fn zt_md4(message: &[u8], out: &mut [u8]) -> u64
    ensures { made result out.new ≡ md4_at message.now out.old }
{
    calls::md4(message, out)
}

#[unsafe(no_mangle)]
pub extern "C" fn zt_sha1(message: &[u8], out: &mut [u8]) -> u64
    ensures { made result out.new ≡ sha1_at message.now out.old }
{
    calls::sha1(message, out)
}

#[unsafe(no_mangle)]
pub extern "C" fn zt_password_hash(units: &[u8], out: &mut [u8]) -> u64
    ensures { made result out.new ≡ password_hash_at units.now out.old }
{
    calls::password_hash(units, out)
}

#[unsafe(no_mangle)]
pub extern "C" fn zt_des(key: &[u8], block: &[u8], out: &mut [u8]) -> u64
    ensures { made result out.new ≡ des_at key.now block.now out.old }
{
    calls::des(key, block, out)
}

#[unsafe(no_mangle)]
pub extern "C" fn zt_nt_response(
    authenticator: &[u8],
    peer: &[u8],
    user: &[u8],
    hash: &[u8],
    out: &mut [u8],
) -> u64
    ensures { made result out.new ≡ nt_response_at authenticator.now peer.now user.now hash.now out.old }
{
    calls::nt_response(authenticator, peer, user, hash, out)
}

#[unsafe(no_mangle)]
pub extern "C" fn zt_authenticator(
    hash: &[u8],
    ntresponse: &[u8],
    peer: &[u8],
    authenticator: &[u8],
    user: &[u8],
    out: &mut [u8],
) -> u64
    ensures { made result out.new ≡ authenticator_at hash.now ntresponse.now peer.now authenticator.now user.now out.old }
{
    calls::authenticator(hash, ntresponse, peer, authenticator, user, out)
}
