// The verdict on a Response: the only code that looks into the account table.
#![tactic(auto)]

ghost use Rattle.std.specs.Prelude.{◌≡◌, not, eqb};
ghost use Rattle.verdict.specs.Inner.{weighed};
ghost use Rattle.verdict.specs.Verdict.{judge_of};

use accounts::Account;
use mschap::Exchange;

// Malformed says it of the table, the others of a Response. What is Right comes with the account's code and the authenticator
// string's octets. No Result with an Option in it: these are the three marks that `due_of` and the statement `Judges` tell apart.
#[derive(Clone, Copy)]
pub enum Verdict {
    Malformed,
    Wrong,
    Right { code: u16, string: [u8; 20] },
}

// A Response weighed by a hash, which is that of the account if there is one. An NT-Response is computed and compared in any case,
// and before it is asked whether there is an account: what is not the computed one costs the same with and without.
#[tactic(auto, unfolding(crate::specs::Inner::weighed, octets::specs::Choice::pick))]
fn weigh(exchange: &Exchange, account: Account, hash: [u8; 16], response: [u8; 24]) -> Verdict
    ensures { result ≡ weighed (not (eqb account.hash 0)) account.code hash exchange.now.authenticator exchange.now.peer response exchange.now.user.now }
{
    let own = exchange.nt_response(hash);
    // every octet is looked at; `==` may stop at the first that differs
    let computed = octets::equal(&own, &response);
    if !computed {
        return Verdict::Wrong;
    }
    if account.hash == 0 {
        return Verdict::Wrong;
    }
    let string = exchange.authenticator_string(hash, response);
    Verdict::Right {
        code: account.code,
        string,
    }
}

// A Response's peer challenge, NT-Response and name, to the outstanding challenge. It is weighed in the same way whether its user
// has an account or not: without one, by the first octets of the table. No account has a name of more than 256 octets.
#[tactic(auto, using(crate::proofs::Findings::judging), unfolding(crate::specs::Verdict::judge_of))]
pub fn judge(
    challenge: [u8; 16],
    peer: [u8; 16],
    response: [u8; 24],
    name: &[u8],
    table: &[u8],
) -> Verdict
    ensures { result ≡ judge_of challenge peer response name.now table.now }
{
    let user = mschap::user_part(name);
    let Ok(account) = accounts::look(table, user) else {
        return Verdict::Malformed;
    };
    let Ok(exchange) = Exchange::new(challenge, peer, user) else {
        return Verdict::Wrong;
    };
    let hash = octets::array_at::<16>(table, account.hash);
    weigh(&exchange, account, hash, response)
}
