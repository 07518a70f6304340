// The account table of document 01: whether it is well formed, and the account of a user.
#![tactic(auto)]

mod adding;
mod names;
mod walking;

ghost use Rattle.std.specs.Prelude.{◌≡◌, true, not, ◌+◌, ◌≤◌, length, drop, eqb};
ghost use Rattle.octets.specs.Choice.{pick};
ghost use Rattle.octets.specs.Octets.{same};
ghost use Rattle.answer.specs.Results.{refusal_in};
ghost use Rattle.accounts.specs.Inner.{kept, lookup_in};
ghost use Rattle.accounts.specs.Accounts.{code_of, record_good, looked_of, check_number, find_told, found_in, told_found};

pub use adding::{append, append_account};
use answer::Refusal;
use names::Sought;
use octets::{Order, number_at};
pub use walking::is_code;
use walking::{Visit, code_of, walk};

// An account's code, and where in the table its hash of 16 octets begins.
#[derive(Clone, Copy, PartialEq, Eq)]
pub struct Account {
    pub code: u16,
    pub hash: usize,
}

// No account, as plain values, so that nothing waits for a test of whether there is one: no hash begins at the table's first octet.
const NOBODY: Account = Account { code: 0, hash: 0 };

// The account found before, or else this one if it is there; no Option, as for NOBODY.
#[tactic(auto, unfolding(octets::specs::Choice::pick))]
fn choose(known: Account, here: bool, code: u16, hash: usize) -> Account
    ensures { result ≡ pick (not here) known (pick (eqb known.hash 0) (record { code = code; hash = hash }) known) }
{
    if !here {
        return known;
    }
    if known.hash == 0 {
        return Account { code, hash };
    }
    known
}

// A search for the account of a user: who is sought, and the account found before.
#[derive(Clone, Copy)]
struct Search<'a> {
    sought: &'a Sought<'a>,
    known: Account,
}

impl Search<'_> {
    // The account found before, or else the record at `at` if it is an account of the user: its name is looked at in any case.
    #[tactic(auto, using(crate::proofs::Walks::keeps))]
    fn account_with(&self, at: usize, item: &[u8]) -> Account
        requires { (at ≤ 65536) × (record_good item.now ≡ true) }
        ensures { result ≡ kept self.now.sought.now.user.now self.now.known at item.now }
    {
        let kind = number_at(Order::Little, item, 2);
        if kind != 1 {
            return self.known;
        }
        let here = self.sought.is_name(item);
        let code = code_of(item);
        choose(self.known, here, code, at + 6)
    }
}

impl Visit for Search<'_> {
    ghost kept = { λ s at r. record { sought = s.sought; known = kept s.sought.now.user.now s.known at r } };

    fn keep(self, at: usize, item: &[u8]) -> Self {
        Search {
            sought: self.sought,
            known: self.account_with(at, item),
        }
    }
}

// The account of a user, the first in the table that has its name; where there is none, its hash begins at 0.
pub fn look(table: &[u8], user: &[u8]) -> Result<Account, Refusal>
    ensures { result ≡ looked_of table.now user.now }
{
    let own = names::laid(user);
    let mask = names::mask();
    let sought = Sought {
        user,
        own: &own,
        mask: &mask,
    };
    let found = walk(
        table,
        Search {
            sought: &sought,
            known: NOBODY,
        },
    )?;
    Ok(found.known)
}

// A visit that looks for nobody.
#[derive(Clone, Copy)]
struct Nobody;

impl Visit for Nobody {
    ghost kept = { λ s at r. s };

    fn keep(self, at: usize, item: &[u8]) -> Self {
        self
    }
}

// Whether a table is well formed.
pub fn check(table: &[u8]) -> Result<(), Refusal>
    ensures { refusal_in result ≡ check_number table.now }
{
    walk(table, Nobody)?;
    Ok(())
}

// The account, if there is one.
#[tactic(auto, unfolding(octets::specs::Choice::pick))]
fn account_in(looked: Account) -> Option<Account>
    ensures { found_in result ≡ lookup_in looked }
{
    if looked.hash == 0 {
        return None;
    }
    Some(looked)
}

// The account of a user, if it has one; 21, or 23 for a user of more than 256 octets.
#[tactic(auto, using(crate::proofs::Walks::finds))]
pub fn find(table: &[u8], user: &[u8]) -> Result<Option<Account>, Refusal>
    ensures { told_found result ≡ find_told table.now user.now }
{
    let looked = look(table, user)?;
    if answer::MAX_NAME < user.len() {
        return Err(Refusal::BadArgument);
    }
    Ok(account_in(looked))
}
