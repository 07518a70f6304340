// Records end to end: the first of them, whether it keeps to its form, and a walk over all.
ghost use Rattle.std.specs.Prelude.{◌≡◌, ℕ, List, true, ◌≤◌, MatchOption};
ghost use Rattle.accounts.specs.Inner.{IsFirst, IsNone, walked};
ghost use Rattle.accounts.specs.Accounts.{code_of, is_code, account_good, record_good};

use answer::Refusal;
use octets::{Order, number_at};

// What a walk makes of a record: `at` is its place in the table.
pub(crate) trait Visit: Copy {
    ghost kept: { Self → ℕ → List ℕ → Self };

    fn keep(self, at: usize, item: &[u8]) -> Self
        requires { (at ≤ 65536) × (record_good item.now ≡ true) }
        ensures { result ≡ kept self at item.now };
}

// The code of a kind-1 record.
#[tactic(auto, using(crate::proofs::Records::code_read))]
pub(crate) fn code_of(item: &[u8]) -> u16
    ensures { result ≡ code_of item.now }
{
    u16::from_le_bytes(octets::array_at(item, 4))
}

// Whether an account may have this code.
#[tactic(auto, using(octets::proofs::Exits::wide), unfolding(crate::specs::Accounts::is_code))]
pub fn is_code(code: u64) -> bool
    ensures { result ≡ is_code code }
{
    matches!(code, 0 | 646 | 647 | 648 | 649)
}

#[tactic(auto, unfolding(crate::specs::Accounts::account_good, octets::specs::Choice::pick))]
fn account_good(item: &[u8]) -> bool
    ensures { result ≡ account_good item.now }
{
    if item.len() < 22 {
        return false;
    }
    if 278 < item.len() {
        return false;
    }
    is_code(code_of(item) as u64)
}

// Whether a record keeps to the form of its kind.
#[tactic(auto, unfolding(crate::specs::Accounts::record_good, octets::specs::Choice::pick))]
fn record_good(item: &[u8]) -> bool
    ensures { result ≡ record_good item.now }
{
    let kind = number_at(Order::Little, item, 2);
    if kind == 1 {
        return account_good(item);
    }
    true
}

// The record that `left` begins with, if it keeps to its form.
#[tactic(auto, using(crate::proofs::Records::firsts))]
fn first_record(left: &[u8]) -> Option<&[u8]>
    ensures { MatchOption result (IsNone left.now) (λ item. IsFirst left.now item.now) }
{
    if left.len() < 4 {
        return None;
    }
    let n = number_at(Order::Little, left, 0);
    if n < 4 {
        return None;
    }
    if left.len() < n {
        return None;
    }
    let item = &left[..n];
    if !record_good(item) {
        return None;
    }
    Some(item)
}

// One walk, which goes on to the end of the table.
// It carries the octets that are left and not a place, which saves an addition from one record to the next. No iterator over the
// records: its item would be a Result, for a record that breaks its form, and the walk would test that once more, so it is no plainer.
#[tactic(auto, using(crate::proofs::Walks::walks))]
pub(crate) fn walk<V: Visit>(table: &[u8], start: V) -> Result<V, Refusal>
    ensures { result ≡ walked V.kept start table.now }
{
    if 65536 < table.len() {
        return Err(Refusal::BadTable);
    }
    let mut known = start;
    let mut left = table;
    while 0 < left.len() {
        let item = first_record(left).ok_or(Refusal::BadTable)?;
        known = known.keep(table.len() - left.len(), item);
        left = &left[item.len()..];
    }
    Ok(known)
}
