// The record of an account, and accounts added to tables.
ghost use Rattle.std.specs.Prelude.{◌≡◌, true, ◌+◌, ◌≤◌, length, take};
ghost use Rattle.answer.specs.Results.{Writes};
ghost use Rattle.answer.specs.Sizes.{max_name};
ghost use Rattle.accounts.specs.Accounts.{is_code};
ghost use Rattle.accounts.specs.Account.{account_head, account_record, record_for, max_table, grown, append_in, AppendedAt};

use crate::{is_code, look};
use answer::Refusal;

// ---- records

fn head_of(l: u16, code: u16) -> [u8; 6]
    ensures { result ≡ account_head l code }
{
    let [length_low, length_high] = l.to_le_bytes();
    let [code_low, code_high] = code.to_le_bytes();
    [length_low, length_high, 1, 0, code_low, code_high]
}

// The record of an account, over all of dst.
#[tactic(auto, using(crate::proofs::Laying::laid))]
fn lay(dst: &mut [u8], code: u16, hash: [u8; 16], name: &[u8])
    requires { (length dst.old ≡ 22 + length name.now) × (length name.now ≤ max_name) }
    ensures { dst.new ≡ account_record code hash name.now }
{
    let l = 22 + name.len();
    let head = head_of(l as u16, code);
    octets::put_at(dst, 0, &head);
    octets::put_at(dst, 6, &hash);
    octets::put_at(dst, 22, name);
}

// Appends the record of an account, and gives the place after it. Where it does not fit, or the code or the name has no
// record, the table stays as it is.
#[tactic(auto, using(crate::proofs::Laying::holding))]
pub fn append_account(
    table: &mut [u8],
    at: usize,
    code: u64,
    hash: [u8; 16],
    name: &[u8],
) -> Option<usize>
    ensures { AppendedAt table.old at (record_for code hash name.now) result table.new }
{
    if !is_code(code) {
        return None;
    }
    if answer::MAX_NAME < name.len() {
        return None;
    }
    let len = 22 + name.len();
    if table.len() < len {
        return None;
    }
    if table.len() - len < at {
        return None;
    }
    let end = at + len;
    lay(&mut table[at..end], code as u16, hash, name);
    Some(end)
}

// ---- a table with an account more

// An account that has a record, after a table of n octets; or 20.
#[tactic(auto, using(crate::proofs::Laying::growing))]
fn grow(
    table: &mut [u8],
    n: usize,
    code: u64,
    hash: [u8; 16],
    name: &[u8],
) -> Result<usize, Refusal>
    requires { ((n ≤ length table.old) × (n ≤ max_table)) × ((is_code code ≡ true) × (length name.now ≤ max_name)) }
    ensures { Writes (grown (length table.old) (take n table.old) code hash name.now) result table.old table.new }
{
    if 65536 < n + (22 + name.len()) {
        return Err(Refusal::NoRoom);
    }
    append_account(table, n, code, hash, name).ok_or(Refusal::NoRoom)
}

// Appends an account to the well-formed table that is the buffer's first octets, as many as are used (C lends both, and names code, hash and
// name one by one). Gives the table's new
// length. A lookup tells whether it is well formed, so that what is linked has one walk that compares names and one that does not.
#[tactic(auto, using(crate::proofs::Laying::appends))]
pub fn append(
    table: &mut [u8],
    used: usize,
    code: u64,
    hash: [u8; 16],
    name: &[u8],
) -> Result<usize, Refusal>
    ensures { Writes (append_in table.old used code hash name.now) result table.old table.new }
{
    if table.len() < used {
        return Err(Refusal::BadArgument);
    }
    look(octets::part(table, 0, used), name)?;
    if !is_code(code) {
        return Err(Refusal::BadArgument);
    }
    if answer::MAX_NAME < name.len() {
        return Err(Refusal::BadArgument);
    }
    grow(table, used, code, hash, name)
}
