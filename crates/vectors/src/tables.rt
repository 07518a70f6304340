// check TABLE; find TABLE USER: the account's code, low octet first, and its hash, or nothing where there is none
use super::script;
use accounts::Account;
use std::io;
use std::io::Print;

pub(crate) fn check(rt: &impl Print, line: &[u8]) -> io::Result<()> {
    let mut table = [0u8; 65600];
    let n = script::octets_of(line, 1, &mut table);
    match accounts::check(&table[..n]) {
        Ok(()) => script::tell(rt, b"check", 0, b""),
        Err(why) => script::tell(rt, b"check", u8::from(why), b""),
    }
}

fn tell_account(rt: &impl Print, account: Account, table: &[u8]) -> io::Result<()> {
    let mut out = [0u8; 18];
    octets::put_at(&mut out, 0, &account.code.to_le_bytes());
    octets::put_at(&mut out, 2, octets::part(table, account.hash, 16));
    script::tell(rt, b"find", 0, &out)
}

pub(crate) fn find(rt: &impl Print, line: &[u8]) -> io::Result<()> {
    let mut table = [0u8; 65600];
    let n = script::octets_of(line, 1, &mut table);
    let mut user = [0u8; 300];
    let m = script::octets_of(line, 2, &mut user);
    match accounts::find(&table[..n], &user[..m]) {
        Ok(Some(account)) => tell_account(rt, account, &table),
        Ok(None) => script::tell(rt, b"find", 0, b""),
        Err(why) => script::tell(rt, b"find", u8::from(why), b""),
    }
}
