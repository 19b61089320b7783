//! Both ledgers in the list of modules.

ghost use Rattle.std.specs.Prelude.{◌≡◌, ◌/◌, ◌%◌, ◌++◌, ◌∷◌, codes, OnOk};
ghost use Rattle.std.specs.Fmt.{decimal};
ghost use Rattle.mm_quota.specs.LedgerListings.{ledger_is_listed, ledger_listing, quota_is_listed, quota_listing, account_name};
ghost use Rattle.mm_quota.specs.LedgerListings.{account_request, amount_text};

use crate::quota::Accounts;
use mm_bytes::{Bytes, Memory, put_numbered};
use mm_listing::Listed;

fn put_account_request(into: &mut Bytes, choice: u32) -> Result<(), Memory>
    ensures { OnOk result (into.new ≡ into.old ++ account_request choice) }
{
    match choice % 8 {
        0 => put_opening(into, choice),
        1..=3 => put_moving(into, b"use a", choice),
        4 | 5 => put_moving(into, b"free a", choice),
        6 => put_numbered(into, b"left a", u64::from(choice / 8 % 16)),
        _ => into.append(b"sum"),
    }
}

/// Puts the request that opens an account.
fn put_opening(into: &mut Bytes, choice: u32) -> Result<(), Memory>
    ensures { OnOk result
        (into.new ≡ into.old ++ codes "open " ++ account_name choice ++ codes " 100000") }
{
    put_numbered(into, b"open a", u64::from(choice / 8 % 16))?;
    into.append(b" 100000")
}

/// Puts a word, an account's number and an amount.
fn put_moving(into: &mut Bytes, word: &[u8], choice: u32) -> Result<(), Memory>
    ensures { OnOk result
        (into.new ≡ into.old ++ word.now ++ decimal (choice / 8 % 16) ++ 32 ∷ amount_text choice) }
{
    put_numbered(into, word, u64::from(choice / 8 % 16))?;
    put_numbered(into, b" ", u64::from(choice / 128 % 500))
}

impl Listed for Accounts<256> {
    ghost listing = { λ _. quota_listing };

    ghost is_listed = { λ _. quota_is_listed };

    fn is_named(&self, name: &[u8]) -> bool {
        name == b"quota".as_slice()
    }

    fn put_name(&self, into: &mut Bytes) -> Result<(), Memory> {
        into.append(b"quota")
    }

    fn put_request(&self, into: &mut Bytes, choice: u32) -> Result<(), Memory> {
        put_account_request(into, choice)
    }
}

impl Listed for Accounts<16384> {
    ghost listing = { λ _. ledger_listing };

    ghost is_listed = { λ _. ledger_is_listed };

    fn is_named(&self, name: &[u8]) -> bool {
        name == b"ledger".as_slice()
    }

    fn put_name(&self, into: &mut Bytes) -> Result<(), Memory> {
        into.append(b"ledger")
    }

    fn put_request(&self, into: &mut Bytes, choice: u32) -> Result<(), Memory> {
        put_account_request(into, choice)
    }
}
