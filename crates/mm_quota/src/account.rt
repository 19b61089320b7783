//! An account as it stands in a state.

ghost use Rattle.std.specs.Prelude.{◌≡◌, ◌++◌, ◌≤◌, ℕ, length, option_map, OnOk};
ghost use Rattle.mm_quota.specs.Table.{is_name, is_account, account_bytes, account_at};
ghost use Rattle.mm_quota.specs.Views.{as_account, front_account};

use mm_bytes::{Bytes, Memory, bytes_of_u64};
use mm_module::{are_visible, u64_of_bytes};

/// The greatest limit of an account, 2^48.
pub const GREATEST_LIMIT: u64 = 281474976710656;

/// An account: a name of 1 to 32 bytes from 0x21 to 0x7e, a limit of at most 2^48, and what is used
/// of it.
#[derive(Clone, Copy)]
pub struct Account<'a> {
    pub name: &'a [u8],
    pub limit: u64,
    pub used: u64,
}

/// Whether these bytes are a name.
#[tactic(auto, unfolding(crate::specs::Table::is_name))]
pub fn name_is_formed(bytes: &[u8]) -> bool
    ensures { result ≡ is_name bytes.now }
{
    1 <= bytes.len() && bytes.len() <= 32 && are_visible(bytes)
}

/// Whether an account may stand in a ledger.
#[tactic(auto, unfolding(crate::specs::Table::is_account))]
pub fn account_is_formed(account: &Account<'_>) -> bool
    ensures { result ≡ is_account (as_account account.now) }
{
    name_is_formed(account.name) && account.limit <= GREATEST_LIMIT && account.used <= account.limit
}

/// The account at the front of these bytes, and the bytes behind it.
#[tactic(auto, unfolding(crate::specs::Table::account_after))]
pub fn split_account(bytes: &[u8]) -> Option<(Account<'_>, &[u8])>
    ensures { option_map front_account result ≡ account_at bytes.now }
{
    let (count, bytes) = bytes.split_first()?;
    let count = usize::from(*count);
    if bytes.len() < count + 16 {
        return None;
    }
    let (name, bytes) = bytes.split_at(count);
    let (limit, bytes) = bytes.split_first_chunk::<8>()?;
    let (used, bytes) = bytes.split_first_chunk::<8>()?;
    let account = Account {
        name,
        limit: u64_of_bytes(limit),
        used: u64_of_bytes(used),
    };
    Some((account, bytes))
}

/// Puts an account at the end.
#[tactic(auto, unfolding(crate::specs::Table::account_bytes))]
pub fn put_account(into: &mut Bytes, account: &Account<'_>) -> Result<(), Memory>
    requires { length account.now.name.now ≤ 255 }
    ensures { OnOk result (into.new ≡ into.old ++ account_bytes (as_account account.now)) }
{
    into.push(account.name.len() as u8)?;
    into.append(account.name)?;
    into.append(&bytes_of_u64(account.limit))?;
    into.append(&bytes_of_u64(account.used))
}
