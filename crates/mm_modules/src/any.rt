//! Any of the modules.

ghost use Rattle.std.specs.Prelude.{◌≡◌, ◌==◌, Some, IfSome, option_map};
ghost use Rattle.std.specs.List.{find};
ghost use Rattle.std.specs.Str.{bytes_eq};
ghost use Rattle.mm_modules.specs.Modules.{any_is_listed, listing_of, meaning_of, module_of_name, module_of_id, name_of, names_text};
ghost use Rattle.mm_modules.specs.ModulesLaws.{any_is_lawful};

use mm_bytes::{Bytes, Memory};
use mm_dispenser::Dispenser;
use mm_limiter::Limiter;
use mm_listing::Listed;
use mm_module::{Counter, Module, Stepped};
use mm_quota::Accounts;
use mm_receipted::Receipted;
use std::alloc::Global;

/// A module, chosen at run time.
#[derive(Clone, Copy)]
pub enum AnyModule {
    /// A value of 64 bits: `counter`, id 1.
    Counter,
    /// A secret with a limited number of guesses: `limiter`, id 2.
    Limiter,
    /// At most 256 accounts with limits: `quota`, id 3.
    Quota,
    /// At most 16,384 accounts with limits: `ledger`, id 128.
    Ledger,
    /// Random words: `dispenser`, id 4.
    Dispenser,
    /// A counter with receipts: `receipt-counter`, id 65.
    ReceiptCounter,
    /// A limiter with receipts: `receipt-limiter`, id 66.
    ReceiptLimiter,
    /// A quota with receipts: `receipt-quota`, id 67.
    ReceiptQuota,
}

/// All modules.
const MODULES: [AnyModule; 8] = [
    AnyModule::Counter,
    AnyModule::Limiter,
    AnyModule::Quota,
    AnyModule::Ledger,
    AnyModule::Dispenser,
    AnyModule::ReceiptCounter,
    AnyModule::ReceiptLimiter,
    AnyModule::ReceiptQuota,
];

/// The names of all modules, as a text lists them.
pub fn module_names() -> &'static [u8]
    ensures { result.now ≡ names_text }
{
    b"counter, limiter, quota, ledger, dispenser, receipt-counter, receipt-limiter or receipt-quota"
}

/// The module of this name, None where no module has it.
pub fn by_name(name: &[u8]) -> Option<AnyModule>
    ensures module { result ≡ module_of_name name.now }
    ensures named { IfSome result (λ found. name.now ≡ name_of found) }
    ensures each { (it : AnyModule) → name.now ≡ name_of it → result ≡ Some it }
{
    by_name_inner(name)
}

fn by_name_inner(name: &[u8]) -> Option<AnyModule>
    ensures { result ≡ module_of_name name.now }
{
    named_among(&MODULES, name).copied()
}

/// The first of these modules with this name.
fn named_among<'a>(modules: &'a [AnyModule], name: &[u8]) -> Option<&'a AnyModule>
    ensures { option_map (λ it. it.now) result
        ≡ find (λ it. bytes_eq name.now (name_of it)) modules.now }
{
    modules.iter().find(|module| module.is_named(name))
}

/// The module with this id, None where no module has it.
pub fn by_id(id: u8) -> Option<AnyModule>
    ensures module { result ≡ module_of_id id }
    ensures id { IfSome result (λ found. (meaning_of found).id ≡ id) }
    ensures each { (it : AnyModule) → (meaning_of it).id ≡ id → result ≡ Some it }
{
    by_id_inner(id)
}

fn by_id_inner(id: u8) -> Option<AnyModule>
    ensures { result ≡ module_of_id id }
{
    with_id_among(&MODULES, id).copied()
}

/// The first of these modules with this id.
fn with_id_among(modules: &[AnyModule], id: u8) -> Option<&AnyModule>
    ensures { option_map (λ it. it.now) result
        ≡ find (λ it. (meaning_of it).id == id) modules.now }
{
    modules.iter().find(|module| module.id() == id)
}

/// A call of a method, handed to the module that was chosen: a module has its one arm here.
macro_rules! chosen {
    ($chosen:expr, $($call:tt)*) => {
        match $chosen {
            AnyModule::Counter => Counter.$($call)*,
            AnyModule::Limiter => Limiter.$($call)*,
            AnyModule::Quota => Accounts::<256>.$($call)*,
            AnyModule::Ledger => Accounts::<16384>.$($call)*,
            AnyModule::Dispenser => Dispenser.$($call)*,
            AnyModule::ReceiptCounter => Receipted { inner: Counter }.$($call)*,
            AnyModule::ReceiptLimiter => Receipted { inner: Limiter }.$($call)*,
            AnyModule::ReceiptQuota => Receipted { inner: Accounts::<256> }.$($call)*,
        }
    };
}

impl Module for AnyModule {
    ghost meaning = { meaning_of };

    ghost is_lawful = { any_is_lawful };

    fn id(&self) -> u8 {
        chosen!(self, id())
    }

    fn first_state(&self, alloc: Global) -> Result<Bytes, Memory> {
        chosen!(self, first_state(alloc))
    }

    fn state_is_spelled(&self, state: &[u8]) -> bool {
        chosen!(self, state_is_spelled(state))
    }

    fn step(&self, alloc: Global, state: &[u8], request: &[u8]) -> Result<Stepped, Memory> {
        chosen!(self, step(alloc, state, request))
    }

    fn step_into(
        &self,
        alloc: Global,
        state: &[u8],
        request: &[u8],
        into: &mut Bytes,
    ) -> Result<Bytes, Memory> {
        chosen!(self, step_into(alloc, state, request, into))
    }
}

impl Listed for AnyModule {
    ghost listing = { listing_of };

    ghost is_listed = { any_is_listed };

    fn is_named(&self, name: &[u8]) -> bool {
        chosen!(self, is_named(name))
    }

    fn put_name(&self, into: &mut Bytes) -> Result<(), Memory> {
        chosen!(self, put_name(into))
    }

    fn put_request(&self, into: &mut Bytes, choice: u32) -> Result<(), Memory> {
        chosen!(self, put_request(into, choice))
    }
}
