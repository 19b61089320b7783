//! The modules, by name and id.

ghost use Rattle.std.specs.Prelude.{◌≡◌, ◌+◌};
ghost use Rattle.mm_bytes.specs.Limits.{limit_of};
ghost use Rattle.memoir_c.specs.PlainAnswers.{id_of_name, room_with};

use mm_module::Module;
use mm_modules::{by_id, by_name};

/// The id of the module with this name, 0 where no module has it.
#[unsafe(no_mangle)]
pub extern "C" fn memoir_module_id(name: &[u8]) -> u8
    ensures { result ≡ id_of_name name.now }
{
    match by_name(name) {
        None => 0,
        Some(module) => module.id(),
    }
}

/// The room that is enough for an output and a snapshot of the module with this id, 0 where no
/// module has it.
#[unsafe(no_mangle)]
pub extern "C" fn memoir_room(id: u8) -> usize
    ensures { result ≡ room_with id }
{
    match by_id(id) {
        None => 0,
        Some(_) => room(id),
    }
}

// An output of 4,096 bytes, and a snapshot of the longest state in Opt, which has 114 bytes
// besides.
fn room(id: u8) -> usize
    ensures { result ≡ 4096 + 114 + limit_of id }
{
    let state = if id < 128 { 65_536 } else { 1_048_576 };
    4096 + 114 + state
}
