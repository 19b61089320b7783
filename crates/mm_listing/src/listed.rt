//! What a module is that stands in the list of modules.

ghost use Rattle.std.specs.Prelude.{◌≡◌, ◌++◌, OnOk};
ghost use Rattle.std.specs.Str.{bytes_eq};
ghost use Rattle.mm_listing.specs.Listing.{Listing, IsListing};

use mm_bytes::{Bytes, Memory};
use mm_module::Module;

/// A module with all that those need of it who take it from the list of modules.
pub trait Listed: Module {
    /// The module's name, its requests in generated schedules, and its promise over a run.
    ghost listing: { Self → Listing };

    /// Whether this is the module's name.
    fn is_named(&self, name: &[u8]) -> bool
        ensures { result ≡ bytes_eq name.now (listing self.now).name };

    /// Puts the module's name at the end.
    fn put_name(&self, into: &mut Bytes) -> Result<(), Memory>
        ensures { OnOk result (into.new ≡ into.old ++ (listing self.now).name) };

    /// Puts the request that this number chooses at the end.
    fn put_request(&self, into: &mut Bytes, choice: u32) -> Result<(), Memory>
        ensures { OnOk result (into.new ≡ into.old ++ (listing self.now).request choice) };

    /// The laws hold at every module.
    ghost is_listed: { (it : Self) → IsListing (Self.meaning it) (listing it) };
}
