//! The platform, the store's pages and the entropy over files of the current directory, and the
//! program's input and output. Those over files tell no content: what they do to the files is
//! trusted. Each counts its errors, and keeps the reason of the last.
#![tactic(auto)]

mod cause;
mod counting;
mod folder;
mod kept;
mod lease;
mod lock;
mod name;
mod pages;
mod place;
mod platform;
mod reason;
mod sight;
mod slots;
mod source;
mod streams;

pub use lock::Lock;
pub use pages::FilePages;
pub use platform::FilePlatform;
pub use reason::Reason;
pub use source::FileSource;
pub use streams::{StdSink, StdSource};
