//! Modules: the small programs whose one state Memoir keeps, and the batches of requests that they
//! take.
#![tactic(auto)]

mod batch;
mod counter;
mod modules;
mod outputs;
mod texts;
mod value;
mod words;

pub use batch::Batch;
pub use counter::Counter;
pub use modules::{Module, Short, Stepped, is_line};
pub use outputs::Outputs;
pub use texts::{are_visible, text_and_number, u64_of_bytes};
pub use value::value_in;
pub use words::{Words, space_in};
