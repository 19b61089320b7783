//! A client of the host program: what he sends behind each stop, and that each of his requests is
//! run once.
#![tactic(auto)]

mod careful_client;
mod heard;
mod laws;
mod local;
mod output;
mod remembering;
mod serving;

pub use careful_client::CarefulClient;
pub use heard::HeardReply;
pub use laws::{
    asking_tells, basic_clients_are_served_once, basic_turns_are_served_once,
    careful_clients_run_once, opt_clients_are_served_once, opt_turns_are_served_once,
    own_outputs_tell, replies_tell_requests, sessions_send_replies, whole_sessions_tell_all,
};
pub use local::{Carried, Connection, LocalFault, LocalProgram, serve_local_client};
pub use output::replies_in;
pub use remembering::{Client, HeardSession};
pub use serving::{Service, live_as_client};
