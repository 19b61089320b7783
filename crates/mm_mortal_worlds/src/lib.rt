//! A world of platforms on which programs are killed at any moment: it is a world in which each of
//! them ended there, and so it is one.
#![tactic(auto)]

mod laws;

pub use laws::{
    basic_mortal_world_is_one, mortal_world_is_one_or_evidence, mortal_worlds_end,
    mortal_worlds_go_on, mortal_worlds_go_on_or_evidence, mortal_worlds_keep_promises,
    opt_mortal_world_is_one, opt_mortal_world_is_one_or_evidence,
};
