//! Two sides that a module moves between: what a schedule of both comes to, by lists, which know no
//! digest, and by digests, which know no list; what is asked of it; and the laws that join the two.
//! Nothing here moves a module: the definitions stand apart from the code that is proved against
//! them.
#![tactic(auto)]

mod laws;

pub use laws::{
    a_move_meets_the_premises, both_go_on, both_sides_agree, one_side_is_live,
    own_offers_are_genuine, pair_fronts_are_longest, pairs_are_decided, roles_stay_in_order,
    sides_issue_names, sides_run_as_one,
};
