//! The laws of a call in flight, whatever it asks: a call that is made a device step at a time, in
//! what others plan meanwhile, is the call in one go. There are definitions and proofs here, and no
//! code.
#![tactic(auto)]
