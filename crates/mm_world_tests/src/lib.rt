//! Callers whose module moves come to an end over memory, and tell what they should: positions go
//! on from platform to platform, and what is put back where the module was is refused.
#![tactic(auto)]

#[cfg(test)]
mod crossings;
#[cfg(test)]
mod journeys;
