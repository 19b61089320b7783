//! A client over a program in memory is served.
#![tactic(auto)]

#[cfg(test)]
mod clients;
