//! The callers of mm_at_work that lead a life over a copy of the pages.
#![tactic(auto)]

#[cfg(test)]
mod copies;
