//! The callers of mm_at_work, over devices in memory, of calls, of whole programs and of commands.
#![tactic(auto)]

#[cfg(test)]
mod programs;
