//! A program that is killed at any of its device calls.
#![tactic(auto)]

ghost use Rattle.mm_killed.specs.DeviceCalls.{AnyProgramStops};

/// A program, as a tree of calls of its devices, that is killed at any of them leaves what the same
/// program leaves over devices of which that call fails, and all behind it.
pub fn any_program_stops<R>()
    ensures { AnyProgramStops R }
{}
