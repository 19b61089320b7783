//! The steps of a call in flight, whatever it asks.

ghost use Rattle.mm_machine.specs.OpSteps.{MayGoOn};
ghost use Rattle.mm_steps.specs.FlightKind.{FlightBreaksAs, MayStepOn, FlightStepsAs, BreaksNext};

use mm_bytes::Memory;
use mm_machine::{OpCall, StepResult, advance, finish};
use mm_platform::{MemPlatform, Stop};
use mm_seal::KeptKey;
use mm_world::{CallReport, CallTeller, settled};

/// What a step of a call came to.
#[derive(Drop)]
pub enum FlightOutcome<A> {
    /// The call goes on, with its next step.
    Going(OpCall<A>),
    /// The call is over, and its plan with it.
    Over(CallReport),
}

/// Makes the next step of a call in flight. Only a reading step may want memory: then it was made,
/// and the call is over with nothing done.
pub fn step<O: CallTeller>(
    op: &O,
    platform: &mut MemPlatform,
    call: OpCall<O::Answer>,
    keys: &mut KeptKey,
) -> Result<FlightOutcome<O::Answer>, Memory>
    requires room { MayGoOn call platform.old }
    ensures steps { FlightStepsAs (O.asked op.now) (O.tells op.now) (O.writes op.now)
        call platform.old
        platform.new result }
    ensures room { MayStepOn result platform.new }
{
    let coming = Stop::Fail {
        step: call.next_step(op.write_step()) + 1,
        done: false,
    };
    match advance(op, call, platform, keys) {
        StepResult::Going(call) => Ok(FlightOutcome::Going(call)),
        StepResult::Over(ended) => match settled(op, platform, coming, ended) {
            Ok(called) => Ok(FlightOutcome::Over(called)),
            Err(memory) => Err(memory),
        },
    }
}

/// Makes the next step of a call in flight with this stop at it, which breaks the call off. Takes
/// no memory.
pub fn break_off<O: CallTeller>(
    op: &O,
    platform: &mut MemPlatform,
    call: OpCall<O::Answer>,
    stop: Stop,
    keys: &mut KeptKey,
) -> CallReport
    requires room { MayGoOn call platform.old }
    requires next { BreaksNext stop platform.old }
    ensures { FlightBreaksAs (O.asked op.now) (O.tells op.now) call platform.old platform.new stop
        result }
{
    platform.stop_with(stop);
    let ended = finish(op, call, platform, keys);
    match settled(op, platform, stop, ended) {
        Ok(called) => called,
        Err(_) => unreachable!(),
    }
}
