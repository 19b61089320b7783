//! A call that asks for requests under one commit.

ghost use Rattle.std.specs.Prelude.{◌≡◌, ◌≢◌, ◌+◌, ◌<◌, ◌≤◌, ◌++◌, [], ◌∷◌, length, IfOk, OnOk};
ghost use Rattle.mm_module.specs.Batch as batches;
ghost use Rattle.mm_told.specs.ToldAskPromise.{ToldBatchPromise};
ghost use Rattle.mm_told.specs.HostLaws.{worn_host};
ghost use Rattle.memoir_c.specs.CallReplies.{BatchGives, IsBatchTold, IsLined, lines_of, reply_room};
ghost use Rattle.memoir_c.specs.PlainAnswers.{room_with};

use crate::asking::{Instance, Reply, taken, tell};
use crate::made::{MOST_STEPS, Step};
use crate::said::ReturnStatus;
use mm_bytes::{Bytes, Memory};
use mm_call::KeptKey;
use mm_digest::Variant;
use mm_model::{Answer, BatchAnswer, Refusal};
use mm_module::{Batch, Module, Outputs};
use mm_told::{MadeStep, StepsOutcome, ask_batch};
use std::alloc::Global;

/// What a call comes to with these steps made, that asks for the requests of this text, between
/// bytes TAB. As `memoir_ask`, of all of them: what is said to each is a line of the output.
#[unsafe(no_mangle)]
pub extern "C" fn memoir_ask_batch(
    alloc: Global,
    instance: &Instance,
    steps: &[Step],
    offer: &[u8],
    requests: &[u8],
    reply: &mut Reply,
    room: &mut [u8],
) -> u32
    ensures told { IsBatchTold instance.now steps.now offer.now requests.now
        (reply_room reply.old room.old) (reply_room reply.new room.new) result }
    ensures unwritten { result ≢ 0 → room.new ≡ room.old }
    ensures unsaid { result ≢ 0 → result ≢ 16 → reply.new ≡ reply.old }
    ensures few { result ≡ 16 → length steps.now < 5 }
    ensures enough { room_with instance.now.«module» + 258112 ≤ length room.old → result ≢ 36 }
{
    let asked = asked(alloc, instance, steps, offer, requests);
    tell(asked, reply, room).code()
}

// What the call comes to.
fn asked(
    alloc: Global,
    instance: &Instance,
    steps: &[Step],
    offer: &[u8],
    requests: &[u8],
) -> Result<StepsOutcome<Result<Answer, Refusal>>, ReturnStatus>
    ensures { BatchGives instance.now steps.now offer.now requests.now result }
{
    let mut made = [MadeStep::ResetRegister(Ok(())); MOST_STEPS];
    let (variant, module) = taken(instance, steps, &mut made)?;
    let made = &made[..steps.len()];
    let came = come_to(alloc, variant, &module, made, offer, requests);
    Ok(lined(alloc, came))
}

// The call with these steps made.
fn come_to<M: Module>(
    alloc: Global,
    variant: Variant,
    module: &M,
    made: &[MadeStep],
    offer: &[u8],
    requests: &[u8],
) -> StepsOutcome<Result<BatchAnswer, Refusal>>
    ensures { ToldBatchPromise variant (M.meaning «module».now) (worn_host made.now) made.now
        offer.now (batches.Many requests.now) result }
{
    let mut keys = KeptKey::new();
    let batch = Batch::Many(requests);
    ask_batch(alloc, variant, module, made, offer, batch, &mut keys)
}

// The same, with what is said as lines.
fn lined(
    alloc: Global,
    came: StepsOutcome<Result<BatchAnswer, Refusal>>,
) -> StepsOutcome<Result<Answer, Refusal>>
    ensures { IsLined came result }
{
    match came {
        StepsOutcome::Ended(Ok(answer)) => with_lines(alloc, answer),
        StepsOutcome::Ended(Err(refusal)) => StepsOutcome::Ended(Err(refusal)),
        StepsOutcome::Next(step) => StepsOutcome::Next(step),
        StepsOutcome::Differs => StepsOutcome::Differs,
        StepsOutcome::Memory => StepsOutcome::Memory,
    }
}

fn with_lines(alloc: Global, answer: BatchAnswer) -> StepsOutcome<Result<Answer, Refusal>>
    ensures { IsLined (StepsOutcome.Ended (Ok answer)) result }
{
    let BatchAnswer {
        again,
        position,
        outputs,
        snapshot,
    } = answer;
    match lines(alloc, &outputs) {
        Err(_) => StepsOutcome::Memory,
        Ok(output) => StepsOutcome::Ended(Ok(Answer {
            again,
            position,
            output,
            snapshot,
        })),
    }
}

// The outputs, as lines.
fn lines(alloc: Global, outputs: &Outputs) -> Result<Bytes, Memory>
    ensures { IfOk result (λ text. text ≡ lines_of outputs.now) }
{
    let mut text = Bytes::new(alloc);
    put_lines(&mut text, outputs)?;
    Ok(text)
}

// Puts them where nothing is.
fn put_lines(text: &mut Bytes, outputs: &Outputs) -> Result<(), Memory>
    requires { text.old ≡ [] }
    ensures { OnOk result (text.new ≡ lines_of outputs.now) }
{
    'outputs: for i in 0..outputs.len() {
        if let Some(output) = outputs.get(i) {
            put_line(text, output)?;
        }
    }
    Ok(())
}

// Puts a line behind a text.
fn put_line(text: &mut Bytes, output: &[u8]) -> Result<(), Memory>
    ensures { OnOk result (text.new ≡ text.old ++ (output.now ++ 10 ∷ [])) }
{
    text.append(output)?;
    text.push(b'\n')
}
