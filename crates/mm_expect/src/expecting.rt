//! The fold by lists.

ghost use Rattle.std.specs.Prelude.{◌≡◌, ◌≤◌, ◌++◌, ℕ, List, true, false, IfOk, OnOk, option_to_list};
ghost use Rattle.std.specs.Result.{result_ok};
ghost use Rattle.mm_bytes.specs.Limits.{last_position};
ghost use Rattle.mm_module.specs.Batches.{batch_of};
ghost use Rattle.mm_model.specs.Moves.{is_long};
ghost use Rattle.mm_call.specs.CallPremises.{right_messages};
ghost use Rattle.mm_call.specs.CallKind.{is_broken};
ghost use Rattle.mm_schedule.specs.Events.{Ask, Checkpoint, Power, Extend, event_of};
ghost use Rattle.mm_outcome.specs.Premises.{moves_after_stop};
ghost use Rattle.mm_outcome.specs.OneRun.{world_key};
ghost use Rattle.mm_expect.specs.ChronicleView.{listed_chronicle, ChronicleGoesByCall, ChronicleGoesByEvent, moves_if, ChronicleGoes};
ghost use Rattle.mm_expect.specs.ChronicleView.{chronicle_instance};
ghost use Rattle.mm_expect.specs.ExpectedState.{DecidesOffer, DecidesEvent, told_offer, right_offer};

use crate::calls::ClosingResult;
use crate::chronicle::Chronicle;
use crate::offers::{is_genuine_offer, right_body};
use crate::replies::{EventReply, closing_said, quiet, said_of};
use mm_bytes::{Bytes, Memory};
use mm_call::AskResult;
use mm_digest::Digest;
use mm_history::{Message, list_place};
use mm_model::{Refusal, is_long, normal};
use mm_module::Batch;
use mm_outcome::{CallPlan, offered, way, world_key};
use mm_platform::Stop;
use mm_schedule::{Cause, Event, Header, Offer, Reply};
use mm_seal::{Body, SealingKey};
use std::alloc::Global;
use std::marker::Model;

/// What an event comes to by lists.
#[derive(Drop)]
pub struct ExpectedOutcome {
    /// The reply that is expected.
    pub reply: Reply,
    /// The messages of the event, in the order of their numbers; one may have come before.
    pub messages: Vec<Message>,
    /// Whether each right offer of the event names a position of the history before it.
    pub is_genuine: bool,
}

/// A schedule followed by lists, which contracts see as the header, the history and the issued
/// snapshots.
#[derive(Drop)]
pub struct Expectation {
    alloc: Global,
    key: SealingKey,
    chronicle: Chronicle,
    issued: Vec<Bytes>,
}

impl Model for Expectation {
    ghost use Rattle.std.specs.Prelude.{◌≡◌};
    ghost use Rattle.mm_outcome.specs.OneRun.{world_key};
    ghost use Rattle.mm_expect.specs.ExpectedState.{ExpectedState};

    ghost Value = { ExpectedState };

    ghost view = { λ s. record {
      header = record { variant = s.chronicle.variant; «module» = s.chronicle.«module» };
      history = s.chronicle.history;
      issued = s.issued.items;
    } };

    ghost invariant = { λ s. s.key ≡ world_key };
}

// Lists the messages of what is asked, where the offer is right.
fn list_asked(
    chronicle: &mut Chronicle,
    offer: &Result<Body<'_>, Refusal>,
    batch: Batch<'_>,
    messages: &mut Vec<Message>,
) -> Result<(), Memory>
    ensures messages { OnOk result (messages.new.items
        ≡ messages.old.items ++ right_messages (chronicle_instance chronicle.old)
        (batch_of batch.entry) (result_ok (told_offer offer.now))) }
    ensures same { chronicle.new ≡ chronicle.old }
{
    match offer {
        Err(_) => Ok(()),
        Ok(body) => list_place(
            chronicle.alloc,
            &mut chronicle.known,
            &chronicle.barrier,
            &body.place,
            batch,
            messages,
        ),
    }
}

// Power is lost where a call is cut that is broken off, and comes back.
fn restore(chronicle: &mut Chronicle, stop: Stop, is_broken: bool)
    ensures { ChronicleGoes chronicle.old chronicle.new
        (moves_if is_broken (moves_after_stop stop)) }
{
    if let Stop::Cut(_) = stop
        && is_broken
    {
        chronicle.empty();
    }
}

// A call that offers bytes which are read so: what is said, and its messages.
fn call_and_list(
    chronicle: &mut Chronicle,
    key: &mut SealingKey,
    course: &CallPlan<'_>,
    read: &Result<Body<'_>, Refusal>,
    batch: Batch<'_>,
    messages: &mut Vec<Message>,
) -> Result<EventReply, Memory>
    requires key { key.old ≡ world_key }
    requires few { IfOk read.now (λ body. body.position ≤ last_position) }
    requires short { is_long (batch_of batch) ≡ false }
    ensures key { key.new ≡ key.old }
    ensures went { (bytes : List ℕ)
        → told_offer read.now ≡ right_offer (chronicle_instance chronicle.old) bytes
        → IfOk result (ChronicleGoesByCall
        (listed_chronicle chronicle.old messages.old.items)
        (listed_chronicle chronicle.new messages.new.items)
        course.now.stop course.now.meddles.now bytes (batch_of batch.entry)) }
{
    list_asked(chronicle, read, batch, messages)?;
    chronicle.forget_messages();
    let ended = chronicle.call(key, course, read, batch)?;
    chronicle.hand_messages(messages)?;
    let is_broken = is_broken(&ended);
    restore(chronicle, course.stop, is_broken);
    Ok(said_of(way(course.stop), ended))
}

// Whether a device's fault broke a call off.
fn is_broken(ended: &AskResult) -> bool
    ensures { result ≡ is_broken ended.now }
{
    match ended {
        AskResult::Broken { .. } => true,
        AskResult::Answered(_) | AskResult::Refused(_) => false,
    }
}

// An event that asks for a batch of what is offered, which is looked at once: for whether it is
// genuine, and for the call.
fn follow_ask(
    chronicle: &mut Chronicle,
    key: &mut SealingKey,
    issued: &[Bytes],
    offer: &Offer,
    course: &CallPlan<'_>,
    batch: Batch<'_>,
    messages: &mut Vec<Message>,
    is_genuine: &mut bool,
) -> Result<EventReply, Memory>
    requires key { key.old ≡ world_key }
    ensures key { key.new ≡ key.old }
    ensures decides { OnOk result
        (DecidesOffer (chronicle_instance chronicle.old) chronicle.old.history issued.now offer.now
        is_genuine.new) }
    ensures went { IfOk result (ChronicleGoesByEvent
        (listed_chronicle chronicle.old messages.old.items)
        (listed_chronicle chronicle.new messages.new.items) issued.now
        (Ask course.now.meddles.now course.now.stop offer.now (batch_of batch.entry))) }
{
    match offered(chronicle.alloc, issued, offer)? {
        None => {
            *is_genuine = true;
            Ok(quiet(Reply::No(Cause::Snapshot)))
        }
        Some(found) => {
            let read = right_body(chronicle, key, found.bytes());
            *is_genuine = is_genuine_offer(chronicle, offer, &read)?;
            if is_long(&batch) {
                return Ok(quiet(Reply::No(Cause::Long)));
            }
            call_and_list(chronicle, key, course, &read, normal(batch), messages)
        }
    }
}

// An event that closes the open segment.
fn follow_checkpoint(
    chronicle: &mut Chronicle,
    issued: &[Bytes],
    course: &CallPlan<'_>,
    messages: &mut Vec<Message>,
) -> Result<EventReply, Memory>
    ensures { IfOk result (ChronicleGoesByEvent
        (listed_chronicle chronicle.old messages.old.items)
        (listed_chronicle chronicle.new messages.new.items) issued.now
        (Checkpoint course.now.meddles.now course.now.stop)) }
{
    chronicle.forget_messages();
    let closing = chronicle.checkpoint(course)?;
    chronicle.hand_messages(messages)?;
    let is_broken = closing.stops();
    restore(chronicle, course.stop, is_broken);
    Ok(quiet(closing_said(way(course.stop), closing)))
}

// Power is lost and comes back.
fn follow_power(
    chronicle: &mut Chronicle,
    issued: &[Bytes],
    messages: &mut Vec<Message>,
) -> EventReply
    ensures { ChronicleGoesByEvent (listed_chronicle chronicle.old messages.old.items)
        (listed_chronicle chronicle.new messages.new.items) issued.now Power result }
{
    chronicle.empty();
    quiet(Reply::Power)
}

// Others extend the register.
fn follow_extend(
    chronicle: &mut Chronicle,
    issued: &[Bytes],
    value: &Digest,
    messages: &mut Vec<Message>,
) -> Result<EventReply, Memory>
    ensures { IfOk result (ChronicleGoesByEvent
        (listed_chronicle chronicle.old messages.old.items)
        (listed_chronicle chronicle.new messages.new.items) issued.now
        (Extend value.now.bytes)) }
{
    chronicle.forget_messages();
    chronicle.bring(value)?;
    chronicle.hand_messages(messages)?;
    Ok(quiet(Reply::Extended))
}

// One event, and whether it is genuine: each right offer of it names a position of the history.
fn follow(
    chronicle: &mut Chronicle,
    key: &mut SealingKey,
    issued: &[Bytes],
    event: &Event,
    messages: &mut Vec<Message>,
    is_genuine: &mut bool,
) -> Result<EventReply, Memory>
    requires key { key.old ≡ world_key }
    requires genuine { is_genuine.old ≡ true }
    ensures key { key.new ≡ key.old }
    ensures decides { OnOk result
        (DecidesEvent (chronicle_instance chronicle.old) chronicle.old.history issued.now
        (event_of event.now) is_genuine.new) }
    ensures went { IfOk result (ChronicleGoesByEvent
        (listed_chronicle chronicle.old messages.old.items)
        (listed_chronicle chronicle.new messages.new.items) issued.now
        (event_of event.now)) }
{
    match event {
        Event::Ask {
            meddles,
            stop,
            offer,
            request,
        } => {
            let course = CallPlan {
                stop: *stop,
                meddles: meddles.listed(),
            };
            let batch = Batch::One(request.as_slice());
            follow_ask(
                chronicle, key, issued, offer, &course, batch, messages, is_genuine,
            )
        }
        Event::Batch {
            meddles,
            stop,
            offer,
            text,
        } => {
            let course = CallPlan {
                stop: *stop,
                meddles: meddles.listed(),
            };
            let batch = Batch::Many(text.as_slice());
            follow_ask(
                chronicle, key, issued, offer, &course, batch, messages, is_genuine,
            )
        }
        Event::Checkpoint { meddles, stop } => {
            let course = CallPlan {
                stop: *stop,
                meddles: meddles.listed(),
            };
            follow_checkpoint(chronicle, issued, &course, messages)
        }
        Event::Power => Ok(follow_power(chronicle, issued, messages)),
        Event::Extend { value } => follow_extend(chronicle, issued, value, messages),
    }
}

// Keeps the snapshot that was handed out, if one was, and hands the reply on.
fn keep(issued: &mut Vec<Bytes>, said: EventReply) -> Result<Reply, Memory>
    ensures reply { IfOk result (λ reply. reply ≡ said.reply) }
    ensures issued { OnOk result (issued.new.items
        ≡ issued.old.items ++ option_to_list said.snapshot) }
{
    let EventReply { reply, snapshot } = said;
    match snapshot {
        None => Ok(reply),
        Some(snapshot) => match issued.push(snapshot) {
            Ok(()) => Ok(reply),
            Err(_) => Err(Memory),
        },
    }
}

impl Expectation {
    ghost use Rattle.std.specs.Prelude.{◌≡◌, ◌<◌, ◌≤◌, ◌+◌, ◌^◌, ◌++◌, [], ◌∷◌, length, IfOk, OnOk};
    ghost use Rattle.mm_bytes.specs.Limits.{last_position};
    ghost use Rattle.mm_model.specs.History.{total_of};
    ghost use Rattle.mm_model.specs.Standing.{issued_bytes};
    ghost use Rattle.mm_expect.specs.ChronicleView.{instance_with};
    ghost use Rattle.mm_schedule.specs.Events.{event_of};
    ghost use Rattle.mm_schedule.specs.Replies.{IsPrintable};
    ghost use Rattle.mm_outcome.specs.OneRun.{world_of};
    ghost use Rattle.mm_expect.specs.ExpectedState.{IsAfter, StandsLater, first_expected_state, expected_state_after, HearsEvent};
    ghost use Rattle.mm_expect.specs.ExpectedState.{DecidesLater};

    /// A schedule with this header, before its first event.
    pub fn new(alloc: Global, header: &Header) -> Result<Expectation, Memory>
        ensures first { IfOk result (λ it. it ≡ first_expected_state header.now) }
        ensures after { IfOk result (IsAfter header.now []) }
    {
        let chronicle = Chronicle::new(alloc, header.variant, header.module)?;
        Expectation::over(alloc, chronicle).begun()
    }

    // One over a history of which nothing is issued.
    fn over(alloc: Global, chronicle: Chronicle) -> Expectation
        ensures { result ≡ record {
          header = record { variant = chronicle.variant; «module» = chronicle.«module» };
          history = chronicle.history;
          issued = [];
        } }
    {
        Expectation {
            alloc,
            key: SealingKey::new(&world_key()),
            chronicle,
            issued: Vec::new(alloc),
        }
    }

    // The same, once the snapshot is issued at which the history stands.
    fn begun(mut self) -> Result<Expectation, Memory>
        requires { total_of self.history.batches ≤ last_position }
        ensures { IfOk result (λ it. it ≡ record self {
          issued = self.issued
              ++ issued_bytes (instance_with self.header.variant self.header.«module») self.history
              ∷ [];
        }) }
    {
        match self.issue() {
            Ok(()) => Ok(self),
            Err(memory) => Err(memory),
        }
    }

    // Issues the snapshot at which the history stands.
    fn issue(&mut self) -> Result<(), Memory>
        requires { total_of self.old.history.batches ≤ last_position }
        ensures { OnOk result (self.new ≡ record self.old {
          issued = self.old.issued
              ++ issued_bytes (instance_with self.old.header.variant self.old.header.«module»)
              self.old.history ∷ [];
        }) }
    {
        let snapshot = self.chronicle.snapshot(&mut self.key)?;
        self.issued.push(snapshot)?;
        Ok(())
    }

    /// Follows one event. After want of memory nothing is said of what stands.
    pub fn event(&mut self, event: &Event) -> Result<ExpectedOutcome, Memory>
        ensures state { OnOk result
            (self.new ≡ expected_state_after self.old (event_of event.now)) }
        ensures hears { IfOk result (HearsEvent (world_of self.old.header) self.old.history
            self.old.issued (event_of event.now)) }
        ensures after { OnOk result (StandsLater self.old (event_of event.now) self.new) }
        ensures decides { IfOk result
            (λ heard. DecidesLater self.old (event_of event.now) heard.is_genuine) }

        // The reply can be printed, and at most one snapshot is issued.
        ensures printable { IfOk result (λ heard. IsPrintable heard.reply) }
        ensures grows { OnOk result (length self.new.issued ≤ length self.old.issued + 1) }
    {
        let mut messages = Vec::new(self.alloc);
        let mut is_genuine = true;
        let said = follow(
            &mut self.chronicle,
            &mut self.key,
            self.issued.as_slice(),
            event,
            &mut messages,
            &mut is_genuine,
        )?;
        let reply = keep(&mut self.issued, said)?;
        Ok(ExpectedOutcome {
            reply,
            messages,
            is_genuine,
        })
    }

    /// How many requests are committed.
    pub fn committed(&self) -> u64
        ensures { result ≡ total_of self.now.history.batches }
    {
        self.chronicle.total()
    }

    /// How many snapshots were issued, the first of them included.
    pub fn issued(&self) -> u32
        requires { length self.now.issued < 2 ^ 32 }
        ensures { result ≡ length self.now.issued }
    {
        self.issued.len() as u32
    }
}
