//! A history with what it comes to.

ghost use Rattle.std.specs.Prelude.{◌≡◌};

use mm_bytes::{Bytes, Memory};
use mm_call::{BatchRun, run_batch};
use mm_digest::{Digest, Variant, zero};
use mm_history::{
    HistoryLists, HistoryMarks, KnownDigests, Message, Waymarks, anchored_message, joined,
    list_known,
};
use mm_module::{Batch, Module, Outputs};
use mm_modules::AnyModule;
use mm_outcome::world_barrier;
use std::alloc::Global;
use std::marker::Model;
use std::mem;

/// A history as lists, and beside it what would take long to find again. Contracts see the variant,
/// the module and the history, and the messages of the moves since they were last taken out.
#[derive(Drop)]
pub(crate) struct Chronicle {
    pub(crate) alloc: Global,
    pub(crate) variant: Variant,
    pub(crate) module: AnyModule,
    pub(crate) barrier: [u8; 32],
    pub(crate) lists: HistoryLists,
    pub(crate) marks: HistoryMarks,
    /// The module's state.
    pub(crate) state: Bytes,
    /// What the module said to the last batch.
    pub(crate) said: Outputs,
    pub(crate) waymarks: Waymarks,
    pub(crate) known: KnownDigests,
    pub(crate) extending: Vec<Message>,
    pub(crate) closing: Vec<Message>,
}

impl Model for Chronicle {
    ghost use Rattle.mm_expect.specs.ChronicleView.{ChronicleView, IsKept};

    ghost Value = { ChronicleView };

    ghost view = { λ s. record {
      variant = s.variant;
      «module» = s.«module»;
      history = s.lists;
      extending = s.extending.items;
      closing = s.closing.items;
    } };

    ghost invariant = { λ s. IsKept s.variant s.«module» s.barrier s.lists s.marks s.state
        s.said s.waymarks };
}

impl Chronicle {
    ghost use Rattle.std.specs.Prelude.{◌≡◌, ◌++◌, ◌+◌, ◌<◌, ◌^◌, [], ◌∷◌, true, false, IfOk, OnOk};
    ghost use Rattle.mm_digest.specs.declared.variant.Variant.TheVariants.{Basic, Opt};
    ghost use Rattle.mm_module.specs.Batch.{size_of};
    ghost use Rattle.mm_module.specs.Batches.{batch_of};
    ghost use Rattle.mm_modules.specs.Modules.{meaning_of};
    ghost use Rattle.mm_model.specs.Chains.{guard};
    ghost use Rattle.mm_model.specs.Moves.{is_long};
    ghost use Rattle.mm_model.specs.History.{Move, Commit, Foreign, Placed, Reset, Close, Power, history_after_commit, register_value_of};
    ghost use Rattle.mm_model.specs.History.{total_of, cell_digest_of};
    ghost use Rattle.mm_expect.specs.ChronicleView.{first_chronicle, ChronicleGoes, chronicle_instance, extension_messages, segment_closing_messages, state_after_batch, outputs_of_batch};

    /// The first history of a variant and a module.
    pub(crate) fn new(
        alloc: Global,
        variant: Variant,
        module: AnyModule,
    ) -> Result<Chronicle, Memory>
        ensures { IfOk result (λ it. it ≡ first_chronicle variant «module») }
    {
        let state = module.first_state(alloc)?;
        let barrier = match variant {
            Variant::Basic => zero().bytes,
            Variant::Opt => world_barrier(),
        };
        let lists = HistoryLists::new(alloc);
        let marks = HistoryMarks::first(variant, module.id());
        let waymarks = Waymarks::first(alloc, &lists, &marks, variant, state.as_slice())?;
        let known = KnownDigests::new(alloc, variant)?;
        Ok(Chronicle {
            alloc,
            variant,
            module,
            barrier,
            lists,
            marks,
            state,
            said: Outputs::new(alloc),
            waymarks,
            known,
            extending: Vec::new(alloc),
            closing: Vec::new(alloc),
        })
    }

    /// Whether a state is one of the module's. That at which the history stands is, and isn't read
    /// for it.
    pub(crate) fn state_is_spelled(&self, state: &[u8]) -> bool
        ensures { result ≡ (meaning_of self.now.«module»).is_spelled state.now }
    {
        if self.state.as_slice() == state {
            return true;
        }
        self.module.state_is_spelled(state)
    }

    /// Forgets the messages.
    pub(crate) fn forget_messages(&mut self)
        ensures { self.new ≡ record self.old { extending = []; closing = [] } }
    {
        self.extending.clear();
        self.closing.clear();
    }

    /// Moves the messages behind these: those that extend the register, and then those that close a
    /// segment.
    pub(crate) fn hand_messages(&mut self, messages: &mut Vec<Message>) -> Result<(), Memory>
        ensures history { self.new.history ≡ self.old.history }
        ensures variant { self.new.variant ≡ self.old.variant }
        ensures module { self.new.«module» ≡ self.old.«module» }
        ensures messages { OnOk result
            (messages.new.items ≡ messages.old.items ++ (self.old.extending ++ self.old.closing)) }
    {
        messages.append(&mut self.extending)?;
        messages.append(&mut self.closing)?;
        Ok(())
    }

    // Lists the message by which the register takes in a value: none in Basic, which has no
    // register.
    #[tactic(auto, unfolding(mm_digest::specs::Messages::extended_digest_of))]
    fn tell_extension(&mut self, value: &Digest) -> Result<(), Memory>
        ensures { OnOk result (self.new ≡ record self.old {
          extending = self.old.extending
              ++ extension_messages self.old.variant
              (register_value_of (chronicle_instance self.old) self.old.history) value.now.bytes;
        }) }
    {
        match self.variant {
            Variant::Basic => Ok(()),
            Variant::Opt => {
                let next = self.known.extended(&self.marks.register, value);
                list_known(
                    joined(self.alloc, &self.marks.register.bytes, &value.bytes),
                    &next,
                    &mut self.extending,
                )
            }
        }
    }

    /// Others put a value into the register.
    pub(crate) fn bring(&mut self, value: &Digest) -> Result<(), Memory>
        ensures { OnOk result (ChronicleGoes self.old self.new (Foreign value.now.bytes ∷ [])) }
    {
        self.tell_extension(value)?;
        self.lists.take_in(value)?;
        self.marks = self.marks.with_value(&mut self.known, value);
        Ok(())
    }

    // The value by which a batch extends the register.
    fn guard_of(&mut self, batch: Batch<'_>) -> Digest
        ensures value { result.bytes
            ≡ guard (chronicle_instance self.old).barrier (batch_of batch.entry) }
        ensures same { self.new ≡ self.old }
    {
        self.known.guard(&self.barrier, batch)
    }

    /// The core puts the guard of a batch into the register, which isn't committed yet.
    pub(crate) fn place(&mut self, batch: Batch<'_>) -> Result<(), Memory>
        ensures { OnOk result
            (ChronicleGoes self.old self.new (Placed (batch_of batch.entry) ∷ [])) }
    {
        let value = self.guard_of(batch);
        self.bring(&value)
    }

    /// The register is emptied: by the core, or as power is lost.
    pub(crate) fn empty(&mut self)
        ensures reset { ChronicleGoes self.old self.new (Reset ∷ []) }
        ensures power { ChronicleGoes self.old self.new (Power ∷ []) }
    {
        self.lists.empty();
        self.marks = self.marks.emptied(self.lists.is_clear());
    }

    // Lists the message by which a segment is closed: none in Basic, which has no segments.
    #[tactic(auto, unfolding(mm_digest::specs::Messages::anchored_digest_of))]
    fn tell_closing(&mut self) -> Result<(), Memory>
        ensures { OnOk result (self.new ≡ record self.old {
          closing = self.old.closing
              ++ segment_closing_messages self.old.variant
              (cell_digest_of (chronicle_instance self.old) self.old.variant self.old.history)
              (register_value_of (chronicle_instance self.old) self.old.history);
        }) }
    {
        match self.variant {
            Variant::Basic => Ok(()),
            Variant::Opt => {
                let shut = self.known.anchored(&self.marks.cell, &self.marks.register);
                list_known(
                    anchored_message(self.alloc, &self.marks.cell, &self.marks.register),
                    &shut,
                    &mut self.closing,
                )
            }
        }
    }

    /// The open segment is closed.
    pub(crate) fn close(&mut self) -> Result<(), Memory>
        ensures { OnOk result (ChronicleGoes self.old self.new (Close ∷ [])) }
    {
        self.tell_closing()?;
        let has_value = self.lists.has_value();
        let is_bare = self.lists.is_bare();
        self.lists.close()?;
        self.marks = self
            .marks
            .closed(&mut self.known, self.variant, has_value, is_bare);
        self.waymarks.keep_stage(&self.lists, &self.marks)
    }

    // Keeps the position where the history stands.
    fn keep_position(&mut self) -> Result<(), Memory>
        ensures { self.new ≡ self.old }
    {
        self.waymarks.keep(
            self.alloc,
            &self.lists,
            &self.marks,
            self.variant,
            self.state.as_slice(),
        )
    }

    /// A batch is committed.
    pub(crate) fn commit(&mut self, batch: Batch<'_>) -> Result<(), Memory>
        requires { is_long (batch_of batch) ≡ false }
        ensures { OnOk result
            (ChronicleGoes self.old self.new (Commit (batch_of batch.entry) ∷ [])) }
    {
        let size = batch.len() as u64;
        if size > u64::MAX - self.marks.total {
            return Err(Memory);
        }
        self.run(batch, size)?;
        self.keep_position()
    }

    // A batch of this size is run and committed, whose position isn't kept yet.
    fn run(&mut self, batch: Batch<'_>, size: u64) -> Result<(), Memory>
        requires short { is_long (batch_of batch) ≡ false }
        requires size { size ≡ size_of (batch_of batch) }
        requires fits { total_of self.old.history.batches + size < 2 ^ 64 }
        ensures { OnOk result
            (ChronicleGoes self.old self.new (Commit (batch_of batch.entry) ∷ [])) }
    {
        let mut ran = run_batch(self.alloc, &self.module, self.state.as_slice(), batch)?;
        self.add(batch, size, &mut ran)
    }

    // A batch of this size is committed, which ran so.
    fn add(&mut self, batch: Batch<'_>, size: u64, ran: &mut BatchRun) -> Result<(), Memory>
        requires short { is_long (batch_of batch) ≡ false }
        requires size { size ≡ size_of (batch_of batch) }
        requires fits { total_of self.old.history.batches + size < 2 ^ 64 }
        requires state { ran.old.state ≡ state_after_batch self.old (batch_of batch) }
        requires said { ran.old.outputs ≡ outputs_of_batch self.old (batch_of batch) }
        ensures { OnOk result
            (ChronicleGoes self.old self.new (Commit (batch_of batch.entry) ∷ [])) }
    {
        match self.variant {
            Variant::Basic => self.link(batch, size, ran),
            Variant::Opt => {
                if self.lists.is_open() {
                    self.grow(batch, size, ran)
                } else {
                    self.begin_segment(batch, size, ran)
                }
            }
        }
    }

    // Basic: likewise.
    fn link(&mut self, batch: Batch<'_>, size: u64, ran: &mut BatchRun) -> Result<(), Memory>
        requires variant { self.old.variant ≡ Basic }
        requires short { is_long (batch_of batch) ≡ false }
        requires size { size ≡ size_of (batch_of batch) }
        requires fits { total_of self.old.history.batches + size < 2 ^ 64 }
        requires state { ran.old.state ≡ state_after_batch self.old (batch_of batch) }
        requires said { ran.old.outputs ≡ outputs_of_batch self.old (batch_of batch) }
        ensures { OnOk result
            (ChronicleGoes self.old self.new (Commit (batch_of batch.entry) ∷ [])) }
    {
        self.lists.add(batch)?;
        self.marks = self.marks.linked(batch, size);
        mem::swap(&mut self.state, &mut ran.state);
        mem::swap(&mut self.said, &mut ran.outputs);
        Ok(())
    }

    // Opt, inside a segment: likewise.
    fn grow(&mut self, batch: Batch<'_>, size: u64, ran: &mut BatchRun) -> Result<(), Memory>
        requires variant { self.old.variant ≡ Opt }
        requires inside { self.old.history.is_open ≡ true }
        requires short { is_long (batch_of batch) ≡ false }
        requires size { size ≡ size_of (batch_of batch) }
        requires fits { total_of self.old.history.batches + size < 2 ^ 64 }
        requires state { ran.old.state ≡ state_after_batch self.old (batch_of batch) }
        requires said { ran.old.outputs ≡ outputs_of_batch self.old (batch_of batch) }
        ensures { OnOk result
            (ChronicleGoes self.old self.new (Commit (batch_of batch.entry) ∷ [])) }
    {
        let value = self.guard_of(batch);
        self.tell_extension(&value)?;
        self.add_inside(batch, size, ran, &value)
    }

    // The same, whose message is listed, by the batch's guard.
    fn add_inside(
        &mut self,
        batch: Batch<'_>,
        size: u64,
        ran: &mut BatchRun,
        value: &Digest,
    ) -> Result<(), Memory>
        requires variant { self.old.variant ≡ Opt }
        requires short { is_long (batch_of batch) ≡ false }
        requires size { size ≡ size_of (batch_of batch) }
        requires fits { total_of self.old.history.batches + size < 2 ^ 64 }
        requires state { ran.old.state ≡ state_after_batch self.old (batch_of batch) }
        requires said { ran.old.outputs ≡ outputs_of_batch self.old (batch_of batch) }
        requires guards { value.now.bytes
            ≡ guard (chronicle_instance self.old).barrier (batch_of batch) }
        ensures { OnOk result
            (self.new ≡ record self.old {
              history = history_after_commit Opt true self.old.history (batch_of batch.entry);
            }) }
    {
        self.lists.add_inside(batch)?;
        self.marks = self.marks.grown(&mut self.known, size, value);
        mem::swap(&mut self.state, &mut ran.state);
        mem::swap(&mut self.said, &mut ran.outputs);
        Ok(())
    }

    // Opt, with no segment open: likewise.
    fn begin_segment(
        &mut self,
        batch: Batch<'_>,
        size: u64,
        ran: &mut BatchRun,
    ) -> Result<(), Memory>
        requires variant { self.old.variant ≡ Opt }
        requires outside { self.old.history.is_open ≡ false }
        requires short { is_long (batch_of batch) ≡ false }
        requires size { size ≡ size_of (batch_of batch) }
        requires fits { total_of self.old.history.batches + size < 2 ^ 64 }
        requires state { ran.old.state ≡ state_after_batch self.old (batch_of batch) }
        requires said { ran.old.outputs ≡ outputs_of_batch self.old (batch_of batch) }
        ensures { OnOk result
            (ChronicleGoes self.old self.new (Commit (batch_of batch.entry) ∷ [])) }
    {
        let value = self.known.guard(&self.barrier, batch);
        let is_alone = self.lists.is_alone();
        self.lists.open(batch)?;
        let register = self.lists.register(&self.barrier);
        self.marks = self.marks.opened(size, &value, register, is_alone);
        mem::swap(&mut self.state, &mut ran.state);
        mem::swap(&mut self.said, &mut ran.outputs);
        Ok(())
    }
}
