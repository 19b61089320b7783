//! What an event is answered.

ghost use Rattle.std.specs.Prelude.{◌≡◌};
ghost use Rattle.mm_schedule.specs.Replies.{cause_text, way_text};

use mm_module::Outputs;

/// How a call was disturbed, by a cut, a drop or a fault: the word that its reply begins with.
#[derive(Clone, Copy)]
pub enum Way {
    /// Power was lost and came back.
    Cut,
    /// The call was broken off without a loss of power.
    Drop,
    /// A device answered that its step failed.
    Fault,
}

/// Why a call was refused.
#[derive(Clone, Copy)]
pub enum Cause {
    /// The text of the batch has more than 4,096 bytes, or there are more than 64 requests.
    Long,
    /// Power was lost inside an open segment.
    Lost,
    /// The offered bytes aren't a snapshot.
    Form,
    /// The offered snapshot is of another variant or module, or there are no segments to close.
    Kind,
    /// The offered state isn't one of the module's.
    State,
    /// The offered snapshot isn't sealed under the platform's key.
    Tag,
    /// The offered snapshot is neither the newest nor the one before a repeated batch.
    Stale,
    /// The position after the batch would exceed 2^48.
    Full,
    /// No segment is open.
    Segment,
    /// No snapshot with this number was issued.
    Snapshot,
    /// The cell is blank.
    Blank,
    /// The cell spells no live cell of this variant and module.
    Cell,
}

/// The answer to an event.
#[derive(Drop)]
pub enum Reply {
    /// A batch was committed, or repeated: its outputs, and the position before it.
    Told {
        again: bool,
        before: u64,
        outputs: Outputs,
    },
    /// The call was refused.
    No(Cause),
    /// A call was disturbed after its batch had been committed, up to this position.
    Kept {
        way: Way,
        position: u64,
    },
    /// A call was disturbed, and nothing was committed or closed. This is the line `cut lost`,
    /// `drop lost` or `fault lost`: what the call would have done is lost. The cause `lost` is
    /// another thing, an open segment that lost its power.
    Nothing {
        way: Way,
    },
    /// A call was disturbed after the segment had been closed.
    Closed {
        way: Way,
    },
    /// The segment was closed.
    Checkpointed,
    /// Power was lost and came back.
    Power,
    /// Others extended the register.
    Extended,
}

impl Way {
    /// The word that a reply begins with.
    pub fn text(self) -> &'static [u8]
        ensures { result.now ≡ way_text self }
    {
        match self {
            Way::Cut => b"cut",
            Way::Drop => b"drop",
            Way::Fault => b"fault",
        }
    }
}

impl Cause {
    /// The word that a refusal ends with.
    pub fn text(self) -> &'static [u8]
        ensures { result.now ≡ cause_text self }
    {
        match self {
            Cause::Long => b"long",
            Cause::Lost => b"lost",
            Cause::Form => b"form",
            Cause::Kind => b"kind",
            Cause::State => b"state",
            Cause::Tag => b"tag",
            Cause::Stale => b"stale",
            Cause::Full => b"full",
            Cause::Segment => b"segment",
            Cause::Snapshot => b"snapshot",
            Cause::Blank => b"blank",
            Cause::Cell => b"cell",
        }
    }
}
