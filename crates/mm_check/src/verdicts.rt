//! What a check comes to.

/// Whether the premises of the headline hold of a run; else the first that doesn't, in this order.
/// Messages and events are numbered from 1.
#[derive(Clone, Copy)]
pub enum Premise {
    /// They hold.
    Held,
    /// Two different messages have one digest: the lowest such number, and the lowest other one.
    Shared { first: u32, second: u32 },
    /// The digest of this message is zero.
    Zero { message: u32 },
    /// At this event others extend the register by the guard of a batch that the run asks.
    Secured { event: u32 },
    /// The offer of this event is sealed under the key and names no position.
    Forged { event: u32 },
}

/// Whether the lines that were tested are those that are expected.
#[derive(Clone, Copy)]
pub enum Agreement {
    /// They are.
    Agree,
    /// This line, from 1, is the first that differs, is missing or is too many.
    Differ { line: u32 },
}

/// What a check comes to.
#[derive(Clone, Copy)]
pub struct Verdicts {
    pub premise: Premise,
    pub agreement: Agreement,
}
