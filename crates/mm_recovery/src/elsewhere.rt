//! What is done where a module doesn't live: a law, the contract of a function that does nothing.

ghost use Rattle.mm_recovery.specs.HostStanding.{CallsAreRefusedElsewhere, CheckpointsAreRefusedElsewhere};

/// Over a platform whose cell is none of the variant and of the module, each call for a batch is
/// refused, and leaves the cell; and so is a checkpoint, where the cell is none of Opt. So it is
/// where the cell is blank, where a module is awaited, and where one has left.
pub fn nothing_is_done_elsewhere()
    ensures calls { CallsAreRefusedElsewhere }
    ensures checkpoints { CheckpointsAreRefusedElsewhere }
{}
