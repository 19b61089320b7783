//! What a check says of receipts that aren't forged.

ghost use Rattle.mm_receipt.specs.ReceiptCheck.{ChecksAreHonest};

/// Where each output that `verify` accepts has its message among those that a run tagged under the
/// key, no line is `clash`, and each good pair is the request that was run at its position and what
/// was said to it.
pub fn checks_are_honest()
    ensures { ChecksAreHonest }
{}
