//! What receipts prove of a run.

ghost use Rattle.mm_receipted.specs.ReceiptListing.{ReceiptsAreTrue, ReceiptsDoNotClash};

/// A receipt that `verify` accepts, and whose message was tagged in a run, tells the request at its
/// position and what was said to it.
pub fn receipts_are_true()
    ensures { ReceiptsAreTrue }
{}

/// Two such receipts of one position are of one request and one output.
pub fn receipts_do_not_clash()
    ensures { ReceiptsDoNotClash }
{}
