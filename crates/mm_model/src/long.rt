//! Which batches are too long to be asked.

ghost use Rattle.std.specs.Prelude.{◌≡◌, ◌==◌};
ghost use Rattle.std.specs.List.{list_any};
ghost use Rattle.mm_module.specs.Batches.{batch_of};
ghost use Rattle.mm_model.specs.Moves.{is_long, is_lf};

use mm_bytes::{LONGEST_REQUEST, MOST_MEMBERS};
use mm_module::Batch;

/// Whether the batch is refused as Long: its text, the requests joined by TAB, has more than 4,096
/// bytes or an LF, or there are more than 64 requests.
pub fn is_long(batch: &Batch<'_>) -> bool
    ensures { result ≡ is_long (batch_of batch.now) }
{
    let text = batch.text();
    if text.len() > LONGEST_REQUEST || has_lf(text) {
        return true;
    }
    batch.len() > MOST_MEMBERS
}

// Whether some byte is an LF.
fn has_lf(text: &[u8]) -> bool
    ensures { result ≡ list_any is_lf text.now }
{
    text.contains(&b'\n')
}
