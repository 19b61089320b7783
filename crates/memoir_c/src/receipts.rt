//! Receipts.

ghost use Rattle.std.specs.Prelude.{◌≡◌};
ghost use Rattle.memoir_c.specs.PlainAnswers.{receipt_status, verification_status};
ghost use Rattle.memoir_c.specs.Numbers.{number_of};

use crate::said::ReturnStatus;
use mm_bytes::LONGEST_REQUEST;
use mm_model::Refusal;
use mm_receipted::{NotReceipt, verify};

/// Whether an output is the receipt, under a key of 32 bytes, of what was said to a request at this
/// position: Done, or Form or Tag.
#[unsafe(no_mangle)]
pub extern "C" fn memoir_receipt_verify(
    key: &[u8],
    position: u64,
    request: &[u8],
    output: &[u8],
) -> u32
    ensures { result ≡ number_of (verification_status key.now position request.now output.now) }
{
    verdict(key, position, request, output).code()
}

fn verdict(key: &[u8], position: u64, request: &[u8], output: &[u8]) -> ReturnStatus
    ensures { result ≡ verification_status key.now position request.now output.now }
{
    let Ok(key) = <&[u8; 32]>::try_from(key) else {
        return ReturnStatus::NoKey;
    };
    if request.len() > LONGEST_REQUEST {
        return ReturnStatus::Refused(Refusal::Long);
    }
    said_of(verify(key, position, request, output))
}

fn said_of(verified: Result<(), NotReceipt>) -> ReturnStatus
    ensures { result ≡ receipt_status verified }
{
    match verified {
        Ok(()) => ReturnStatus::Done,
        Err(NotReceipt::Form) => ReturnStatus::Refused(Refusal::Form),
        Err(NotReceipt::Tag) => ReturnStatus::Refused(Refusal::Tag),
    }
}
