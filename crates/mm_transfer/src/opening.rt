//! The first line of a transfer.

ghost use Rattle.mm_transfer.specs.Stage.{transfer_heads};
ghost use Rattle.mm_transfer.specs.StageLaws.{leads_nowhere, leaves_none};

use crate::read::read_first;
use crate::stage::TransferStage;
use mm_play::{Heading, LineRefusal, ReplyFault};
use std::alloc::Global;

/// A transfer before its first line.
#[derive(Drop)]
pub struct FirstLine {}

impl Heading<TransferStage> for FirstLine {
    ghost heads = { transfer_heads };

    fn take_line(
        &mut self,
        alloc: Global,
        line: &[u8],
    ) -> Result<Option<TransferStage>, ReplyFault> {
        let header = match read_first(line) {
            Some(header) => header,
            None => return Err(ReplyFault::Refused(LineRefusal::Bad)),
        };
        match TransferStage::new(alloc, &header) {
            Ok(stage) => Ok(Some(stage)),
            Err(_) => Err(ReplyFault::Memory),
        }
    }

    ghost fewer = { leads_nowhere };

    ghost few = { leaves_none };
}
