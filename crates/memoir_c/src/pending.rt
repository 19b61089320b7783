//! The record of a request that is pending.

ghost use Rattle.std.specs.Prelude.{◌≡◌, ◌≢◌, ◌≤◌, ◌+◌, IfErr, IfOk, length as list_length};
ghost use Rattle.mm_bytes.specs.Limits.{longest_request};
ghost use Rattle.std.specs.Option.{option_map};
ghost use Rattle.mm_store.specs.PendingRecord.{ReadsPendingRecord, pending_spelling, pending_of};
ghost use Rattle.memoir_c.specs.Numbers.{number_of, HasNoRecord, PutsInFront, ReadsRecordOrNone, ReadsBack, RecordsRequest, room_state};

use crate::said::ReturnStatus;
use mm_bytes::{Bytes, LAST_POSITION};
use mm_model::Refusal;
use mm_module::is_line;
use mm_store::{PendingRequest, pending_bytes, read_pending};
use std::alloc::Global;

/// Writes the record of the request that is to take this position, and its length: 48 bytes more
/// than the request's.
#[unsafe(no_mangle)]
pub extern "C" fn memoir_pending(
    alloc: Global,
    position: u64,
    request: &[u8],
    length: &mut usize,
    room: &mut [u8],
) -> u32
    ensures records { RecordsRequest position request.now
        (room_state room.old room.new length.old length.new) result }
    ensures unwritten { result ≢ 0 → room.new ≡ room.old }
    ensures unsaid { result ≢ 0 → length.new ≡ length.old }
    ensures enough { 48 + list_length request.now ≤ list_length room.old → result ≢ 36 }
{
    put_record(alloc, position, request, length, room).code()
}

fn put_record(
    alloc: Global,
    position: u64,
    request: &[u8],
    length: &mut usize,
    room: &mut [u8],
) -> ReturnStatus
    ensures records { RecordsRequest position request.now
        (room_state room.old room.new length.old length.new) (number_of result) }
    ensures unwritten { result ≢ ReturnStatus.Done → room.new ≡ room.old }
    ensures unsaid { result ≢ ReturnStatus.Done → length.new ≡ length.old }
{
    match record(alloc, position, request) {
        Err(said) => said,
        Ok(bytes) => put(bytes.as_slice(), length, room),
    }
}

// The record's bytes.
fn record(alloc: Global, position: u64, request: &[u8]) -> Result<Bytes, ReturnStatus>
    ensures ok { IfOk result (λ bytes.
        bytes ≡ pending_spelling (record { position = position; request = request.now })) }
    ensures err { IfErr result (λ says. HasNoRecord position request.now says) }
{
    if position == 0 || position > LAST_POSITION {
        return Err(ReturnStatus::NoPosition);
    }
    if !is_line(request) {
        return Err(ReturnStatus::Refused(Refusal::Long));
    }
    match pending_bytes(alloc, position, request) {
        Err(_) => Err(ReturnStatus::Refused(Refusal::Memory)),
        Ok(bytes) => Ok(bytes),
    }
}

/// Writes these bytes and their length, where there is room.
pub fn put(bytes: &[u8], length: &mut usize, room: &mut [u8]) -> ReturnStatus
    ensures puts { PutsInFront bytes.now
        (room_state room.old room.new length.old length.new) result }
    ensures unwritten { result ≢ ReturnStatus.Done → room.new ≡ room.old }
    ensures unsaid { result ≢ ReturnStatus.Done → length.new ≡ length.old }
{
    if bytes.len() > room.len() {
        return ReturnStatus::NoRoom;
    }
    room[..bytes.len()].copy_from_slice(bytes);
    *length = bytes.len();
    ReturnStatus::Done
}

/// Reads the record that a slot's bytes are: its position, its request and that's length. Form
/// where they are no valid record in slot 2 or 3.
#[unsafe(no_mangle)]
pub extern "C" fn memoir_read_pending(
    slot: u8,
    bytes: &[u8],
    position: &mut u64,
    length: &mut usize,
    room: &mut [u8],
) -> u32
    ensures reads { ReadsBack slot bytes.now
        (room_state room.old room.new length.old length.new) position.new result }
    ensures unwritten { result ≢ 0 → room.new ≡ room.old }
    ensures unsaid { result ≢ 0 → length.new ≡ length.old }
    ensures unnumbered { result ≢ 0 → position.new ≡ position.old }
    ensures enough { longest_request ≤ list_length room.old → result ≢ 36 }
{
    put_request(slot, bytes, position, length, room).code()
}

fn put_request(
    slot: u8,
    bytes: &[u8],
    position: &mut u64,
    length: &mut usize,
    room: &mut [u8],
) -> ReturnStatus
    ensures reads { ReadsRecordOrNone slot bytes.now
        (room_state room.old room.new length.old length.new) position.new result }
    ensures unwritten { result ≢ ReturnStatus.Done → room.new ≡ room.old }
    ensures unsaid { result ≢ ReturnStatus.Done → length.new ≡ length.old }
    ensures unnumbered { result ≢ ReturnStatus.Done → position.new ≡ position.old }
{
    let Some(pending) = read_pending(slot, bytes) else {
        return ReturnStatus::Refused(Refusal::Form);
    };
    let said = put(pending.request, length, room);
    if let ReturnStatus::Done = said {
        *position = pending.position;
    }
    said
}
