//! The bytes of a record.

use mm_bytes::{Bytes, Memory, read_decimal};
use mm_store::{pending_bytes, read_pending};
use sha2::{Digest as _, Sha256};
use std::alloc::{AllocError, Global};
use std::test::Fail;

// A byte more than the most of a request.
const LONG: [u8; 4097] = [b'x'; 4097];

// Positions and requests, and the slot that their record is read in.
const RECORDS: &str = "\
1 add => 3
2 add => 2
3 empty => 3
4 most => 2
281474976710656 read => 2
0 add => none
281474976710657 read => none
18446744073709551615 read => none
1 broken => none
1 break => none
1 longer => none
";

// Puts what stands before the digest of a record.
fn put_front(bytes: &mut Vec<u8>, position: u64, request: &[u8]) -> Result<(), AllocError> {
    bytes.extend_from_slice(b"MMP1")?;
    bytes.extend_from_slice(&position.to_be_bytes())?;
    bytes.extend_from_slice(&u32::try_from(request.len()).unwrap_or(0).to_be_bytes())?;
    bytes.extend_from_slice(request)
}

fn put_record(bytes: &mut Vec<u8>, position: u64, request: &[u8]) -> Result<(), AllocError> {
    put_front(bytes, position, request)?;
    let digest = Sha256::digest(bytes.as_slice());
    bytes.extend_from_slice(&digest)
}

// The bytes of a record of this position and request, within bounds or not.
fn record_of(alloc: Global, position: u64, request: &[u8]) -> Result<Vec<u8>, AllocError> {
    let mut bytes = Vec::new(alloc);
    put_record(&mut bytes, position, request)?;
    Ok(bytes)
}

// The bytes of a record whose request is within its bounds.
fn written(alloc: Global, position: u64, request: &[u8]) -> Result<Bytes, Memory> {
    if position < 1 || position > 0x1_0000_0000_0001 {
        return Err(Memory);
    }
    if request.len() > 4096 || request.contains(&b'\n') {
        return Err(Memory);
    }
    pending_bytes(alloc, position, request)
}

// Whether the bytes are read as this record.
fn is_read_as(slot: u8, bytes: &[u8], position: u64, request: &[u8]) -> bool {
    match read_pending(slot, bytes) {
        None => false,
        Some(pending) => pending.position == position && pending.request == request,
    }
}

// The digest of the 21 bytes before it is that of `sha256sum`.
#[test]
fn a_record_has_the_bytes_of_its_format(rt: HostRuntime) -> Result<(), Fail> {
    let record = written(rt.alloc(), 1, b"add 5")?;
    let expected =
        b"MMP1\0\0\0\0\0\0\0\x01\0\0\0\x05add 5\x09\xc7\xa4\x9a\x55\xab\xe4\x64\x62\x0b\xa4\xee\x57\xfd\x7a\x55\x4b\xf6\xe8\x30\xc7\x4a\x66\x29\x58\x95\xe7\x05\xca\xd8\x48\x57";
    assert!(rt; record.as_slice() == expected.as_slice());
    Ok(())
}

// The slot that a line of the table names, if it names one.
fn slot_of(word: &str) -> Option<u8> {
    match word {
        "2" => Some(2),
        "3" => Some(3),
        _ => None,
    }
}

fn request_of(word: &str) -> &[u8] {
    match word {
        "empty" => b"",
        "most" => LONG.get(..4096).unwrap_or(&[]),
        "longer" => &LONG,
        "broken" => b"add\n5",
        "break" => b"\n",
        "add" => b"add 5",
        _ => b"read",
    }
}

// Whether the record is read in this slot alone, or in none.
fn is_read_in(
    alloc: Global,
    position: u64,
    request: &[u8],
    right: Option<u8>,
) -> Result<bool, Fail> {
    let record = record_of(alloc, position, request)?;
    for slot in 0..8 {
        let is_valid = right == Some(slot);
        if is_read_as(slot, &record, position, request) != is_valid {
            return Ok(false);
        }
        if read_pending(slot, &record).is_some() != is_valid {
            return Ok(false);
        }
    }
    Ok(true)
}

#[test]
fn records_are_read_in_their_slot_alone(rt: HostRuntime) -> Result<(), Fail> {
    for line in RECORDS.lines() {
        let (asked, slot) = line.split_once(" => ").ok_or("no row")?;
        let (position, word) = asked.split_once(' ').ok_or("no request")?;
        let position = read_decimal(position.as_bytes()).ok_or("no number")?;
        let request = request_of(word);
        assert!(rt;
            is_read_in(rt.alloc(), position, request, slot_of(slot))?,
            "{line}"
        );
    }
    Ok(())
}

// Whether that many bytes of a record are none.
fn is_none_torn(record: &[u8], size: usize) -> bool {
    read_pending(3, record.get(..size).unwrap_or(record)).is_none()
}

// Whether a record is none where a bit of this byte is turned, or a byte more stands behind it.
fn is_none_altered(alloc: Global, record: &[u8], at: usize) -> Result<bool, AllocError> {
    let mut altered = record.to_vec(alloc)?;
    match altered.get_mut(at) {
        Some(byte) => *byte ^= 1,
        None => altered.push(0)?,
    }
    Ok(read_pending(3, &altered).is_none())
}

#[test]
fn a_record_that_is_torn_or_altered_is_none(rt: HostRuntime) -> Result<(), Fail> {
    let record = record_of(rt.alloc(), 1, b"add 5")?;
    assert_eq!(rt; record.len(), 53);
    for size in 0..53 {
        assert!(rt; is_none_torn(&record, size), "{size}");
        assert!(rt; is_none_altered(rt.alloc(), &record, size)?, "{size}");
    }
    assert!(rt; is_none_altered(rt.alloc(), &record, 53)?);
    Ok(())
}
