//! The heads of records: numbers and keys at their offsets.

ghost use Rattle.std.specs.Prelude.{◌≡◌, ◌+◌, ◌<◌, ◌≤◌, ◌^◌, ◌↔◌, ◌∷◌, ◌++◌, IsTrue};
ghost use Rattle.std.specs.Prelude.{IfSome, length, slice_index, take, drop};
ghost use Rattle.std.specs.Int.{w32, w64, from_be_bytes, to_be_bytes};
ghost use Rattle.archive_core.specs.Key.{IsKey, key_bytes};
ghost use Rattle.archive_core.specs.Valid.{key_of};
ghost use Rattle.archive_core.specs.Record.{IsOperation, borrowed_bytes, operation_borrowed};
ghost use Rattle.archive_records.specs.Kind.{admission_length, end_length};
ghost use Rattle.archive_records.specs.Layout.{head_length, admission_body, body_length, record_count};
ghost use Rattle.archive_records.specs.Reader.{IsFound};
ghost use Rattle.archive_records.specs.Text.{end_record};

use crate::format::Format;
use archive_core::{
    ArchKey, CheckedSlice, Digest, RETIREMENT, RETIREMENT_LEN, Record, SliceFacts, SliceKey,
    key_prefix,
};
use byteorder::{BigEndian, ByteOrder};
use uuid::Uuid;

/// The number of bytes before the first record.
pub const MAGIC_LEN: u128 = 8;

pub const ADMISSION: u8 = 2;

pub const END: u8 = 3;

/// The length of a summary's entry in bytes: a tag, a key and a digest, as in a retirement's record.
pub const ENTRY_LEN: usize = RETIREMENT_LEN;

/// The number of bytes before the slice in an admission's record.
pub const ADMISSION_HEAD_LEN: usize = 33;

/// The largest length of a slice in bytes.
pub const LARGEST_SLICE: u64 = 4294967295;

/// The length of the end record of an archive or a summary in bytes.
pub const END_LEN: usize = 9;

// The length of an admission's head.
fn admission_length_of(file: Format) -> usize
    ensures value { result ≡ admission_length file }
    ensures long { (8 < result) × (result < 58) }
{
    match file {
        Format::Archive | Format::OldArchive | Format::Operations => ADMISSION_HEAD_LEN,
        Format::Summary => ENTRY_LEN,
    }
}

// The length of an end record, if the format has one.
fn end_length_of(file: Format) -> Option<usize>
    ensures value { result ≡ end_length file }
    ensures long { IfSome result (λ head. (8 < head) × (head < 58)) }
{
    match file {
        Format::Archive | Format::OldArchive | Format::Summary => Some(END_LEN),
        Format::Operations => None,
    }
}

/// The length of the head, by its tag. `None` for an unknown tag.
#[tactic(auto, unfolding(crate::specs::Layout::head_length))]
pub fn head_length_of(file: Format, bytes: &[u8]) -> Option<usize>
    requires { 0 < length bytes.now }
    ensures value { result ≡ head_length file (slice_index bytes.now 0) }
    ensures long { IfSome result (λ head. (8 < head) × (head < 58)) }
{
    match bytes[0] {
        RETIREMENT => Some(RETIREMENT_LEN),
        ADMISSION => Some(admission_length_of(file)),
        END => end_length_of(file),
        _ => None,
    }
}

/// The big-endian number in the eight bytes at an offset.
pub fn number_at(bytes: &[u8], at: usize) -> u64
    requires { at + 8 ≤ length bytes.now }
    ensures number { result ≡ from_be_bytes w64 (take 8 (drop at bytes.now)) }
    ensures bytes { to_be_bytes w64 result ≡ take 8 (drop at bytes.now) }
{
    BigEndian::read_u64(&bytes[at..])
}

// The number of bytes after an admission's head.
fn admission_body_of(file: Format, head: &[u8]) -> u64
    requires { admission_length file ≤ length head.now }
    ensures { result ≡ admission_body file head.now }
{
    match file {
        Format::Summary => 0,
        Format::Archive | Format::OldArchive | Format::Operations => number_at(head, 25),
    }
}

/// The number of bytes after the head.
#[tactic(auto, unfolding(crate::specs::Layout::body_length))]
pub fn body_length_of(file: Format, head: &[u8]) -> u64
    requires one { 0 < length head.now }
    requires whole { slice_index head.now 0 ≡ 2 → admission_length file ≤ length head.now }
    ensures { result ≡ body_length file head.now }
{
    if head[0] == ADMISSION {
        admission_body_of(file, head)
    } else {
        0
    }
}

/// The number in an end record.
#[tactic(auto, unfolding(crate::specs::Layout::record_count))]
pub fn record_count_of(end: &[u8]) -> u64
    requires { 9 ≤ length end.now }
    ensures { result ≡ record_count end.now }
{
    number_at(end, 1)
}

/// Whether a whole record has the key.
pub fn has_key(bytes: &[u8], key: &SliceKey) -> bool
    requires { 25 ≤ length bytes.now }
    ensures { IsTrue result ↔ (take 24 (drop 1 bytes.now) ≡ key_bytes key.now) }
{
    let whole = key_prefix(key);
    &bytes[1..25] == &whole[..]
}

/// The bytes before the slice in its admission's record.
pub fn admission_head(slice: &CheckedSlice<'_>) -> [u8; ADMISSION_HEAD_LEN]
    ensures head { result ≡ 2 ∷ (key_bytes (key_of slice.now) ++ to_be_bytes w64 (length slice.now)) }
    ensures short { length slice.now < 2 ^ 32 }
{
    let mut head = [0; ADMISSION_HEAD_LEN];
    head[0] = ADMISSION;
    head[1..25].copy_from_slice(&key_prefix(&slice.key()));
    let length = slice.bytes().len() as u64;
    head[25..].copy_from_slice(&length.to_be_bytes());
    head
}

/// The end record with this number of records.
#[tactic(auto, unfolding(crate::specs::Text::end_record))]
pub fn end_bytes(count: u64) -> [u8; END_LEN]
    ensures { result ≡ end_record count }
{
    let mut record = [0; END_LEN];
    record[0] = END;
    BigEndian::write_u64(&mut record[1..], count);
    record
}

// The big-endian number in the four bytes at an offset.
fn arch_number_at(bytes: &[u8], at: usize) -> u32
    requires { at + 4 ≤ length bytes.now }
    ensures { to_be_bytes w32 result ≡ take 4 (drop at bytes.now) }
{
    BigEndian::read_u32(&bytes[at..])
}

/// The key in a whole record.
pub fn key_in(bytes: &[u8]) -> SliceKey
    requires { 25 ≤ length bytes.now }
    ensures bytes { key_bytes result ≡ take 24 (drop 1 bytes.now) }
    ensures widths { IsKey result }
{
    let mut uuid = [0; 16];
    uuid.copy_from_slice(&bytes[1..17]);
    SliceKey {
        uuid: Uuid::from_bytes(uuid),
        arch: ArchKey {
            cputype: arch_number_at(bytes, 17),
            cpusubtype: arch_number_at(bytes, 21),
        },
    }
}

/// The digest in the record of a retirement.
pub fn digest_in(bytes: &[u8]) -> Digest
    requires { 57 ≤ length bytes.now }
    ensures { result.0 ≡ take 32 (drop 25 bytes.now) }
{
    let mut digest = [0; 32];
    digest.copy_from_slice(&bytes[25..57]);
    Digest(digest)
}

/// The record with these bytes and these facts of its slice.
pub fn record_in(bytes: &[u8], found: Option<SliceFacts>) -> Record<'_>
    requires { IsFound bytes.now found }
    ensures bytes { borrowed_bytes result ≡ bytes.now }
    ensures operation { IsOperation (operation_borrowed result) }
{
    match found {
        None => Record::Retire(key_in(bytes), digest_in(bytes)),
        Some(facts) => {
            Record::Admit(CheckedSlice::of_checked(&bytes[ADMISSION_HEAD_LEN..], facts))
        }
    }
}
