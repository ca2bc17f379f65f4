//! The bytes of the words of a case.
//!
//! - `0xHEX`: these bytes;
//! - `'TEXT'`: the bytes of a text without spaces;
//! - `NAME`: a file;
//! - `NAME[A..B]`: a file from A, included, to B, excluded; each may be omitted;
//! - `NAME@AT=VALUE@AT=VALUE`: a file with other bytes at these offsets; a VALUE is HEX, or a counter;
//! - `N*HEX`: the bytes N times;
//! - `N*NAME@AT=VALUE..`: such a file N times, in which each counter advances each time.
//!
//! A counter is `FROM+STEP:FORM` or `FROM-STEP:FORM`, in decimal: the number FROM the first time, and STEP more, or
//! less, each later time. Its FORM is `beN` or `leN`: a number of N bytes, big-endian or little-endian; or `decN`: N
//! decimal digits. So `5000*R@53=4999-1:be4` are 5,000 copies of R in which four bytes fall from 4,999 to 0.

use crate::counters::{counted, spelled};
use crate::faults::CaseFault;
use crate::store::Store;
use std::alloc::Global;

/// The bytes of the parts, in order.
pub fn bytes_of(alloc: Global, store: &Store, parts: &str) -> Result<Vec<u8>, CaseFault> {
    let mut bytes = Vec::new(alloc);
    for part in parts.split(' ') {
        bytes.extend_from_slice(&bytes_of_part(alloc, store, part)?)?;
    }
    Ok(bytes)
}

/// The value of decimal digits.
pub fn number(digits: &str) -> Result<u64, CaseFault> {
    Ok(digits.parse::<u64>()?)
}

// The bytes of a part.
fn bytes_of_part(alloc: Global, store: &Store, part: &str) -> Result<Vec<u8>, CaseFault> {
    if let Some(digits) = part.strip_prefix("0x") {
        Ok(hex::decode(alloc, digits)?)
    } else if let Some(text) = part.strip_prefix('\'') {
        let text = text.strip_suffix('\'').ok_or(CaseFault::BadLine)?;
        Ok(text.as_bytes().to_vec(alloc)?)
    } else if let Some((times, part)) = part.split_once('*') {
        repeated(alloc, store, number(times)?, part)
    } else if let Some((name, changes)) = part.split_once('@') {
        changed(alloc, store.named(name)?, changes, 0)
    } else if let Some((name, range)) = part.split_once('[') {
        Ok(cut(store.named(name)?, range)?.to_vec(alloc)?)
    } else {
        Ok(store.named(part)?.to_vec(alloc)?)
    }
}

// A file with changes, or else the bytes of hex digits, repeated this number of times.
fn repeated(alloc: Global, store: &Store, times: u64, part: &str) -> Result<Vec<u8>, CaseFault> {
    let mut bytes = Vec::new(alloc);
    for time in 0..times {
        let once = match part.split_once('@') {
            Some((name, changes)) => changed(alloc, store.named(name)?, changes, time)?,
            None => hex::decode(alloc, part)?,
        };
        bytes.extend_from_slice(&once)?;
    }
    Ok(bytes)
}

// The bytes of a range, whose text ends with `]`.
fn cut<'a>(bytes: &'a [u8], range: &str) -> Result<&'a [u8], CaseFault> {
    let range = range.strip_suffix(']').ok_or(CaseFault::BadLine)?;
    let (from, to) = range.split_once("..").ok_or(CaseFault::BadLine)?;
    let from = match from {
        "" => 0,
        _ => number(from)? as usize,
    };
    let to = match to {
        "" => bytes.len(),
        _ => number(to)? as usize,
    };
    bytes.get(from..to).ok_or(CaseFault::BadLine)
}

// The bytes with others at these offsets, where the counters have advanced this number of times.
fn changed(alloc: Global, bytes: &[u8], changes: &str, time: u64) -> Result<Vec<u8>, CaseFault> {
    let mut changed = bytes.to_vec(alloc)?;
    for change in changes.split('@') {
        make_change(alloc, &mut changed, change, time)?;
    }
    Ok(changed)
}

// Makes a change, `AT=VALUE`.
fn make_change(alloc: Global, bytes: &mut [u8], change: &str, time: u64) -> Result<(), CaseFault> {
    let (offset, value) = change.split_once('=').ok_or(CaseFault::BadLine)?;
    let offset = number(offset)? as usize;
    put(bytes, offset, &value_of(alloc, value, time)?)
}

// Replaces bytes from an offset on.
fn put(bytes: &mut [u8], offset: usize, new: &[u8]) -> Result<(), CaseFault> {
    if offset > bytes.len() || new.len() > bytes.len() - offset {
        return Err(CaseFault::BadLine);
    }
    bytes[offset..offset + new.len()].copy_from_slice(new);
    Ok(())
}

// The bytes of a value: of a counter that has advanced this number of times, or of hex digits.
fn value_of(alloc: Global, value: &str, time: u64) -> Result<Vec<u8>, CaseFault> {
    match value.split_once(':') {
        Some((counter, form)) => spelled(alloc, counted(counter, time)?, form),
        None => Ok(hex::decode(alloc, value)?),
    }
}
