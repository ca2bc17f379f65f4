//! Numbers that advance from one copy of a file to the next.

use crate::faults::CaseFault;
use crate::parts::number;
use std::alloc::Global;

/// The number of a counter after this number of steps.
pub fn counted(counter: &str, times: u64) -> Result<u64, CaseFault> {
    if let Some((from, step)) = counter.split_once('+') {
        Ok(number(from)?.saturating_add(number(step)?.saturating_mul(times)))
    } else if let Some((from, step)) = counter.split_once('-') {
        Ok(number(from)?.saturating_sub(number(step)?.saturating_mul(times)))
    } else {
        Err(CaseFault::BadLine)
    }
}

/// The bytes of a number in the form `beN`, `leN` or `decN`.
pub fn spelled(alloc: Global, count: u64, form: &str) -> Result<Vec<u8>, CaseFault> {
    if let Some(len) = form.strip_prefix("le") {
        return lowest_first(alloc, count, number(len)?, 256, 0);
    }
    let mut bytes = if let Some(len) = form.strip_prefix("be") {
        lowest_first(alloc, count, number(len)?, 256, 0)?
    } else {
        let len = form.strip_prefix("dec").ok_or(CaseFault::BadLine)?;
        lowest_first(alloc, count, number(len)?, 10, b'0')?
    };
    bytes.reverse();
    Ok(bytes)
}

// The last digits of a number to a base, the lowest first; each is a byte, counted from the byte `zero`.
fn lowest_first(
    alloc: Global,
    count: u64,
    len: u64,
    base: u64,
    zero: u8,
) -> Result<Vec<u8>, CaseFault> {
    let mut digits = Vec::new(alloc);
    let mut rest = count;
    for _ in 0..len {
        digits.push(zero.wrapping_add((rest % base.max(1) & 0xff) as u8))?;
        rest /= base.max(1);
    }
    Ok(digits)
}
