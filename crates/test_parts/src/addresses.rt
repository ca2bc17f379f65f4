//! The addresses in the words of a case.
//!
//! A word is `0xHEX`, or `0xHEX..0xHEX/N`: from the first, included, to the second, excluded, in steps of N.

use crate::faults::CaseFault;
use crate::parts::number;
use std::alloc::Global;

/// The address arguments.
pub fn addresses_of(alloc: Global, words: &str) -> Result<Vec<u64>, CaseFault> {
    let mut addresses = Vec::new(alloc);
    for word in words.split(' ') {
        push_word(&mut addresses, word)?;
    }
    Ok(addresses)
}

// The addresses of a word.
fn push_word(addresses: &mut Vec<u64>, word: &str) -> Result<(), CaseFault> {
    let Some((from, rest)) = word.split_once("..") else {
        addresses.push(address(word)?)?;
        return Ok(());
    };
    let (to, step) = rest.split_once('/').ok_or(CaseFault::BadLine)?;
    push_steps(addresses, address(from)?, address(to)?, number(step)?)
}

// The addresses from one, included, to another, excluded, in steps.
fn push_steps(addresses: &mut Vec<u64>, from: u64, to: u64, step: u64) -> Result<(), CaseFault> {
    let count = to.saturating_sub(from).div_ceil(step.max(1));
    for index in 0..count {
        addresses.push(from.saturating_add(index.saturating_mul(step)))?;
    }
    Ok(())
}

/// The address of a word.
pub fn address(word: &str) -> Result<u64, CaseFault> {
    let digits = word.strip_prefix("0x").ok_or(CaseFault::BadLine)?;
    Ok(u64::from_str_radix(digits, 16)?)
}
