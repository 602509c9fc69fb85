//! Bytes that follow from their places alone, and numbers in the words of a row.
use anyhow::{Context, Result};
use std::alloc::{AllocError, Global};

/// The byte at a place of each document: no page is like the one before it.
fn byte_at(place: usize) -> u8 {
    ((place % 251) as u8) ^ ((place / 512 % 256) as u8)
}

/// So many bytes.
pub(crate) fn drawn(alloc: Global, count: u32) -> Result<Vec<u8>, AllocError> {
    let mut bytes = Vec::with_capacity(alloc, count as usize)?;
    for place in 0..count as usize {
        bytes.push(byte_at(place)).map_err(|_| AllocError)?;
    }
    Ok(bytes)
}

/// So many numbers, with spaces between them.
pub(crate) fn numbers_of<const N: usize>(words: &str) -> Result<[u32; N]> {
    let mut numbers = [0; N];
    let mut words = words.split(' ');
    for number in &mut numbers {
        *number = words.next().context("too few numbers")?.parse()?;
    }
    Ok(numbers)
}
