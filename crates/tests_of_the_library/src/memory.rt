//! Bytes that are stored, and the bytes that have to be there.
use std::alloc::{AllocError, Global};

/// How many bytes are remembered: those of 64 pages. Addresses are taken modulo this number.
const BYTES: usize = 32_768;

/// So many bytes of which each is one more than the one before, and none is 255.
pub(crate) fn drawn(alloc: Global, count: u32, first: u32) -> Result<Vec<u8>, AllocError> {
    let mut bytes = Vec::with_capacity(alloc, count as usize)?;
    for k in 0..count {
        bytes
            .push((first.wrapping_add(k) % 251) as u8)
            .map_err(|_| AllocError)?;
    }
    Ok(bytes)
}

/// What was stored at each address.
#[derive(Drop)]
pub(crate) struct Memory {
    bytes: Vec<u8>,
}

fn place(address: u32, k: usize) -> usize {
    (address as usize).wrapping_add(k) % BYTES
}

impl Memory {
    /// Zeros.
    pub(crate) fn new(alloc: Global) -> Result<Memory, AllocError> {
        Ok(Memory {
            bytes: Vec::from_elem(alloc, 0u8, BYTES)?,
        })
    }

    /// The first of these bytes, so many, are stored from an address on.
    pub(crate) fn store(&mut self, address: u32, bytes: &[u8], moved: usize) {
        for (k, byte) in bytes.iter().take(moved).enumerate() {
            if let Some(old) = self.bytes.get_mut(place(address, k)) {
                *old = *byte;
            }
        }
    }

    /// Whether these bytes are stored from an address on, so many, and the others are 255.
    pub(crate) fn has(&self, address: u32, found: &[u8], moved: usize) -> bool {
        for (k, byte) in found.iter().enumerate() {
            let wanted = if k < moved {
                self.bytes.get(place(address, k)).copied()
            } else {
                Some(255)
            };
            if wanted != Some(*byte) {
                return false;
            }
        }
        true
    }
}
