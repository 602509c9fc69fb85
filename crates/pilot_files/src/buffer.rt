//! The memory that bytes are moved through.

use std::alloc::AllocError;

/// How many bytes are moved at a time.
pub(crate) const WINDOW: usize = 1 << 20;

/// So many bytes are moved at a time at least, also where a file says that it has fewer.
const LEAST: usize = 1 << 14;

/// Memory for so many bytes, or for a window of them, where they are more, or nobody knows how many.
pub(crate) fn buffer_for(
    rt: &HostRuntime,
    bytes: Option<u64>,
    window: usize,
) -> Result<Vec<u8>, AllocError> {
    let wanted = match bytes {
        Some(bytes) => usize::try_from(bytes).unwrap_or(window),
        None => window,
    };
    let pages = wanted.max(LEAST).min(window).div_ceil(512);
    Vec::from_elem(rt.alloc(), 0u8, pages.saturating_mul(512))
}
