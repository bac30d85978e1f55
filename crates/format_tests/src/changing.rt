//! Bytes with some of them changed, and repeated ones.
use std::alloc::{AllocError, Global};

/// The bytes, of which each named place has another value.
pub fn changed(
    alloc: Global,
    bytes: &[u8],
    changes: &[(usize, u8)],
) -> Result<Vec<u8>, AllocError> {
    let mut bytes = Vec::from_slice(alloc, bytes)?;
    for (place, value) in changes {
        if let Some(byte) = bytes.get_mut(*place) {
            *byte = *value;
        }
    }
    Ok(bytes)
}

/// A part that occurs this many times between two others.
pub fn repeated(
    alloc: Global,
    front: &[u8],
    part: &[u8],
    times: usize,
    back: &[u8],
) -> Result<Vec<u8>, AllocError> {
    let mut bytes = Vec::new(alloc);
    bytes.extend_from_slice(front)?;
    for _ in 0..times {
        bytes.extend_from_slice(part)?;
    }
    bytes.extend_from_slice(back)?;
    Ok(bytes)
}
