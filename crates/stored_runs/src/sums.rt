//! The sum of a text that is too large to be stored.

use hex::encode;
use sha2::{Digest, Sha256};
use std::alloc::{AllocError, Global};

/// Adds a line that sums up the text: how many lines and bytes it has, and its digest by SHA-256.
pub fn push_sum(alloc: Global, output: &mut Vec<u8>, text: &[u8]) -> Result<(), AllocError> {
    let lines = lines_in(text);
    let bytes = text.len();
    let digest = encode(alloc, Sha256::digest(text))?;
    let sum = format!(in alloc; "{lines} lines, {bytes} bytes, sha256 {digest}\n")?;
    output.extend_from_slice(sum.as_bytes())
}

// How many lines end in the text.
fn lines_in(text: &[u8]) -> usize {
    text.iter().filter(|byte| **byte == b'\n').count()
}
