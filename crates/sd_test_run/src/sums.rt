use hex::FromHex;
use sha2::{Digest, Sha256};

/// Whether the SHA-256 of these bytes begins so.
pub(crate) fn has_sum(bytes: &[u8], sum: &str) -> bool {
    let Ok(due) = <[u8; 8]>::from_hex(sum) else {
        return false;
    };
    Sha256::digest(bytes).starts_with(&due)
}
