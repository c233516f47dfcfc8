//! The SHA-256 digests of blocks.
ghost use Rattle.std.specs.Prelude.{◌≡◌, ◌↔◌, ◌*◌, ◌+◌, ◌/◌, ◌<◌, IsTrue, length};
ghost use Rattle.std.specs.List.{between};
ghost use Rattle.sha2.specs.Sha256.{sha256};

use sha2::{Digest, Sha256};

/// The number of bytes of a digest.
pub const DIGEST_BYTES: usize = 32;

/// Returns the SHA-256 of bytes.
///
/// # Examples
///
/// The digest of no bytes begins with `e3 b0 c4 42`.
pub fn digest_of(bytes: &[u8]) -> [u8; 32]
    ensures { result ≡ sha256 bytes.now }
{
    Sha256::digest(bytes)
}

/// Returns whether the digest with this index is `own`. The slice `digests` holds digests of 32 bytes each.
///
/// Returns false if `digests` has no digest with this index.
pub fn is_digest(digests: &[u8], index: usize, own: &[u8; 32]) -> bool
    ensures { IsTrue result ↔ (index < length digests.now / 32)
        × (between (32 * index) (32 * index + 32) digests.now ≡ own.now) }
{
    if index >= digests.len() / 32 {
        return false;
    }
    digests[32 * index..32 * index + 32] == own[..]
}
