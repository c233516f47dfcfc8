//! A hasher whose digests are known to be computed from bytes.
ghost use Rattle.std.specs.Prelude.{◌≡◌, [], ◌++◌};
ghost use Rattle.sha2.specs.Hashers.{Holds256};
ghost use Rattle.sha2.specs.Sha256.{sha256};
ghost use Rattle.rs_field.specs.code.Column.{Shard};
ghost use Rattle.rs_volumes.specs.Computed.{HasTaken, IsComputed};

use sha2::{Digest, Sha256};

/// A digest that was computed: the SHA-256 of bytes that a hasher took. Bytes that were read from a description or from
/// anywhere else cannot be made into such a value.
#[derive(Clone, Copy)]
pub struct ComputedDigest {
    /// The bytes of the digest.
    pub bytes: [u8; 32],
    ghost computed: { IsComputed bytes },
}

/// A hasher that has taken some bytes.
#[derive(Drop)]
pub struct ByteHasher {
    /// The hasher of the crate `sha2`.
    pub inner: Sha256,
    ghost taken: { HasTaken inner },
}

impl ByteHasher {
    /// Returns a hasher that has taken no bytes.
    pub fn new() -> ByteHasher
        ensures { Holds256 result.inner [] }
    {
        ByteHasher {
            inner: Sha256::new(),
        }
    }

    /// Takes the next bytes.
    pub fn update(&mut self, bytes: &[u8])
        ensures { (taken : Shard) → Holds256 self.old.inner taken
            → Holds256 self.new.inner (taken ++ bytes.now) }
    {
        self.inner.update(bytes);
    }

    /// Returns the digest of all bytes that the hasher has taken.
    pub fn finish(self) -> ComputedDigest
        ensures { (taken : Shard) → Holds256 self.inner taken → result.bytes ≡ sha256 taken }
    {
        ComputedDigest {
            bytes: self.inner.finalize(),
        }
    }
}
