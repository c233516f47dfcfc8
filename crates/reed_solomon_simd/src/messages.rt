//! Messages of any length: the size of their shards, a message as shards, and shards as a message.
ghost use Rattle.std.specs.Prelude.{◌≡◌, ℕ, ◌-◌, ◌^◌, ◌<◌, ◌≤◌, ◌++◌, length, map, replicate};
ghost use Rattle.std.specs.Prelude.{Err, IfOk, MatchOption, MatchResult};
ghost use Rattle.rs_field.specs.code.Configuration.{UpToMemory};
ghost use Rattle.rs_field.specs.code.OneCall.{collected_shards};
ghost use Rattle.reed_solomon_simd.specs.Messages.{HoldsMessage, IsLeastSize, AreShardsOf};
ghost use Rattle.reed_solomon_simd.specs.Messages.{size_of_shards, join_outcome, collected_bytes};

use rs_field::error::Error;
use std::alloc::{AllocError, Global};
use std::convert::AsSlice;

/// Returns the size of the shards of a message, in bytes: the least even size above zero with which `original_count`
/// shards hold `total` bytes.
///
/// Returns `None` if there is no such size. This is so if `original_count` is 0, or if the size would be larger than
/// `usize::MAX`. The second case has only one pair of arguments: `usize::MAX` bytes in one shard.
///
/// # Examples
///
/// ```
/// assert_eq!(rt; shard_bytes(35, 3), Some(12));
/// assert_eq!(rt; shard_bytes(36, 3), Some(12));
/// assert_eq!(rt; shard_bytes(37, 3), Some(14));
/// assert_eq!(rt; shard_bytes(0, 3), Some(2));
/// assert_eq!(rt; shard_bytes(35, 0), None);
/// ```
pub fn shard_bytes(total: usize, original_count: usize) -> Option<usize>
    ensures { MatchOption result
        ((size : ℕ) → HoldsMessage original_count total size → 2 ^ 64 ≤ size)
        (IsLeastSize original_count total) }
{
    if original_count == 0 {
        return None;
    }
    let size = total.div_ceil(original_count);
    if size == usize::MAX {
        return None;
    }
    Some((size + size % 2).max(2))
}

/// Splits a message into `original_count` shards, whose size [`shard_bytes`] returns. The shards hold the bytes of the
/// message in order, and zeros after its last byte.
///
/// Store the length of the message beside the shards: [`join`] needs it to leave out the zeros.
///
/// # Errors
///
/// - [`Error::UnsupportedShardCount`] with 0 recovery shards if `original_count` is 0.
/// - [`Error::OutOfMemory`] if the shards cannot be allocated.
///
/// # Examples
///
/// Ten bytes fill two shards of four bytes, and half of a third one:
///
/// ```
/// let message: &[u8] = b"ten bytes.";
/// let originals = split(alloc, message, 3)?;
/// assert_eq!(rt; originals.len(), 3);
/// assert_eq!(rt; originals[0].as_slice(), b"ten ".as_slice());
/// assert_eq!(rt; originals[1].as_slice(), b"byte".as_slice());
/// assert_eq!(rt; originals[2].as_slice(), b"s.\0\0".as_slice());
/// ```
pub fn split(alloc: Global, bytes: &[u8], original_count: usize) -> Result<Vec<Vec<u8>>, Error>
    ensures none { original_count ≡ 0 → result ≡ Err (Error.UnsupportedShardCount 0 0) }
    ensures shards { 0 < original_count → MatchResult (collected_shards result)
        (AreShardsOf original_count bytes.now) (λ e. e ≡ Error.OutOfMemory) }
{
    let Some(size) = shard_bytes(bytes.len(), original_count) else {
        return Err(Error::UnsupportedShardCount {
            original_count,
            recovery_count: 0,
        });
    };
    let mut shards = Vec::with_capacity(alloc, original_count)?;
    let mut rest = bytes;
    for _ in 0..original_count {
        let (piece, left) = rest.split_at(size.min(rest.len()));
        shards.push(padded(alloc, piece, size)?)?;
        rest = left;
    }
    Ok(shards)
}

// The zeros fill the last shard. `join` leaves them out, since it knows the length of the message.
fn padded(alloc: Global, bytes: &[u8], size: usize) -> Result<Vec<u8>, AllocError>
    requires { length bytes.now ≤ size }
    ensures { IfOk result
        (λ shard. shard.items ≡ bytes.now ++ replicate (size - length bytes.now) 0) }
{
    let mut shard = Vec::with_capacity(alloc, size)?;
    shard.extend_from_slice(bytes)?;
    shard.resize(size, 0)?;
    Ok(shard)
}

/// Joins the shards of a message, and returns its first `total` bytes. This is the inverse of [`split`]: `shards` holds
/// all originals in order of their index, and `total` is the length of the message. Each shard is a vector, an array or
/// a slice of bytes.
///
/// # Errors
///
/// - [`Error::TooFewOriginalShards`] with 0 received shards if there is no shard.
/// - [`Error::InvalidShardSize`] if the size of the first shard is zero or odd.
/// - [`Error::DifferentShardSize`] for the first shard that has another size.
/// - [`Error::TooFewOriginalShards`] if the shards hold fewer than `total` bytes. `original_count` is then the least
///   number of shards of this size that hold `total` bytes.
/// - [`Error::OutOfMemory`] if the message cannot be allocated.
///
/// # Examples
///
/// ```
/// let originals: [&[u8]; 3] = [b"ten ", b"byte", b"s.\0\0"];
/// let message = join(alloc, &originals, 10)?;
/// assert_eq!(rt; message.as_slice(), b"ten bytes.".as_slice());
/// ```
pub fn join<T: AsSlice<u8>>(alloc: Global, shards: &[T], total: usize) -> Result<Vec<u8>, Error>
    ensures { UpToMemory (join_outcome (map T.items shards.now) total) (collected_bytes result) }
{
    let size = size_of_all(shards)?;
    let original_count = total.div_ceil(size);
    if shards.len() < original_count {
        return Err(Error::TooFewOriginalShards {
            original_count,
            original_received_count: shards.len(),
        });
    }
    let mut message = Vec::with_capacity(alloc, total)?;
    for shard in shards {
        let bytes = shard.as_slice();
        let left = total - message.len();
        message.extend_from_slice(&bytes[..left.min(bytes.len())])?;
    }
    Ok(message)
}

// Fails with `TooFewOriginalShards` if there is no shard, then with `InvalidShardSize` if the size of the first one is
// zero or odd, and then with `DifferentShardSize` for the first one of another size.
fn size_of_all<T: AsSlice<u8>>(shards: &[T]) -> Result<usize, Error>
    ensures { result ≡ size_of_shards (map T.items shards.now) }
{
    let Some(first) = shards.first() else {
        return Err(Error::TooFewOriginalShards {
            original_count: 1,
            original_received_count: 0,
        });
    };
    let shard_bytes = first.as_slice().len();
    if shard_bytes == 0 || shard_bytes % 2 == 1 {
        return Err(Error::InvalidShardSize { shard_bytes });
    }
    for shard in shards {
        let got = shard.as_slice().len();
        if got != shard_bytes {
            return Err(Error::DifferentShardSize { shard_bytes, got });
        }
    }
    Ok(shard_bytes)
}
