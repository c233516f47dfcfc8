//! The sizes of strips. The work area has room for one strip only, and for up to about a thousand shards it fits into
//! the processor's caches. Of the sizes that were measured with counts from 10:4 to 1000:200, those for encodes and for
//! decodes by rounds were the fastest or close to it. A size that depends on the counts was not worth its code.

/// The number of bytes of each shard that are encoded at a time.
pub(crate) const ENCODE_STRIP_BYTES: usize = 4096;

/// The number of bytes of each shard that are decoded at a time. If a decode also encodes, to rebuild recovery shards
/// or to make syndromes, it encodes as many bytes at a time.
pub(crate) const DECODE_STRIP_BYTES: usize = 2048;

/// The number of bytes of each shard that are added to direct sums at a time.
pub(crate) const SUM_STRIP_BYTES: usize = 4096;

/// The number of chunks in which up to four sums of syndromes are made.
pub(crate) const SYNDROME_SUM_CHUNKS: usize = 144;
