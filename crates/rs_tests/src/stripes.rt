//! A test of the recipe that encodes a file stripe by stripe.
use reed_solomon_simd::decode_slice;
use reed_solomon_simd::engine::tables::Tables;
use reed_solomon_simd::engine::{DefaultEngine, EngineKind};
use rs_examples::stripes::{STRIPE_BYTES, encode_file};
use std::alloc::{AllocError, Global};
use std::process::Abort;

// Returns a file of `count` bytes.
fn file_of(alloc: Global, count: usize) -> Result<Vec<u8>, AllocError> {
    let mut file = Vec::new(alloc);
    for i in 0..count {
        file.push((i % 251) as u8)?;
    }
    Ok(file)
}

// Returns the bytes of a stripe, filled up with zeros to four shards of this size.
fn padded(alloc: Global, stripe: &[u8], shard_bytes: usize) -> Result<Vec<u8>, AllocError> {
    let mut padded = stripe.to_vec(alloc)?;
    padded.resize(shard_bytes.saturating_mul(4), 0)?;
    Ok(padded)
}

// Checks that originals 0 and 1 come back from the last two originals and both recovery shards.
fn check_shards(
    rt: &impl Abort,
    alloc: Global,
    original: &[&[u8]],
    recovery: &[Vec<u8>],
    engine: DefaultEngine<'_>,
) {
    assert_eq!(rt; [original.len(), recovery.len()], [4, 2]);
    let kept = [(2, original[2]), (3, original[3])];
    let received = [(0, recovery[0].as_slice()), (1, recovery[1].as_slice())];
    let restored = decode_slice(alloc, 4, 2, &kept, &received, engine).expect(rt, "originals");
    let first = restored.get(&0).expect(rt, "original 0");
    let second = restored.get(&1).expect(rt, "original 1");
    let shards = (restored.len(), first.as_slice(), second.as_slice());
    assert_eq!(rt; shards, (2, original[0], original[1]));
}

// Loses originals 0 and 1 of a stripe, restores them, and checks that they come back. A stripe that is shorter than its
// four shards is filled up with zeros.
fn check_stripe(
    rt: &impl Abort,
    alloc: Global,
    stripe: &[u8],
    recovery: &[Vec<u8>],
    engine: DefaultEngine<'_>,
) {
    let shard_bytes = stripe.len().div_ceil(8).saturating_mul(2).max(2);
    let padded = padded(alloc, stripe, shard_bytes).expect(rt, "a stripe");
    let mut original: Vec<&[u8]> = Vec::new(alloc);
    for shard in padded.chunks(shard_bytes) {
        original.push(shard).expect(rt, "an original");
    }
    check_shards(rt, alloc, &original, recovery, engine);
}

// The file has two whole stripes, and 10 bytes more. The shards of the last stripe have 4 bytes, because that is the
// smallest even size with which four shards hold 10 bytes.
#[test]
fn stripes_of_a_file_come_back(rt: HostRuntime) {
    let alloc = rt.alloc();
    let tables = Tables::new(alloc).expect(&rt, "tables");
    let engine = DefaultEngine::new(&tables, EngineKind::Ssse3);
    let file = file_of(alloc, 2 * STRIPE_BYTES + 10).expect(&rt, "a file");
    let written = encode_file(alloc, file.as_slice(), engine).expect(&rt, "recovery");
    assert_eq!(rt; written.len(), 6);
    assert_eq!(rt; [written[3].len(), written[4].len()], [1024, 4]);
    for (stripe, recovery) in file.chunks(STRIPE_BYTES).zip(written.chunks(2)) {
        check_stripe(&rt, alloc, stripe, recovery, engine);
    }
}
