//! Tests of messages of any length: the examples of doc comments, and a message that is filled up with zeros.
use reed_solomon_simd::engine::DefaultEngine;
use reed_solomon_simd::engine::tables::Tables;
use reed_solomon_simd::{
    Error, ShardIndex, complete, encode, join, reconstruct, shard_bytes, split,
};
use rs_examples::message_round_trip::{reconstruction_of_a_message, round_trip_of_a_message};
use std::alloc::Global;
use std::collections::BTreeMap;
use std::test::Fail;

#[test]
fn sizes_of_shards(rt: HostRuntime) {
    assert_eq!(rt; shard_bytes(35, 3), Some(12));
    assert_eq!(rt; shard_bytes(36, 3), Some(12));
    assert_eq!(rt; shard_bytes(37, 3), Some(14));
    assert_eq!(rt; shard_bytes(0, 3), Some(2));
    assert_eq!(rt; shard_bytes(35, 0), None);
}

#[test]
fn ten_bytes_are_split(rt: HostRuntime) -> Result<(), Error> {
    let alloc = rt.alloc();
    let message: &[u8] = b"ten bytes.";
    let originals = split(alloc, message, 3)?;
    assert_eq!(rt; originals.len(), 3);
    assert_eq!(rt; originals[0].as_slice(), b"ten ".as_slice());
    assert_eq!(rt; originals[1].as_slice(), b"byte".as_slice());
    assert_eq!(rt; originals[2].as_slice(), b"s.\0\0".as_slice());
    Ok(())
}

#[test]
fn ten_bytes_are_joined(rt: HostRuntime) -> Result<(), Error> {
    let alloc = rt.alloc();
    let originals: [&[u8]; 3] = [b"ten ", b"byte", b"s.\0\0"];
    let message = join(alloc, &originals, 10)?;
    assert_eq!(rt; message.as_slice(), b"ten bytes.".as_slice());
    Ok(())
}

// Returns originals 0 and 2 of the message, as a decode restores them.
fn restored_originals(alloc: Global) -> Result<BTreeMap<usize, Vec<u8>>, Fail> {
    let mut restored = BTreeMap::new(alloc);
    restored.insert(0, b"ten ".to_vec(alloc)?)?;
    restored.insert(2, b"s.\0\0".to_vec(alloc)?)?;
    Ok(restored)
}

#[test]
fn two_restored_originals_are_completed(rt: HostRuntime) -> Result<(), Fail> {
    let alloc = rt.alloc();
    let restored = restored_originals(alloc)?;
    let received: [(usize, &[u8]); 1] = [(1, b"byte")];
    let originals = complete(alloc, 3, &received, restored)?;
    let message = join(alloc, &originals, 10)?;
    assert_eq!(rt; message.as_slice(), b"ten bytes.".as_slice());
    Ok(())
}

#[test]
fn two_reconstructed_originals_are_completed(rt: HostRuntime) {
    let alloc = rt.alloc();
    let tables = Tables::new(alloc).expect(&rt, "tables");
    let engine = DefaultEngine::fastest(&tables);
    let message: [&[u8]; 3] = [b"ten ", b"byte", b"s.\0\0"];
    let made = encode(alloc, 3, 2, message.into_iter(), engine).expect(&rt, "recovery");
    assert_eq!(rt; made.len(), 2);
    let received: [(usize, &[u8]); 1] = [(1, b"byte")];
    let recovery: [(usize, &[u8]); 2] = [(0, made[0].as_slice()), (1, made[1].as_slice())];
    let wanted = [ShardIndex::Original(0), ShardIndex::Original(2)];
    let made = reconstruct(alloc, 3, 2, &received, &recovery, &wanted, engine).expect(
        &rt,
        "originals",
    );
    let restored = [0, 2]
        .iter()
        .copied()
        .zip(made)
        .collect(alloc)
        .expect(&rt, "a map");
    let originals = complete(alloc, 3, &received, restored).expect(&rt, "originals");
    let message = join(alloc, &originals, 10).expect(&rt, "a message");
    assert_eq!(rt; message.as_slice(), b"ten bytes.".as_slice());
}

// The message has one byte, so the last byte of its original, and both other originals, are filled up with zeros.
#[test]
fn a_message_of_one_byte_comes_back(rt: HostRuntime) -> Result<(), Fail> {
    let alloc = rt.alloc();
    let tables = Tables::new(alloc)?;
    let engine = DefaultEngine::fastest(&tables);
    let decoded = round_trip_of_a_message(alloc, &[7], 3, 2, &[0, 2], &[], engine)?;
    let made = reconstruction_of_a_message(alloc, &[7], 3, 2, &[0], &[1], engine)?;
    assert_eq!(rt; decoded.as_slice(), [7].as_slice());
    assert_eq!(rt; made.as_slice(), [7].as_slice());
    Ok(())
}
