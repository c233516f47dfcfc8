//! How a decode calls its engine if it restores originals by direct sums, or from syndromes, and how many locators it
//! computes. The contract of a decode states the restored bytes for each lawful engine, but not how often the decode
//! calls its engine.
use super::counting::{FEW_LOST, after_decode};
use super::shards::{drawn, from_index};
use super::updating::{AddCalls, Additions, lent};
use reed_solomon_simd::engine::tables::Tables;
use reed_solomon_simd::engine::{DefaultEngine, EngineKind};
use reed_solomon_simd::{ShardIndex, decode_into, encode_slice, reconstruct_into};
use std::alloc::Global;
use std::cell::Cell;
use std::test::Fail;

// Loses the first originals of a message, and returns how often a decode with as many recovery shards, the last ones,
// calls its engine.
fn calls_of_decode(
    alloc: Global,
    tables: &Tables,
    (original_count, recovery_count, lost): (usize, usize, usize),
    shard_bytes: usize,
) -> Result<AddCalls, Fail> {
    let coding = DefaultEngine::new(tables, EngineKind::NoSimd);
    let message = drawn(alloc, original_count, shard_bytes)?;
    let recovery = encode_slice(alloc, original_count, recovery_count, &message, coding)?;
    let original = from_index(alloc, &message, lost)?;
    let received = from_index(alloc, &recovery, recovery_count.saturating_sub(lost))?;
    let room = vec![in alloc; 0; shard_bytes]?;
    let mut restored = vec![in alloc; room; lost]?;
    let mut rooms = lent(alloc, &mut restored)?;
    let calls = Cell::new(AddCalls::default());
    let engine = Additions::new(tables, &calls);
    decode_into(
        alloc,
        original_count,
        recovery_count,
        &original,
        &received,
        &mut rooms,
        engine,
    )?;
    Ok(calls.get())
}

// In each strip of at most 4096 bytes, one call adds the whole chunks of all pieces of the base. The tails of less than
// 64 bytes are added one by one.
#[test]
fn a_sum_calls_its_engine_so_often(rt: HostRuntime) -> Result<(), Fail> {
    let tables = Tables::new(rt.alloc())?;
    for (original_count, size, sums, one) in [
        (10, 2, 1, 10),
        (10, 64, 1, 0),
        (10, 66, 1, 10),
        (10, 4096, 1, 0),
        (10, 4098, 2, 10),
        (10, 8322, 3, 10),
        (3, 64, 1, 0),
        (3, 66, 1, 3),
        (3, 8192, 2, 0),
    ] {
        let calls = calls_of_decode(rt.alloc(), &tables, (original_count, 4, 1), size)?;
        let wanted = AddCalls {
            one,
            sums,
            in_place: 0,
            read: 0,
            locators: 1,
        };
        assert_eq!(rt;
            (original_count, size, calls),
            (original_count, size, wanted)
        );
    }
    Ok(())
}

// In each strip, one call makes up to four sums, and the next call makes the next ones. The tails are added to one sum
// after the other. Eight and nine lost originals of 60 are sums of as many syndromes, in strips of 2048 bytes. Of 100
// originals and 30 recovery shards, seven lost originals are direct sums, 8 to 16 are sums of syndromes, and 17 are
// found by transforms. For syndromes, the received originals are encoded. If no strip has a tail, the four blocks of 16
// are read where they are. Four calls read the groups of a block, and the last block has three groups. For each block
// but the first one, one more call adds the groups.
#[test]
fn up_to_four_sums_call_their_engine_once(rt: HostRuntime) -> Result<(), Fail> {
    let tables = Tables::new(rt.alloc())?;
    for (counts, size, sums, one, read) in [
        ((10, 4, 2), 64, 1, 0, 0),
        ((10, 4, 2), 66, 1, 20, 0),
        ((10, 4, 2), 4096, 1, 0, 0),
        ((10, 4, 2), 8192, 2, 0, 0),
        ((10, 4, 3), 64, 1, 0, 0),
        ((10, 4, 4), 64, 1, 0, 0),
        ((10, 5, 5), 64, 2, 0, 0),
        ((10, 5, 5), 66, 2, 50, 0),
        ((60, 12, 8), 2048, 2, 0, 18),
        ((60, 12, 8), 4096, 4, 0, 36),
        ((60, 12, 9), 2048, 3, 0, 18),
        ((100, 30, 7), 66, 2, 700, 0),
        ((100, 30, 8), 66, 2, 64, 0),
        ((100, 30, 16), 66, 4, 256, 0),
        ((100, 30, 17), 66, 0, 0, 0),
    ] {
        let calls = calls_of_decode(rt.alloc(), &tables, counts, size)?;
        let wanted = AddCalls {
            one,
            sums,
            in_place: 0,
            read,
            locators: 1,
        };
        assert_eq!(rt; (counts, size, calls), (counts, size, wanted));
    }
    Ok(())
}

// The shards have three strips. A decode of all originals transforms the rows of each strip, and a decode of one adds
// rows. From syndromes, two calls make four sums each in each strip, and the tails of eight rows are added to each of
// the eight sums of the last strip.
#[test]
fn a_decode_computes_one_locator(rt: HostRuntime) -> Result<(), Fail> {
    let tables = Tables::new(rt.alloc())?;
    let by_transforms = calls_of_decode(rt.alloc(), &tables, (8, 8, 8), 4226)?;
    assert_eq!(rt; (by_transforms.sums, by_transforms.locators), (0, 1));
    let by_sums = calls_of_decode(rt.alloc(), &tables, (8, 8, 1), 4226)?;
    assert_eq!(rt; by_sums.locators, 1);
    assert!(rt; by_sums.sums > 0);
    let by_syndromes = calls_of_decode(rt.alloc(), &tables, (60, 8, 8), 4226)?;
    let wanted = AddCalls {
        one: 8 * 8,
        sums: 2 * 3,
        in_place: 0,
        read: 0,
        locators: 1,
    };
    assert_eq!(rt; by_syndromes, wanted);
    Ok(())
}

// Loses original 0 of a message of eight originals and eight recovery shards, of which the first one is given, and
// returns how often a rebuild of all lost shards calls its engine.
fn calls_of_rebuild(alloc: Global, tables: &Tables, shard_bytes: usize) -> Result<AddCalls, Fail> {
    let coding = DefaultEngine::new(tables, EngineKind::NoSimd);
    let message = drawn(alloc, 8, shard_bytes)?;
    let recovery = encode_slice(alloc, 8, 8, &message, coding)?;
    let original = from_index(alloc, &message, 1)?;
    let mut received: Vec<(usize, &[u8])> = Vec::new(alloc);
    received.push((0, recovery[0].as_slice()))?;
    let mut wanted = Vec::new(alloc);
    wanted.push(ShardIndex::Original(0))?;
    for index in 1..8 {
        wanted.push(ShardIndex::Recovery(index))?;
    }
    let room = vec![in alloc; 0; shard_bytes]?;
    let mut made = vec![in alloc; room; 8]?;
    let mut rooms = lent(alloc, &mut made)?;
    let calls = Cell::new(AddCalls::default());
    let engine = Additions::new(tables, &calls);
    reconstruct_into(
        alloc, 8, 8, &original, &received, &wanted, &mut rooms, engine,
    )?;
    Ok(calls.get())
}

// Eight wanted shards are not made by sums: the lost original of each strip is a sum, and the strip is encoded then.
// All strips have one locator.
#[test]
fn a_rebuild_computes_one_locator(rt: HostRuntime) -> Result<(), Fail> {
    let tables = Tables::new(rt.alloc())?;
    for (size, strips) in [(64, 1), (4096, 2), (6208, 4)] {
        let calls = calls_of_rebuild(rt.alloc(), &tables, size)?;
        assert_eq!(rt; (size, calls.sums, calls.locators), (size, strips, 1));
    }
    Ok(())
}

// An object makes each sum by one call, which adds four rows.
#[test]
fn an_object_makes_each_sum_by_one_call(rt: HostRuntime) {
    let alloc = rt.alloc();
    let tables = Tables::new(alloc).expect(&rt, "tables");
    for (original, recovery, added, _) in FEW_LOST {
        let calls = Cell::new(AddCalls::default());
        let engine = Additions::new(&tables, &calls);
        let engine = after_decode(alloc, (4, 4), original, recovery, engine).expect(
            &rt,
            "an engine",
        );
        drop(engine);
        let wanted = AddCalls {
            one: 0,
            sums: added / 4,
            in_place: 0,
            read: 0,
            locators: 1,
        };
        assert_eq!(rt; calls.get(), wanted);
    }
}
