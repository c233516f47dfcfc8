//! Tests of rows that are known by hand: transforms and products of each engine, and rows that are lent, cleared and
//! summed. The contracts state this for all rows, and these tests show numbers.
use reed_solomon_simd::engine::tables::{Tables, get_exp_log};
use reed_solomon_simd::engine::utils::xor_within;
use reed_solomon_simd::engine::{
    DefaultEngine, Engine, EngineKind, GfElement, Naive, ShardsRefMut, Steps,
};
use std::process::Abort;

// Returns a chunk whose bytes differ from place to place.
fn mixed(first: u8) -> [u8; 64] {
    let mut chunk = [first; 64];
    for i in 0..64 {
        chunk[i] = chunk[i].wrapping_mul(i as u8).wrapping_add(first);
    }
    chunk
}

// Returns a chunk whose first symbol is this byte, and whose other symbols are zero.
fn first_symbol(byte: u8) -> [u8; 64] {
    let mut chunk = [0; 64];
    chunk[0] = byte;
    chunk
}

// Checks a forward and a backward transform.
fn check_transforms(rt: &impl Abort, engine: DefaultEngine<'_>) {
    let mut steps = Steps::new();
    let mut four = [mixed(3), [0; 64], [0; 64], [0; 64]];
    let mut rows = ShardsRefMut::new(4, 1, &mut four);
    engine.fft(&mut steps, &mut rows, 0, 4, 1, 0);
    let mut two = [first_symbol(4), first_symbol(0)];
    let mut rows = ShardsRefMut::new(2, 1, &mut two);
    engine.ifft(&mut steps, &mut rows, 0, 2, 2, 4);
    let wanted = [mixed(3), first_symbol(2), first_symbol(4)];
    assert_eq!(rt; [four[0], two[0], two[1]], wanted);
}

// Checks products of rows of 0 to 5 chunks.
fn check_products(rt: &impl Abort, engine: DefaultEngine<'_>, naive: Naive<'_>, log_m: GfElement) {
    let row = [mixed(3), mixed(5), mixed(7), mixed(11), mixed(13)];
    let mut steps = Steps::new();
    for count in 0..6 {
        let mut own = row;
        let mut wanted = row;
        engine.mul(&mut steps, &mut own[..count], log_m);
        naive.mul(&mut steps, &mut wanted[..count], log_m);
        assert_eq!(rt; (count, own), (count, wanted));
    }
}

#[test]
fn transforms_and_products_of_each_engine(rt: HostRuntime) {
    let tables = Tables::new(rt.alloc()).expect(&rt, "tables");
    let log_2 = get_exp_log(&tables).log[2];
    for kind in [
        EngineKind::Naive,
        EngineKind::NoSimd,
        EngineKind::Avx2,
        EngineKind::Ssse3,
    ] {
        let engine = DefaultEngine::new(&tables, kind);
        check_transforms(&rt, engine);
        for log_m in [0, log_2, 65535] {
            check_products(&rt, engine, Naive::new(&tables), log_m);
        }
    }
}

const CHUNKS: [[u8; 64]; 5] = [[1; 64], [2; 64], [3; 64], [4; 64], [5; 64]];

#[test]
fn rows_are_summed(rt: HostRuntime) {
    let mut chunks = CHUNKS;
    let mut rows = ShardsRefMut::new(4, 1, &mut chunks);
    xor_within(&mut Steps::new(), &mut rows, 0, 2, 2);
    assert_eq!(rt; chunks, [[2; 64], [6; 64], [3; 64], [4; 64], [5; 64]]);
}

#[test]
fn rows_are_lent_and_split(rt: HostRuntime) {
    let mut chunks = CHUNKS;
    let mut rows = ShardsRefMut::new(4, 1, &mut chunks);
    let (_, _, third, _) = rows.dist4_mut(0, 1);
    third.copy_from_slice(&[[9; 64]]);
    let mut rows = ShardsRefMut::new(4, 1, &mut chunks);
    let (front, back) = rows.split_at_mut(1);
    let lengths = [front.len(), back.len()];
    let wanted = [[1; 64], [2; 64], [9; 64], [4; 64], [5; 64]];
    assert_eq!(rt; (lengths, chunks), ([1, 3], wanted));
}

#[test]
fn rows_are_cleared_and_chunks_past_them_stay(rt: HostRuntime) {
    let mut chunks = CHUNKS;
    ShardsRefMut::new(4, 1, &mut chunks).zero(1..3);
    assert_eq!(rt; chunks, [[1; 64], [0; 64], [0; 64], [4; 64], [5; 64]]);

    let mut chunks = CHUNKS;
    ShardsRefMut::new(2, 2, &mut chunks).zero(0..2);
    assert_eq!(rt; chunks, [[0; 64], [0; 64], [0; 64], [0; 64], [5; 64]]);
}

#[test]
fn rows_may_be_empty(rt: HostRuntime) {
    let mut chunks = [];
    let rows = ShardsRefMut::new(3, 0, &mut chunks);
    let lengths = [rows.row(0).len(), rows.row(1).len(), rows.row(2).len()];
    assert_eq!(rt; (rows.len(), lengths), (3, [0; 3]));
}
