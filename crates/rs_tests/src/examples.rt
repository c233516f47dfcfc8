//! The examples of doc comments that show numbers, and the numbers that comments of examples state.
use reed_solomon_simd::engine::tables::{Tables, get_exp_log, get_log_walsh, get_log_walsh_below};
use reed_solomon_simd::engine::utils::{eval_poly, locate};
use reed_solomon_simd::engine::{
    DefaultEngine, Engine, EngineKind, GF_ORDER, Naive, NoSimd, Ssse3, Steps, UnknownEngine,
};
use reed_solomon_simd::rate::DefaultRateCounts;
use reed_solomon_simd::{
    DecoderResult, EncoderResult, Error, ReconstructError, ReedSolomonDecoder, ReedSolomonEncoder,
    ShardIndex, decode, decode_into, encode, encode_into, encode_slice, reconstruct,
    reconstruct_into, update_into, verify,
};
use rs_examples::walking::restored_copies;
use std::alloc::Global;
use std::process::Abort;
use std::str::FromStr;
use std::test::Fail;

// The message of the examples.
const ORIGINAL: [&[u8]; 3] = [b"Three shards", b" of one size", b" are coded. "];

// The recovery shards of `ORIGINAL`, which the Rust crate reed-solomon-simd 3.1.0 computed.
const RECOVERY: [[u8; 12]; 2] = [
    [
        0x8B, 0x6B, 0x49, 0x8D, 0x2D, 0x0E, 0xE3, 0x62, 0xFC, 0xE6, 0xD5, 0xC8,
    ],
    [
        0xDF, 0x0D, 0x2F, 0xAD, 0x07, 0x23, 0x9A, 0x4E, 0x8B, 0x99, 0xE5, 0xFE,
    ],
];

#[test]
fn a_recovery_shard_is_the_sum_of_all(rt: HostRuntime) -> Result<(), Error> {
    let alloc = rt.alloc();
    let tables = Tables::new(alloc)?;
    let engine = DefaultEngine::new(&tables, EngineKind::Ssse3);
    let original: [&[u8]; 3] = [&[1, 2], &[4, 8], &[16, 32]];
    let recovery = encode(alloc, 3, 1, original.into_iter(), engine)?;
    assert_eq!(rt; recovery.len(), 1);
    assert_eq!(rt; recovery[0].as_slice(), [21, 42].as_slice());
    Ok(())
}

fn recovery_shards_are_written_into_arrays(
    rt: &impl Abort,
    alloc: Global,
    engine: DefaultEngine<'_>,
) -> Result<(), Fail> {
    let original: [&[u8]; 3] = [&[2, 0], &[0, 0], &[4, 0]];
    let (mut first, mut second) = ([0; 2], [0; 2]);
    let mut recovery: Vec<&mut [u8]> = Vec::new(alloc);
    recovery.push(&mut first)?;
    recovery.push(&mut second)?;
    encode_into(alloc, 3, 2, &original, &mut recovery, engine)?;
    drop(recovery);
    assert_eq!(rt; (first, second), ([3, 0], [5, 0]));
    Ok(())
}

fn an_original_changes(
    rt: &impl Abort,
    alloc: Global,
    engine: DefaultEngine<'_>,
) -> Result<(), Fail> {
    let (mut first, mut second) = ([3, 0], [5, 0]);
    let mut recovery: Vec<&mut [u8]> = Vec::new(alloc);
    recovery.push(&mut first)?;
    recovery.push(&mut second)?;
    update_into(alloc, 3, 2, 1, &[0, 0], &[7, 1], &mut recovery, engine)?;
    drop(recovery);
    assert_eq!(rt; (first, second), ([198, 2], [199, 3]));
    Ok(())
}

fn two_recovery_shards_restore_two_originals(
    rt: &impl Abort,
    alloc: Global,
    engine: DefaultEngine<'_>,
) -> Result<(), Fail> {
    let received: [(usize, &[u8]); 2] = [(0, &[2, 0]), (1, &[3, 0])];
    let restored = decode(alloc, 2, 3, [].into_iter(), received.into_iter(), engine)?;
    assert_eq!(rt;
        restored.get(&0).ok_or("none")?.as_slice(),
        [0, 0].as_slice()
    );
    assert_eq!(rt;
        restored.get(&1).ok_or("none")?.as_slice(),
        [1, 0].as_slice()
    );
    Ok(())
}

fn lost_shards_of_both_kinds_come_back(
    rt: &impl Abort,
    alloc: Global,
    engine: DefaultEngine<'_>,
) -> Result<(), Fail> {
    let original: [(usize, &[u8]); 2] = [(0, ORIGINAL[0]), (1, ORIGINAL[1])];
    let recovery: [(usize, &[u8]); 1] = [(0, &RECOVERY[0])];
    let wanted = [ShardIndex::Recovery(1), ShardIndex::Original(2)];
    let made = reconstruct(alloc, 3, 2, &original, &recovery, &wanted, engine)?;
    assert_eq!(rt; made.len(), 2);
    assert_eq!(rt; made[0].as_slice(), RECOVERY[1].as_slice());
    assert_eq!(rt; made[1].as_slice(), ORIGINAL[2]);
    Ok(())
}

fn lost_shards_are_written_into_arrays(
    rt: &impl Abort,
    alloc: Global,
    engine: DefaultEngine<'_>,
) -> Result<(), Fail> {
    let original: [(usize, &[u8]); 2] = [(0, ORIGINAL[0]), (1, ORIGINAL[1])];
    let recovery: [(usize, &[u8]); 1] = [(0, &RECOVERY[0])];
    let wanted = [ShardIndex::Recovery(1), ShardIndex::Original(2)];
    let (mut first, mut second) = ([9; 12], [9; 12]);
    let mut rooms: Vec<&mut [u8]> = Vec::new(alloc);
    rooms.push(&mut first)?;
    rooms.push(&mut second)?;
    reconstruct_into(
        alloc, 3, 2, &original, &recovery, &wanted, &mut rooms, engine,
    )?;
    drop(rooms);
    assert_eq!(rt; first, RECOVERY[1]);
    assert_eq!(rt; second.as_slice(), ORIGINAL[2]);
    Ok(())
}

fn a_shard_that_was_received_cannot_be_wanted(
    rt: &impl Abort,
    alloc: Global,
    engine: DefaultEngine<'_>,
) -> Result<(), Fail> {
    let original: [(usize, &[u8]); 2] = [(0, ORIGINAL[0]), (1, ORIGINAL[1])];
    let recovery: [(usize, &[u8]); 1] = [(0, &RECOVERY[0])];
    let wanted = [ShardIndex::Recovery(0)];
    let answer = reconstruct(alloc, 3, 2, &original, &recovery, &wanted, engine);
    let refusal = ReconstructError::WantedReceived { wanted: wanted[0] };
    assert_eq!(rt; answer.err(), Some(refusal));
    Ok(())
}

fn a_changed_byte_is_noticed(
    rt: &impl Abort,
    alloc: Global,
    engine: DefaultEngine<'_>,
) -> Result<(), Error> {
    let original: [(usize, &[u8]); 2] = [(0, ORIGINAL[0]), (2, ORIGINAL[2])];
    let recovery: [(usize, &[u8]); 2] = [(0, &RECOVERY[0]), (1, &RECOVERY[1])];
    verify(alloc, 3, 2, &original, &recovery, engine)?;
    let changed: [(usize, &[u8]); 2] = [(0, ORIGINAL[0]), (2, b" are coded! ")];
    let refusal = Error::InconsistentShards {
        original_received_count: 2,
        recovery_received_count: 2,
    };
    let answer = verify(alloc, 3, 2, &changed, &recovery, engine);
    assert_eq!(rt; answer, Err(refusal));
    Ok(())
}

fn missing_originals_are_written_into_arrays(
    rt: &impl Abort,
    alloc: Global,
    engine: DefaultEngine<'_>,
) -> Result<(), Fail> {
    let recovery: [(usize, &[u8]); 2] = [(0, &[2, 0]), (1, &[3, 0])];
    let (mut first, mut second) = ([9; 2], [9; 2]);
    let mut restored: Vec<&mut [u8]> = Vec::new(alloc);
    restored.push(&mut first)?;
    restored.push(&mut second)?;
    decode_into(alloc, 2, 3, &[], &recovery, &mut restored, engine)?;
    drop(restored);
    assert_eq!(rt; (first, second), ([0, 0], [1, 0]));
    Ok(())
}

fn an_encode_needs_all_originals(
    rt: &impl Abort,
    alloc: Global,
    engine: DefaultEngine<'_>,
) -> Result<(), Error> {
    let mut encoder = ReedSolomonEncoder::new(alloc, 3, 2, 12, engine)?;
    let error = Error::TooFewOriginalShards {
        original_count: 3,
        original_received_count: 0,
    };
    assert_eq!(rt; encoder.encode().err(), Some(error));
    Ok(())
}

fn a_fourth_original_is_refused(
    rt: &impl Abort,
    encoder: &mut ReedSolomonEncoder<'_>,
) -> Result<(), Error> {
    for shard in ORIGINAL {
        encoder.add_original_shard(shard)?;
    }
    let error = Error::TooManyOriginalShards { original_count: 3 };
    assert_eq!(rt; encoder.add_original_shard(ORIGINAL[0]), Err(error));
    Ok(())
}

fn three_shards_have_these_recovery_shards(rt: &impl Abort, recovery: &EncoderResult<'_>) {
    let made = [recovery.recovery(0), recovery.recovery(1)];
    assert_eq!(rt;
        made,
        [Some(RECOVERY[0].as_slice()), Some(RECOVERY[1].as_slice())]
    );
}

fn three_shards_in_a_slice_have_these_recovery_shards(
    rt: &impl Abort,
    alloc: Global,
    engine: DefaultEngine<'_>,
) {
    let made = encode_slice(alloc, 3, 2, &ORIGINAL, engine).expect(rt, "recovery");
    assert_eq!(rt; made.len(), 2);
    let (first, second) = (made[0].as_slice(), made[1].as_slice());
    assert_eq!(rt;
        [first, second],
        [RECOVERY[0].as_slice(), RECOVERY[1].as_slice()]
    );
}

fn a_decode_needs_as_many_shards_as_originals(
    rt: &impl Abort,
    alloc: Global,
    engine: DefaultEngine<'_>,
) -> Result<(), Error> {
    let mut decoder = ReedSolomonDecoder::new(alloc, 3, 2, 12, engine)?;
    let error = Error::NotEnoughShards {
        original_count: 3,
        original_received_count: 0,
        recovery_received_count: 0,
    };
    assert_eq!(rt; decoder.decode().err(), Some(error));
    Ok(())
}

// Gives a decoder original 1 and both recovery shards of the message.
fn give_received(decoder: &mut ReedSolomonDecoder<'_>) -> Result<(), Error> {
    decoder.add_original_shard(1, ORIGINAL[1])?;
    decoder.add_recovery_shard(0, &RECOVERY[0])?;
    decoder.add_recovery_shard(1, &RECOVERY[1])
}

// Checks that a decode restored originals 0 and 2 of the message.
fn check_restored(rt: &impl Abort, restored: &DecoderResult<'_>) {
    let shards = [
        restored.restored_original(0),
        restored.restored_original(1),
        restored.restored_original(2),
    ];
    assert_eq!(rt; shards, [Some(ORIGINAL[0]), None, Some(ORIGINAL[2])]);
}

// Checks that these are originals 0 and 2 of the message, with their indexes.
fn check_copies(rt: &impl Abort, copies: &[(usize, Vec<u8>)]) {
    assert_eq!(rt; copies.len(), 2);
    let shards = [
        (copies[0].0, copies[0].1.as_slice()),
        (copies[1].0, copies[1].1.as_slice()),
    ];
    assert_eq!(rt; shards, [(0, ORIGINAL[0]), (2, ORIGINAL[2])]);
}

fn originals_0_and_2_come_back(
    rt: &impl Abort,
    alloc: Global,
    decoder: &mut ReedSolomonDecoder<'_>,
) -> Result<(), Error> {
    give_received(decoder)?;
    let restored = decoder.decode()?;
    check_restored(rt, &restored);
    let copies = restored_copies(alloc, &restored)?;
    check_copies(rt, &copies);
    Ok(())
}

fn a_decoder_is_reset(rt: &impl Abort, decoder: &mut ReedSolomonDecoder<'_>) -> Result<(), Fail> {
    decoder.reset(3, 2, 2)?;
    decoder.add_original_shard(1, &[0, 0])?;
    decoder.add_recovery_shard(0, &[3, 0])?;
    decoder.add_recovery_shard(1, &[5, 0])?;
    let restored = decoder.decode()?;
    let (first, last) = ([2, 0], [4, 0]);
    assert_eq!(rt;
        restored.restored_original(0).ok_or("none")?,
        first.as_slice()
    );
    assert_eq!(rt;
        restored.restored_original(2).ok_or("none")?,
        last.as_slice()
    );
    Ok(())
}

#[test]
fn counts_of_examples(rt: HostRuntime) {
    let error = Error::UnsupportedShardCount {
        original_count: 60000,
        recovery_count: 5000,
    };
    let errors = [
        DefaultRateCounts::new(60000, 5000).err(),
        DefaultRateCounts::new(60000, 4000).err(),
    ];
    assert_eq!(rt; errors, [Some(error), None]);
}

#[test]
fn an_error_is_told(rt: HostRuntime) -> Result<(), Fail> {
    let refusal = Error::NotEnoughShards {
        original_count: 3,
        original_received_count: 1,
        recovery_received_count: 1,
    };
    let text = format!(in rt.alloc(); "{refusal}\n")?;
    assert_eq!(rt;
        text.as_str(),
        "not enough shards: 1 original + 1 recovery < 3 original_count\n"
    );
    Ok(())
}

#[test]
fn names_of_engines(rt: HostRuntime) {
    let engines = [EngineKind::from_str("ssse3"), EngineKind::from_str("sse")];
    assert_eq!(rt; engines, [Ok(EngineKind::Ssse3), Err(UnknownEngine)]);
    assert_eq!(rt; EngineKind::FASTEST, EngineKind::Ssse3);
}

fn the_engine_without_vectors_multiplies(rt: &impl Abort, tables: &Tables) {
    let engine = NoSimd::new(&tables);
    let log_2 = get_exp_log(&tables).log[2];
    let mut row = [[0; 64]];
    row[0][0] = 4;
    engine.mul(&mut Steps::new(), &mut row, log_2);
    assert_eq!(rt; row[0][0], 11);
}

fn the_plain_engine_multiplies(rt: &impl Abort, tables: &Tables) {
    let engine = Naive::new(&tables);
    let log_2 = get_exp_log(&tables).log[2];
    let mut row = [[0; 64]];
    row[0][0] = 4;
    engine.mul(&mut Steps::new(), &mut row, log_2);
    assert_eq!(rt; row[0][0], 11);
}

fn the_engine_by_shuffles_multiplies(rt: &impl Abort, tables: &Tables) {
    let engine = Ssse3::new(&tables);
    let log_2 = get_exp_log(&tables).log[2];
    let mut row = [[0; 64]];
    row[0][0] = 4;
    engine.mul(&mut Steps::new(), &mut row, log_2);
    assert_eq!(rt; row[0][0], 11);
}

#[test]
fn engines_multiply(rt: HostRuntime) {
    let tables = Tables::new(rt.alloc()).expect(&rt, "tables");
    the_engine_without_vectors_multiplies(&rt, &tables);
    the_plain_engine_multiplies(&rt, &tables);
    the_engine_by_shuffles_multiplies(&rt, &tables);
}

#[test]
fn a_locator_of_one_point_is_made_of_logarithms(rt: HostRuntime) -> Result<(), Error> {
    let tables = Tables::new(rt.alloc())?;
    let mut erasures = [0; GF_ORDER];
    erasures[0] = 1;
    let log_walsh = get_log_walsh(&tables);
    eval_poly(&mut Steps::new(), &mut erasures, GF_ORDER, log_walsh);
    assert_eq!(rt; [erasures[2], erasures[3]], [21845, 43690]);

    let mut first = [1, 0, 0, 0];
    let log_walsh = get_log_walsh_below(&tables, 4);
    locate(&mut Steps::new(), &mut first, log_walsh);
    assert_eq!(rt; [first[2], first[3]], [21845, 43690]);
    Ok(())
}

#[test]
fn examples_of_one_call(rt: HostRuntime) -> Result<(), Fail> {
    let alloc = rt.alloc();
    let tables = Tables::new(alloc)?;
    let engine = DefaultEngine::new(&tables, EngineKind::Ssse3);
    recovery_shards_are_written_into_arrays(&rt, alloc, engine)?;
    an_original_changes(&rt, alloc, engine)?;
    two_recovery_shards_restore_two_originals(&rt, alloc, engine)?;
    missing_originals_are_written_into_arrays(&rt, alloc, engine)?;
    three_shards_in_a_slice_have_these_recovery_shards(&rt, alloc, engine);
    Ok(())
}

#[test]
fn examples_of_received_shards(rt: HostRuntime) -> Result<(), Fail> {
    let alloc = rt.alloc();
    let tables = Tables::new(alloc)?;
    let engine = DefaultEngine::new(&tables, EngineKind::Ssse3);
    lost_shards_of_both_kinds_come_back(&rt, alloc, engine)?;
    lost_shards_are_written_into_arrays(&rt, alloc, engine)?;
    a_shard_that_was_received_cannot_be_wanted(&rt, alloc, engine)?;
    a_changed_byte_is_noticed(&rt, alloc, engine)?;
    Ok(())
}

fn an_encoder_takes_three_originals(rt: &impl Abort, alloc: Global, engine: DefaultEngine<'_>) {
    let mut encoder = ReedSolomonEncoder::new(alloc, 3, 2, 12, engine).expect(rt, "an encoder");
    a_fourth_original_is_refused(rt, &mut encoder).expect(rt, "three originals");
    three_shards_have_these_recovery_shards(rt, &encoder.encode().expect(rt, "recovery"));
}

fn a_decoder_decodes_twice(
    rt: &impl Abort,
    alloc: Global,
    engine: DefaultEngine<'_>,
) -> Result<(), Fail> {
    let mut decoder = ReedSolomonDecoder::new(alloc, 3, 2, 12, engine)?;
    originals_0_and_2_come_back(rt, alloc, &mut decoder)?;
    a_decoder_is_reset(rt, &mut decoder)
}

#[test]
fn examples_of_objects(rt: HostRuntime) -> Result<(), Fail> {
    let alloc = rt.alloc();
    let tables = Tables::new(alloc)?;
    let engine = DefaultEngine::new(&tables, EngineKind::Ssse3);
    an_encode_needs_all_originals(&rt, alloc, engine)?;
    an_encoder_takes_three_originals(&rt, alloc, engine);
    a_decode_needs_as_many_shards_as_originals(&rt, alloc, engine)?;
    a_decoder_decodes_twice(&rt, alloc, engine)
}

#[test]
fn the_fastest_engine_encodes(rt: HostRuntime) -> Result<(), Error> {
    let alloc = rt.alloc();
    let tables = Tables::new(alloc)?;
    let engine = DefaultEngine::fastest(&tables);
    let original: [&[u8]; 3] = [&[1, 2], &[4, 8], &[16, 32]];
    let recovery = encode(alloc, 3, 1, original.into_iter(), engine)?;
    assert_eq!(rt; recovery.len(), 1);
    assert_eq!(rt; recovery[0].as_slice(), [21, 42].as_slice());
    Ok(())
}
