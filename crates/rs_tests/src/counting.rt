//! How often encoders and decoders call their engine. Contracts bound the row steps that are counted on `Steps`, but a
//! body could count its steps on another `Steps`, or work without its engine.
ghost use Rattle.std.specs.Prelude.{◌<◌};

use reed_solomon_simd::Error;
use reed_solomon_simd::engine::tables::Tables;
use reed_solomon_simd::engine::{Engine, GfElement, Naive, ShardsRefMut, Steps};
use reed_solomon_simd::rate::{DefaultRate, Rate, RateDecoder, RateEncoder};
use rs_field::engine::kernel::Kernel;
use rs_field::engine::lent_tables::LentTables;
use std::alloc::Global;
use std::cell::Cell;
use std::process::Abort;

// The number of calls of each method. The constants below are the indexes of the methods. `eval_poly` and `locate` both
// compute a locator, and share an index.
type Calls = [u32; 4];

const FFT: usize = 0;

const IFFT: usize = 1;

const MUL: usize = 2;

const LOCATOR: usize = 3;

/// The plain engine without its own sums. It counts its calls, and the entries of all locators that it computed. If it
/// has no logarithms, its decoders never use direct sums.
#[derive(Drop)]
pub struct Counting<'t> {
    naive: Naive<'t>,
    has_logarithms: bool,
    calls: Cell<Calls>,
    entries: Cell<usize>,
}

impl<'t> Counting<'t> {
    fn new(tables: &'t Tables, has_logarithms: bool) -> Counting<'t> {
        Counting {
            naive: Naive::new(tables),
            has_logarithms,
            calls: Cell::new([0; 4]),
            entries: Cell::new(0),
        }
    }

    // Counts a call of the method with this index.
    fn count(&self, method: usize)
        requires { method < 4 }
    {
        let mut calls = self.calls.get();
        calls[method] = calls[method].saturating_add(1);
        self.calls.set(calls);
    }

    // Counts a call that computes a locator with this number of entries.
    fn count_locator(&self, entries: usize) {
        self.count(LOCATOR);
        self.entries.set(self.entries.get().saturating_add(entries));
    }
}

impl Engine for Counting<'_> {
    fn fft(
        &self,
        steps: &mut Steps,
        rows: &mut ShardsRefMut<'_>,
        pos: usize,
        size: usize,
        truncated_size: usize,
        skew_delta: usize,
    ) {
        self.count(FFT);
        self.naive
            .fft(steps, rows, pos, size, truncated_size, skew_delta);
    }

    fn ifft(
        &self,
        steps: &mut Steps,
        rows: &mut ShardsRefMut<'_>,
        pos: usize,
        size: usize,
        truncated_size: usize,
        skew_delta: usize,
    ) {
        self.count(IFFT);
        self.naive
            .ifft(steps, rows, pos, size, truncated_size, skew_delta);
    }

    fn mul(&self, steps: &mut Steps, x: &mut [[u8; 64]], log_m: GfElement) {
        self.count(MUL);
        self.naive.mul(steps, x, log_m);
    }

    fn eval_poly(&self, steps: &mut Steps, entries: &mut [GfElement], truncated_size: usize) {
        self.count_locator(entries.len());
        self.naive.eval_poly(steps, entries, truncated_size);
    }

    fn locate(&self, steps: &mut Steps, entries: &mut [GfElement]) {
        self.count_locator(entries.len());
        self.naive.locate(steps, entries);
    }

    fn logarithms(&self, logs: &mut [GfElement]) -> bool {
        self.has_logarithms && self.naive.logarithms(logs)
    }
}

// Returns how often an encode of these originals calls its engine.
fn calls_of_encode(
    alloc: Global,
    tables: &Tables,
    original: &[[u8; 2]],
    recovery_count: usize,
) -> Result<Calls, Error> {
    let engine = Counting::new(tables, false);
    let mut encoder = DefaultRate::encoder(alloc, original.len(), recovery_count, 2, engine, None)?;
    for shard in original {
        encoder.add_original_shard(shard)?;
    }
    encoder.encode(&mut Steps::new()).map(drop)?;
    Ok(encoder.into_parts().0.calls.get())
}

/// The index of a shard, and its two bytes.
pub type Item = (usize, [u8; 2]);

/// Returns the engine after a decode of these shards, with these numbers of originals and of recovery shards.
///
/// # Errors
///
/// The error of the decoder.
pub fn after_decode<E: Engine>(
    alloc: Global,
    (original_count, recovery_count): (usize, usize),
    original: &[Item],
    recovery: &[Item],
    engine: E,
) -> Result<E, Error> {
    let mut decoder = DefaultRate::decoder(alloc, original_count, recovery_count, 2, engine, None)?;
    for (index, shard) in original {
        decoder.add_original_shard(*index, shard)?;
    }
    for (index, shard) in recovery {
        decoder.add_recovery_shard(*index, shard)?;
    }
    decoder.decode(&mut Steps::new()).map(drop)?;
    Ok(decoder.into_parts().0)
}

// Four originals and three recovery shards have the low rate, and four and four the high rate.
const LOW_AND_HIGH: [(usize, usize); 2] = [(4, 3), (4, 4)];

// The shards that a decode is given, how often it calls `fft`, `ifft` and a method for a locator, and how often it
// calls `mul` at most: once for each given shard and once for each restored shard.
type Decode<'a> = (&'a [Item], &'a [Item], [u32; 3], u32);

// All shards belong to one message of four originals. A decode transforms once to check and once to restore.
const DECODES: [Decode<'static>; 3] = [
    (
        &[(3, [3, 0]), (1, [0, 0])],
        &[(2, [14, 0]), (0, [11, 0])],
        [1, 1, 1],
        6,
    ),
    (
        &[(0, [0, 0]), (2, [2, 0]), (3, [3, 0]), (1, [0, 0])],
        &[(0, [11, 0])],
        [0, 1, 1],
        5,
    ),
    (
        &[(0, [0, 0]), (2, [2, 0]), (3, [3, 0]), (1, [0, 0])],
        &[],
        [0, 0, 0],
        0,
    ),
];

// Checks how often a decode calls its engine.
fn check_decode(
    rt: &impl Abort,
    alloc: Global,
    tables: &Tables,
    counts: (usize, usize),
    (original, recovery, others, most): Decode<'_>,
) {
    let engine = Counting::new(tables, false);
    let engine = after_decode(alloc, counts, original, recovery, engine).expect(rt, "an engine");
    let [fft, ifft, mul, locator] = engine.calls.get();
    assert_eq!(rt; [fft, ifft, locator], others);
    assert!(rt; mul <= most);
}

// An encode transforms each block, and once more. At the low rate there are two blocks of two recovery shards, and at
// the high rate two blocks of two originals.
#[test]
fn each_rate_calls_its_engine_so_often(rt: HostRuntime) {
    let alloc = rt.alloc();
    let tables = Tables::new(alloc).expect(&rt, "tables");
    let low = calls_of_encode(alloc, &tables, &[[0, 0], [1, 0]], 3);
    let high = calls_of_encode(alloc, &tables, &[[2, 0], [0, 0], [4, 0]], 2);
    assert_eq!(rt; (low, high), (Ok([2, 1, 0, 0]), Ok([1, 2, 0, 0])));
    for counts in LOW_AND_HIGH {
        for decode in DECODES {
            check_decode(&rt, alloc, &tables, counts, decode);
        }
    }
}

// The counts of a message of zeros, the originals and the recovery shards that a decode over 16 rows is given, and the
// numbers of butterflies of its backward and of its forward transform.
type Zeros<'a> = ((usize, usize), &'a [Item], &'a [Item], [usize; 2]);

// A transform of 16 rows has two layers of eight butterflies between its quarters, and four butterflies in each
// quarter. At the low rate, the second quarter has no received row, and the last two quarters have no missing original.
// At the high rate, the last two quarters have no received row, and the first two have no missing original.
const OVER_SIXTEEN_ROWS: [Zeros<'static>; 2] = [
    (
        (8, 7),
        &[(0, [0; 2])],
        &[
            (0, [0; 2]),
            (1, [0; 2]),
            (2, [0; 2]),
            (3, [0; 2]),
            (4, [0; 2]),
            (5, [0; 2]),
            (6, [0; 2]),
        ],
        [28, 24],
    ),
    (
        (8, 8),
        &[],
        &[
            (0, [0; 2]),
            (1, [0; 2]),
            (2, [0; 2]),
            (3, [0; 2]),
            (4, [0; 2]),
            (5, [0; 2]),
            (6, [0; 2]),
            (7, [0; 2]),
        ],
        [24, 24],
    ),
];

// A decode over 16 rows computes its locator at 16 points.
#[test]
fn a_decode_locates_its_own_rows(rt: HostRuntime) {
    let tables = Tables::new(rt.alloc()).expect(&rt, "tables");
    for (counts, original, recovery, _) in OVER_SIXTEEN_ROWS {
        let engine = Counting::new(&tables, false);
        let engine = after_decode(rt.alloc(), counts, original, recovery, engine).expect(
            &rt,
            "an engine",
        );
        assert_eq!(rt; engine.entries.get(), 16);
    }
}

/// The shards that a decode is given, how many multiples of rows its sums add, and how often it calls `mul` if the
/// engine has no sums of its own. There is one direct sum for each missing original and one for each surplus shard. A
/// sum adds a multiple of each of four shards, and without sums of the engine this takes two products. All shards
/// belong to one message of four originals.
pub type Sums<'a> = (&'a [Item], &'a [Item], u32, u32);

/// Decodes by direct sums.
pub const FEW_LOST: [Sums<'static>; 3] = [
    (
        &[(0, [0, 0]), (2, [2, 0]), (3, [3, 0])],
        &[(0, [11, 0])],
        4,
        8,
    ),
    (
        &[(3, [3, 0]), (1, [0, 0])],
        &[(2, [14, 0]), (0, [11, 0])],
        8,
        16,
    ),
    (
        &[(0, [0, 0]), (1, [0, 0]), (2, [2, 0])],
        &[(2, [14, 0]), (1, [9, 0])],
        8,
        16,
    ),
];

// A decode by direct sums makes one locator and no transform.
#[test]
fn a_decode_of_few_lost_shards_calls_its_engine_so_often(rt: HostRuntime) {
    let alloc = rt.alloc();
    let tables = Tables::new(alloc).expect(&rt, "tables");
    for counts in LOW_AND_HIGH {
        for (original, recovery, _, products) in FEW_LOST {
            let engine = Counting::new(&tables, true);
            let engine = after_decode(alloc, counts, original, recovery, engine).expect(
                &rt,
                "an engine",
            );
            assert_eq!(rt; engine.calls.get(), [0, 0, products, 1]);
        }
    }
}

/// The plain engine's kernel, which counts the butterflies of rows of one chunk.
#[derive(Drop)]
pub struct Butterflies<'t> {
    naive: Naive<'t>,
    forward: Cell<usize>,
    backward: Cell<usize>,
}

impl Kernel for Butterflies<'_> {
    fn tables(&self) -> LentTables<'_> {
        self.naive.tables()
    }

    fn fft_butterfly(&self, x: &mut [[u8; 64]], y: &mut [[u8; 64]], log_m: GfElement) {
        self.forward.set(self.forward.get().saturating_add(x.len()));
        self.naive.fft_butterfly(x, y, log_m);
    }

    fn ifft_butterfly(&self, x: &mut [[u8; 64]], y: &mut [[u8; 64]], log_m: GfElement) {
        self.backward
            .set(self.backward.get().saturating_add(x.len()));
        self.naive.ifft_butterfly(x, y, log_m);
    }

    fn mul_row(&self, x: &mut [[u8; 64]], log_m: GfElement) {
        self.naive.mul_row(x, log_m);
    }

    fn mul_add_row(&self, x: &mut [[u8; 64]], y: &[[u8; 64]], log_m: GfElement) {
        self.naive.mul_add_row(x, y, log_m);
    }
}

// A decode leaves out the quarters in which no row is used.
#[test]
fn a_decode_leaves_empty_quarters_out(rt: HostRuntime) {
    let tables = Tables::new(rt.alloc()).expect(&rt, "tables");
    for (counts, original, recovery, butterflies) in OVER_SIXTEEN_ROWS {
        let engine = Butterflies {
            naive: Naive::new(&tables),
            forward: Cell::new(0),
            backward: Cell::new(0),
        };
        let engine = after_decode(rt.alloc(), counts, original, recovery, engine).expect(
            &rt,
            "an engine",
        );
        assert_eq!(rt; [engine.backward.get(), engine.forward.get()], butterflies);
    }
}
