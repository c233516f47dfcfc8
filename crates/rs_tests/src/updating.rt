//! How `update_into` and `encode_into` call their engine. Their contracts state the bytes for each lawful engine. How
//! often they call it is in no contract.
use super::shards::drawn;
use reed_solomon_simd::engine::tables::Tables;
use reed_solomon_simd::engine::{
    DefaultEngine, Engine, EngineKind, GfElement, ShardsRefMut, Ssse3, Steps,
};
use reed_solomon_simd::{Error, encode_into, update_into};
use rs_field::engine::{AddedRows, Change, ChangeRows, ReadRows, Writing};
use std::alloc::Global;
use std::cell::Cell;
use std::process::Abort;

/// The engine with vectors of 16 bytes, which counts the calls that add a row, write sums of rows, add a change to rows
/// in place, transform rows that are only read, or compute a locator.
#[derive(Drop)]
pub struct Additions<'t> {
    inner: Ssse3<'t>,
    calls: &'t Cell<AddCalls>,
}

/// How often an engine adds a row, writes sums of rows, adds a change to rows in place, transforms rows that are only
/// read, and computes a locator.
#[derive(Clone, Copy, Debug, Default, PartialEq, Eq)]
pub struct AddCalls {
    /// The number of calls that add one row.
    pub one: u32,
    /// The number of calls that write sums of rows.
    pub sums: u32,
    /// The number of calls that add a change to rows in place.
    pub in_place: u32,
    /// The number of calls that transform rows that are only read.
    pub read: u32,
    /// The number of calls that compute a locator.
    pub locators: u32,
}

impl<'t> Additions<'t> {
    /// Makes the engine over these tables. It counts its calls in `calls`.
    pub fn new(tables: &'t Tables, calls: &'t Cell<AddCalls>) -> Additions<'t> {
        let inner = Ssse3::new(tables);
        Additions { inner, calls }
    }
}

impl Engine for Additions<'_> {
    fn fft(
        &self,
        steps: &mut Steps,
        rows: &mut ShardsRefMut<'_>,
        pos: usize,
        size: usize,
        truncated_size: usize,
        skew_delta: usize,
    ) {
        self.inner
            .fft(steps, rows, pos, size, truncated_size, skew_delta);
    }

    fn ifft(
        &self,
        steps: &mut Steps,
        rows: &mut ShardsRefMut<'_>,
        pos: usize,
        size: usize,
        truncated_size: usize,
        skew_delta: usize,
    ) {
        self.inner
            .ifft(steps, rows, pos, size, truncated_size, skew_delta);
    }

    fn reads_rows(&self) -> bool {
        Engine::reads_rows(&self.inner)
    }

    fn ifft_of<R: ReadRows>(
        &self,
        steps: &mut Steps,
        x: &mut [[u8; 64]],
        rows: &R,
        skew_delta: usize,
        writing: Writing,
    ) -> bool {
        let calls = self.calls.get();
        let read = calls.read.saturating_add(1);
        self.calls.set(AddCalls { read, ..calls });
        self.inner.ifft_of(steps, x, rows, skew_delta, writing)
    }

    fn mul(&self, steps: &mut Steps, x: &mut [[u8; 64]], log_m: GfElement) {
        self.inner.mul(steps, x, log_m);
    }

    fn eval_poly(&self, steps: &mut Steps, entries: &mut [GfElement], truncated_size: usize) {
        let calls = self.calls.get();
        let locators = calls.locators.saturating_add(1);
        self.calls.set(AddCalls { locators, ..calls });
        self.inner.eval_poly(steps, entries, truncated_size);
    }

    fn mul_add(&self, steps: &mut Steps, x: &mut [[u8; 64]], y: &[[u8; 64]], log_m: GfElement) {
        let calls = self.calls.get();
        let one = calls.one.saturating_add(1);
        self.calls.set(AddCalls { one, ..calls });
        self.inner.mul_add(steps, x, y, log_m);
    }

    fn add_rows<A: AddedRows>(
        &self,
        steps: &mut Steps,
        x: &mut [[u8; 64]],
        stride: usize,
        rows: &A,
        writing: Writing,
    ) -> bool {
        let calls = self.calls.get();
        let sums = calls.sums.saturating_add(1);
        self.calls.set(AddCalls { sums, ..calls });
        Engine::add_rows(&self.inner, steps, x, stride, rows, writing)
    }

    fn add_change<R: ChangeRows>(
        &self,
        steps: &mut Steps,
        rows: &mut R,
        change: Change<'_>,
        logs: &[GfElement],
    ) -> bool {
        let calls = self.calls.get();
        let in_place = calls.in_place.saturating_add(1);
        self.calls.set(AddCalls { in_place, ..calls });
        Engine::add_change(&self.inner, steps, rows, change, logs)
    }

    fn logarithms(&self, logs: &mut [GfElement]) -> bool {
        self.inner.logarithms(logs)
    }
}

/// Lends shards as rooms.
///
/// # Errors
///
/// [`Error::OutOfMemory`] if the list of rooms cannot be allocated.
pub fn lent(alloc: Global, shards: &mut [Vec<u8>]) -> Result<Vec<&mut [u8]>, Error> {
    let mut rooms: Vec<&mut [u8]> = Vec::new(alloc);
    for shard in shards {
        rooms.push(shard.as_mut_slice())?;
    }
    Ok(rooms)
}

// Changes original 1 of three originals, and returns how often the update of this number of recovery shards calls its
// engine.
fn calls_of_update(
    rt: &impl Abort,
    alloc: Global,
    tables: &Tables,
    recovery_count: usize,
    size: usize,
) -> AddCalls {
    let calls = Cell::new(AddCalls::default());
    let engine = Additions::new(tables, &calls);
    let shards = drawn(alloc, 2, size).expect(rt, "shards");
    let mut recovery = drawn(alloc, recovery_count, size).expect(rt, "recovery shards");
    let mut rooms = lent(alloc, &mut recovery).expect(rt, "rooms");
    let before = shards.get(0).expect(rt, "an original");
    let after = shards.get(1).expect(rt, "an original");
    update_into(
        alloc,
        3,
        recovery_count,
        1,
        before,
        after,
        &mut rooms,
        engine,
    )
    .expect(rt, "an update");
    drop(rooms);
    calls.get()
}

// One call adds all whole chunks of the change to all recovery shards in place. One call for each recovery shard adds
// the tail of the change.
#[test]
fn an_update_calls_its_engine_so_often(rt: HostRuntime) {
    let tables = Tables::new(rt.alloc()).expect(&rt, "tables");
    for (recovery_count, for_tails) in [(1, 1), (3, 3), (5, 5)] {
        for (size, in_place, has_tail) in [
            (2, 0, true),
            (62, 0, true),
            (64, 1, false),
            (66, 1, true),
            (2048, 1, false),
            (2050, 1, true),
            (4226, 1, true),
        ] {
            let one = if has_tail { for_tails } else { 0 };
            let calls = calls_of_update(&rt, rt.alloc(), &tables, recovery_count, size);
            let asked = (recovery_count, size);
            assert_eq!(rt; (asked, calls.in_place, calls.one), (asked, in_place, one));
        }
    }
}

// Returns the shards as slices. Fails with `OutOfMemory`.
fn views(alloc: Global, shards: &[Vec<u8>]) -> Result<Vec<&[u8]>, Error> {
    let mut views: Vec<&[u8]> = Vec::new(alloc);
    for shard in shards {
        views.push(shard.as_slice())?;
    }
    Ok(views)
}

// At the high rate, each block of two or four originals is read where it is in each strip, if no strip has a tail. Of a
// larger block, each group of four originals is read, if a shard has at least 256 bytes, but no group after the last
// original. For each further block of at most 16 originals, one more call reads the groups and adds them.
#[test]
fn an_encode_reads_originals_where_they_are(rt: HostRuntime) {
    let tables = Tables::new(rt.alloc()).expect(&rt, "tables");
    for (count, recovery_count, size, read) in [
        (2, 2, 64, 1),
        (4, 2, 64, 2),
        (5, 2, 64, 3),
        (4, 4, 64, 1),
        (3, 4, 64, 1),
        (10, 4, 4096, 3),
        (10, 4, 8192, 6),
        (10, 3, 4160, 6),
        (10, 4, 4098, 0),
        (10, 4, 62, 0),
        (4, 3, 64, 0),
        (20, 8, 64, 0),
        (20, 8, 192, 0),
        (20, 8, 256, 7),
        (20, 8, 258, 0),
        (20, 8, 8192, 14),
        (5, 8, 256, 2),
        (8, 8, 256, 2),
        (9, 8, 4160, 8),
        (33, 16, 256, 11),
        (16, 16, 320, 4),
        (2, 10, 64, 0),
    ] {
        let calls = Cell::new(AddCalls::default());
        let engine = Additions::new(&tables, &calls);
        let originals = drawn(rt.alloc(), count, size).expect(&rt, "originals");
        let mut recovery = drawn(rt.alloc(), recovery_count, size).expect(&rt, "recovery shards");
        let mut rooms = lent(rt.alloc(), &mut recovery).expect(&rt, "rooms");
        let original = views(rt.alloc(), &originals).expect(&rt, "views of originals");
        encode_into(
            rt.alloc(),
            count,
            recovery_count,
            &original,
            &mut rooms,
            engine,
        )
        .expect(&rt, "an encode");
        let asked = (count, recovery_count, size);
        assert_eq!(rt; (asked, calls.get().read), (asked, read));
    }
}

// Reading pays for engines by shuffles alone.
#[test]
fn engines_say_whether_they_read_rows(rt: HostRuntime) {
    let tables = Tables::new(rt.alloc()).expect(&rt, "tables");
    for (kind, reads) in [
        (EngineKind::Naive, false),
        (EngineKind::NoSimd, false),
        (EngineKind::Avx2, true),
        (EngineKind::Ssse3, true),
    ] {
        assert_eq!(rt; DefaultEngine::new(&tables, kind).reads_rows(), reads);
    }
}
