//! Tests of locators that are known by hand, for every engine. The contract states an entry only modulo 65535, and
//! these tests show the numbers themselves.
ghost use Rattle.std.specs.Prelude.{◌≡◌, ◌≤◌, length};

use reed_solomon_simd::engine::tables::{Tables, get_exp_log};
use reed_solomon_simd::engine::{
    Avx2, DefaultEngine, Engine, EngineKind, GF_ORDER, GfElement, Naive, NoSimd, Ssse3, Steps,
};
use std::process::Abort;

// Returns the locator of the points from `first` up to, but not including, `end`, as the engine computes it.
fn located<E: Engine>(engine: &E, first: usize, end: usize) -> [GfElement; 65536]
    requires { end ≤ 65536 }
{
    let mut entries = [0; 65536];
    for y in first..end {
        entries[y] = 1;
    }
    let mut steps = Steps::new();
    engine.eval_poly(&mut steps, &mut entries, end);
    entries
}

// Checks that each of these entries is the logarithm of one, which is 0 or 65535.
fn check_ones(rt: &impl Abort, entries: &[GfElement], marked: &str) {
    for (x, entry) in entries.iter().enumerate() {
        assert_eq!(rt; (marked, x, *entry % 65535), (marked, x, 0));
    }
}

// Checks locators at all points. An entry is the logarithm of a product of differences of points.
fn check_locators<E: Engine>(rt: &impl Abort, engine: &E, log: &[GfElement])
    requires { length log.now ≡ 65536 }
{
    check_ones(rt, &located(engine, 0, 0), "none");
    let entries = located(engine, 0, 1);
    check_ones(rt, &entries[..2], "0");
    assert_eq!(rt; [entries[2], entries[3]], [log[2], log[3]]);
    // The differences are 2 and 3 at 0 and 1, whose product is 1, and 1 at 2 and 3.
    let entries = located(engine, 2, 4);
    check_ones(rt, &entries[..4], "2 and 3");
    // The differences are all nonzero elements, whose product is 1.
    check_ones(rt, &located(engine, 0, GF_ORDER), "all");
}

// Checks the locator of an engine over the first four points.
fn check_first_points<E: Engine>(rt: &impl Abort, engine: &E, log: &[GfElement])
    requires { length log.now ≡ 65536 }
{
    let mut steps = Steps::new();
    let mut first = [1, 0, 0, 0];
    engine.locate(&mut steps, &mut first);
    assert_eq!(rt; [first[0] % 65535, first[1] % 65535], [0, 0]);
    assert_eq!(rt; [first[2], first[3]], [log[2], log[3]]);
    let mut last = [0, 0, 1, 1];
    engine.locate(&mut steps, &mut last);
    check_ones(rt, &last, "2 and 3 of four");
}

fn check_engine<E: Engine>(rt: &impl Abort, engine: &E, log: &[GfElement])
    requires { length log.now ≡ 65536 }
{
    check_locators(rt, engine, log);
    check_first_points(rt, engine, log);
}

#[test]
fn locators_of_each_engine(rt: HostRuntime) {
    let tables = Tables::new(rt.alloc()).expect(&rt, "tables");
    let log = get_exp_log(&tables).log.as_slice();
    check_engine(&rt, &Naive::new(&tables), log);
    check_engine(&rt, &NoSimd::new(&tables), log);
    check_engine(&rt, &Ssse3::new(&tables), log);
    check_engine(&rt, &Avx2::new(&tables), log);
    check_engine(&rt, &DefaultEngine::new(&tables, EngineKind::Naive), log);
}
