//! The engine that is chosen by name when the program runs.
use crate::engine_nosimd::NoSimd;
use crate::engine_shuffle::{Avx2, Ssse3};
use rs_field::engine::tables::Tables;
use rs_field::engine::{
    AddedRows, Change, ChangeRows, Engine, GfElement, Naive, ReadRows, ShardsRefMut, Steps, Writing,
};
use std::fmt;
use std::str::FromStr;

/// The kinds of engines. [`FromStr`](std::str::FromStr) reads their names in lower case: `naive`, `nosimd`, `avx2` and
/// `ssse3`.
///
/// # Examples
///
/// A program reads the name of an engine, and fails if the word is no name of an engine:
///
/// ```
/// // For the word "ssse3", from_str returns Ok(EngineKind::Ssse3). For "sse", it returns Err(UnknownEngine).
/// let Ok(engine) = EngineKind::from_str(engine.as_str()) else {
///     return Err(Fault::Usage);
/// };
/// ```
#[derive(Clone, Copy, Debug, PartialEq, Eq, Hash)]
pub enum EngineKind {
    /// [`Naive`], the plain engine, which computes each product with logarithms.
    Naive,
    /// [`NoSimd`], the engine without vectors, which looks up products by nibbles.
    NoSimd,
    /// [`Avx2`], the engine with vectors of 32 bytes, which looks up products by shuffles.
    Avx2,
    /// [`Ssse3`], the engine with vectors of 16 bytes, which looks up products by shuffles.
    Ssse3,
}

impl EngineKind {
    /// The kind of the fastest engine in this build, which [`DefaultEngine::fastest`] makes.
    ///
    /// It is [`Ssse3`](EngineKind::Ssse3), the kind for the default build, which is for x86-64-v2. The language has no
    /// conditions on the target, so the source cannot look at the build. Before you build for AVX2
    /// (`--cpu=x86-64-v3`), write [`Avx2`](EngineKind::Avx2) in this line. The library is proved with both kinds.
    ///
    /// # Examples
    ///
    /// ```
    /// assert_eq!(rt; EngineKind::FASTEST, EngineKind::Ssse3);
    /// ```
    pub const FASTEST: EngineKind = EngineKind::Ssse3;
}

/// The error for a word that is no name of an engine.
#[derive(Clone, Copy, Debug, PartialEq, Eq, Hash)]
pub struct UnknownEngine;

impl fmt::Display for UnknownEngine {
    ghost use Rattle.std.specs.Prelude.{Some, codes};

    ghost output = { λ _. Some (codes "unknown engine") };

    fn fmt<W: fmt::Write>(&self, f: &mut fmt::Formatter<W>) -> fmt::Result {
        write!(f, "unknown engine")
    }
}

impl std::error::Error for UnknownEngine {}

/// Reads the name of an engine in lower case: `naive`, `nosimd`, `avx2` or `ssse3`. Fails with [`UnknownEngine`] for
/// every other word.
impl FromStr for EngineKind {
    ghost use Rattle.std.specs.Prelude.{◌≡◌, Some, None, MatchResult};
    ghost use Rattle.rs_engines.specs.Kind.{engine_named};

    type Err = UnknownEngine;

    ghost from_str_gives = { λ name result. MatchResult result
        (λ kind. engine_named name ≡ Some kind) (λ _. engine_named name ≡ None) };

    fn from_str(name: &str) -> Result<EngineKind, UnknownEngine> {
        match name {
            "naive" => Ok(EngineKind::Naive),
            "nosimd" => Ok(EngineKind::NoSimd),
            "avx2" => Ok(EngineKind::Avx2),
            "ssse3" => Ok(EngineKind::Ssse3),
            _ => Err(UnknownEngine),
        }
    }
}

/// An engine of any kind, chosen while the program runs. It borrows the tables and allocates nothing.
///
/// # Examples
///
/// Engines of four types become values of one type:
///
/// ```
/// // This is [DefaultEngine::Naive(naive), DefaultEngine::NoSimd(no_simd), DefaultEngine::Avx2(avx2),
/// // DefaultEngine::Ssse3(ssse3)].
/// [naive.into(), no_simd.into(), avx2.into(), ssse3.into()]
/// ```
#[derive(Clone, Copy)]
pub enum DefaultEngine<'t> {
    /// The plain engine, which computes each product with logarithms.
    Naive(Naive<'t>),
    /// The engine without vectors, which looks up products by nibbles.
    NoSimd(NoSimd<'t>),
    /// The engine with vectors of 32 bytes, which looks up products by shuffles.
    Avx2(Avx2<'t>),
    /// The engine with vectors of 16 bytes, which looks up products by shuffles.
    Ssse3(Ssse3<'t>),
}

impl<'t> DefaultEngine<'t> {
    ghost use Rattle.std.specs.Prelude.{◌≡◌, ◌⊎◌};
    ghost use Rattle.rs_engines.specs.Kind.{kind_of, tables_of};

    /// Makes the engine of this kind over these tables.
    ///
    /// # Examples
    ///
    /// The engine encodes three originals of two bytes. One recovery shard of three originals is their XOR:
    ///
    /// ```
    /// let tables = Tables::new(alloc)?;
    /// let engine = DefaultEngine::new(&tables, EngineKind::Ssse3);
    /// let original: [&[u8]; 3] = [&[1, 2], &[4, 8], &[16, 32]];
    /// let recovery = encode(alloc, 3, 1, original.into_iter(), engine)?;
    /// assert_eq!(rt; recovery.len(), 1);
    /// assert_eq!(rt; recovery[0].as_slice(), [21, 42].as_slice());
    /// ```
    pub fn new(tables: &'t Tables, kind: EngineKind) -> DefaultEngine<'t>
        ensures kind { kind_of result ≡ kind }
        ensures tables { tables_of result ≡ tables.now }
    {
        match kind {
            EngineKind::Naive => DefaultEngine::Naive(Naive::new(tables)),
            EngineKind::NoSimd => DefaultEngine::NoSimd(NoSimd::new(tables)),
            EngineKind::Avx2 => DefaultEngine::Avx2(Avx2::new(tables)),
            EngineKind::Ssse3 => DefaultEngine::Ssse3(Ssse3::new(tables)),
        }
    }

    /// Makes the fastest engine of this build over these tables, so that the caller need not choose a kind. The kind is
    /// [`EngineKind::FASTEST`]. It is always one of the two kinds that look up products by shuffles.
    ///
    /// # Examples
    ///
    /// The engine encodes three originals of two bytes. One recovery shard of three originals is their XOR:
    ///
    /// ```
    /// let tables = Tables::new(alloc)?;
    /// let engine = DefaultEngine::fastest(&tables);
    /// let original: [&[u8]; 3] = [&[1, 2], &[4, 8], &[16, 32]];
    /// let recovery = encode(alloc, 3, 1, original.into_iter(), engine)?;
    /// assert_eq!(rt; recovery.len(), 1);
    /// assert_eq!(rt; recovery[0].as_slice(), [21, 42].as_slice());
    /// ```
    pub fn fastest(tables: &'t Tables) -> DefaultEngine<'t>
        ensures kind { kind_of result ≡ EngineKind.FASTEST }
        ensures by_shuffles { (kind_of result ≡ EngineKind.Ssse3)
            ⊎ (kind_of result ≡ EngineKind.Avx2) }
        ensures tables { tables_of result ≡ tables.now }
    {
        DefaultEngine::new(tables, EngineKind::FASTEST)
    }
}

/// Converts the plain engine into an engine of any kind.
impl<'t> From<Naive<'t>> for DefaultEngine<'t> {
    ghost use Rattle.std.specs.Prelude.{◌≡◌};
    ghost use Rattle.rs_engines.specs.declared.engine_default.DefaultEngine.TheVariants.{Naive as held};

    ghost from_gives = { λ engine result. result ≡ held engine };

    fn from(engine: Naive<'t>) -> DefaultEngine<'t> {
        DefaultEngine::Naive(engine)
    }
}

/// Converts the engine without vectors into an engine of any kind.
impl<'t> From<NoSimd<'t>> for DefaultEngine<'t> {
    ghost use Rattle.std.specs.Prelude.{◌≡◌};
    ghost use Rattle.rs_engines.specs.declared.engine_default.DefaultEngine.TheVariants.{NoSimd as held};

    ghost from_gives = { λ engine result. result ≡ held engine };

    fn from(engine: NoSimd<'t>) -> DefaultEngine<'t> {
        DefaultEngine::NoSimd(engine)
    }
}

/// Converts the engine with vectors of 32 bytes into an engine of any kind.
impl<'t> From<Avx2<'t>> for DefaultEngine<'t> {
    ghost use Rattle.std.specs.Prelude.{◌≡◌};
    ghost use Rattle.rs_engines.specs.declared.engine_default.DefaultEngine.TheVariants.{Avx2 as held};

    ghost from_gives = { λ engine result. result ≡ held engine };

    fn from(engine: Avx2<'t>) -> DefaultEngine<'t> {
        DefaultEngine::Avx2(engine)
    }
}

/// Converts the engine with vectors of 16 bytes into an engine of any kind.
impl<'t> From<Ssse3<'t>> for DefaultEngine<'t> {
    ghost use Rattle.std.specs.Prelude.{◌≡◌};
    ghost use Rattle.rs_engines.specs.declared.engine_default.DefaultEngine.TheVariants.{Ssse3 as held};

    ghost from_gives = { λ engine result. result ≡ held engine };

    fn from(engine: Ssse3<'t>) -> DefaultEngine<'t> {
        DefaultEngine::Ssse3(engine)
    }
}

impl Engine for DefaultEngine<'_> {
    ghost use Rattle.std.specs.Prelude.{◌≡◌, ℕ, ◌^◌, ◌<◌, ◌≤◌, true, length, slice_index};
    ghost use Rattle.rs_field.specs.words.Field.{log};
    ghost use Rattle.rs_field.specs.words.StepBounds.{LocatorCounts, LocatorCountsBelow};
    ghost use Rattle.rs_field.specs.words.Locator.{IsLocatorBelow};

    fn fft(
        &self,
        steps: &mut Steps,
        data: &mut ShardsRefMut<'_>,
        pos: usize,
        size: usize,
        truncated_size: usize,
        skew_delta: usize,
    ) {
        match self {
            Self::Naive(engine) => engine.fft(steps, data, pos, size, truncated_size, skew_delta),
            Self::NoSimd(engine) => engine.fft(steps, data, pos, size, truncated_size, skew_delta),
            Self::Avx2(engine) => engine.fft(steps, data, pos, size, truncated_size, skew_delta),
            Self::Ssse3(engine) => engine.fft(steps, data, pos, size, truncated_size, skew_delta),
        }
    }

    fn ifft(
        &self,
        steps: &mut Steps,
        data: &mut ShardsRefMut<'_>,
        pos: usize,
        size: usize,
        truncated_size: usize,
        skew_delta: usize,
    ) {
        match self {
            Self::Naive(engine) => engine.ifft(steps, data, pos, size, truncated_size, skew_delta),
            Self::NoSimd(engine) => engine.ifft(steps, data, pos, size, truncated_size, skew_delta),
            Self::Avx2(engine) => engine.ifft(steps, data, pos, size, truncated_size, skew_delta),
            Self::Ssse3(engine) => engine.ifft(steps, data, pos, size, truncated_size, skew_delta),
        }
    }

    fn fft_wanted(
        &self,
        steps: &mut Steps,
        data: &mut ShardsRefMut<'_>,
        pos: usize,
        wanted: &[bool],
        skew_delta: usize,
    ) {
        match self {
            Self::Naive(engine) => engine.fft_wanted(steps, data, pos, wanted, skew_delta),
            Self::NoSimd(engine) => engine.fft_wanted(steps, data, pos, wanted, skew_delta),
            Self::Avx2(engine) => engine.fft_wanted(steps, data, pos, wanted, skew_delta),
            Self::Ssse3(engine) => engine.fft_wanted(steps, data, pos, wanted, skew_delta),
        }
    }

    fn ifft_given(
        &self,
        steps: &mut Steps,
        data: &mut ShardsRefMut<'_>,
        pos: usize,
        given: &[bool],
        skew_delta: usize,
    ) {
        match self {
            Self::Naive(engine) => engine.ifft_given(steps, data, pos, given, skew_delta),
            Self::NoSimd(engine) => engine.ifft_given(steps, data, pos, given, skew_delta),
            Self::Avx2(engine) => engine.ifft_given(steps, data, pos, given, skew_delta),
            Self::Ssse3(engine) => engine.ifft_given(steps, data, pos, given, skew_delta),
        }
    }

    fn reads_rows(&self) -> bool {
        match self {
            Self::Naive(engine) => Engine::reads_rows(engine),
            Self::NoSimd(engine) => Engine::reads_rows(engine),
            Self::Avx2(engine) => Engine::reads_rows(engine),
            Self::Ssse3(engine) => Engine::reads_rows(engine),
        }
    }

    fn ifft_of<R: ReadRows>(
        &self,
        steps: &mut Steps,
        x: &mut [[u8; 64]],
        rows: &R,
        skew_delta: usize,
        writing: Writing,
    ) -> bool {
        match self {
            Self::Naive(engine) => engine.ifft_of(steps, x, rows, skew_delta, writing),
            Self::NoSimd(engine) => engine.ifft_of(steps, x, rows, skew_delta, writing),
            Self::Avx2(engine) => engine.ifft_of(steps, x, rows, skew_delta, writing),
            Self::Ssse3(engine) => engine.ifft_of(steps, x, rows, skew_delta, writing),
        }
    }

    fn mul(&self, steps: &mut Steps, x: &mut [[u8; 64]], log_m: GfElement) {
        match self {
            Self::Naive(engine) => engine.mul(steps, x, log_m),
            Self::NoSimd(engine) => engine.mul(steps, x, log_m),
            Self::Avx2(engine) => engine.mul(steps, x, log_m),
            Self::Ssse3(engine) => engine.mul(steps, x, log_m),
        }
    }

    fn mul_add(&self, steps: &mut Steps, x: &mut [[u8; 64]], y: &[[u8; 64]], log_m: GfElement) {
        match self {
            Self::Naive(engine) => engine.mul_add(steps, x, y, log_m),
            Self::NoSimd(engine) => engine.mul_add(steps, x, y, log_m),
            Self::Avx2(engine) => engine.mul_add(steps, x, y, log_m),
            Self::Ssse3(engine) => engine.mul_add(steps, x, y, log_m),
        }
    }

    fn add_rows<A: AddedRows>(
        &self,
        steps: &mut Steps,
        x: &mut [[u8; 64]],
        stride: usize,
        rows: &A,
        writing: Writing,
    ) -> bool {
        match self {
            Self::Naive(engine) => Engine::add_rows(engine, steps, x, stride, rows, writing),
            Self::NoSimd(engine) => Engine::add_rows(engine, steps, x, stride, rows, writing),
            Self::Avx2(engine) => Engine::add_rows(engine, steps, x, stride, rows, writing),
            Self::Ssse3(engine) => Engine::add_rows(engine, steps, x, stride, rows, writing),
        }
    }

    fn add_change<R: ChangeRows>(
        &self,
        steps: &mut Steps,
        rows: &mut R,
        change: Change<'_>,
        logs: &[GfElement],
    ) -> bool {
        match self {
            Self::Naive(engine) => Engine::add_change(engine, steps, rows, change, logs),
            Self::NoSimd(engine) => Engine::add_change(engine, steps, rows, change, logs),
            Self::Avx2(engine) => Engine::add_change(engine, steps, rows, change, logs),
            Self::Ssse3(engine) => Engine::add_change(engine, steps, rows, change, logs),
        }
    }

    fn eval_poly(&self, steps: &mut Steps, erasures: &mut [GfElement], truncated_size: usize) {
        match self {
            Self::Naive(engine) => engine.eval_poly(steps, erasures, truncated_size),
            Self::NoSimd(engine) => engine.eval_poly(steps, erasures, truncated_size),
            Self::Avx2(engine) => engine.eval_poly(steps, erasures, truncated_size),
            Self::Ssse3(engine) => engine.eval_poly(steps, erasures, truncated_size),
        }
    }

    fn locate(&self, steps: &mut Steps, erasures: &mut [GfElement])
        requires power { (d : ℕ) × (length erasures.old ≡ 2 ^ d) }
        requires few { length erasures.old ≤ 65536 }
        ensures values { IsLocatorBelow (length erasures.old) (λ y. slice_index erasures.old y)
            (λ x. slice_index erasures.new x) }
        ensures counts { LocatorCounts steps.old steps.new }
        ensures own_counts { LocatorCountsBelow (length erasures.old) steps.old steps.new }
    {
        match self {
            Self::Naive(engine) => engine.locate(steps, erasures),
            Self::NoSimd(engine) => engine.locate(steps, erasures),
            Self::Avx2(engine) => engine.locate(steps, erasures),
            Self::Ssse3(engine) => engine.locate(steps, erasures),
        }
    }

    fn logarithms(&self, logs: &mut [GfElement]) -> bool
        requires few { length logs.old ≤ 65536 }
        ensures values { result ≡ true
            → (z : ℕ) → 0 < z → z < length logs.old → slice_index logs.new z ≡ log z }
        ensures always { result ≡ true }
    {
        match self {
            Self::Naive(engine) => engine.logarithms(logs),
            Self::NoSimd(engine) => engine.logarithms(logs),
            Self::Avx2(engine) => engine.logarithms(logs),
            Self::Ssse3(engine) => engine.logarithms(logs),
        }
    }
}
