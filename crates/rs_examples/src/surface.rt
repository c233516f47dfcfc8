//! Every public path that the library shares with the Rust crate, and some others, each used with its type and with its
//! meaning. If a name were exported for another item, this file would not compile, or the prover would refuse it.
ghost use Rattle.std.specs.Iterator.{IsFinite};
ghost use Rattle.std.specs.Option.{option_copied, option_map};
ghost use Rattle.std.specs.Prelude.{◌≡◌, ℕ, ◌^◌, ◌<◌, ◌≤◌, true, List, [], ◌∷◌, length, map};
ghost use Rattle.std.specs.Prelude.{slice_get, slice_index, bit_xor};
ghost use Rattle.std.specs.Prelude.{codes, Some, None, Result, Ok, Err, IfOk, IfSome, IsSome, MatchResult};
ghost use Rattle.reed_solomon_simd.specs.Column.{Shard};
ghost use Rattle.reed_solomon_simd.specs.Counts.{low_rate, high_rate, default_rate, supports};
ghost use Rattle.reed_solomon_simd.specs.Field.{product, power};
ghost use Rattle.reed_solomon_simd.specs.Decoder.{with_recovery};
ghost use Rattle.reed_solomon_simd.specs.DecoderObject.{state_of as decoder_of};
ghost use Rattle.reed_solomon_simd.specs.Encoder.{EncodeAnswers};
ghost use Rattle.reed_solomon_simd.specs.EncoderObject.{state_of as encoder_of};
ghost use Rattle.reed_solomon_simd.specs.Given.{Lists};
ghost use Rattle.reed_solomon_simd.specs.Kind.{kind_of, engine_named};
ghost use Rattle.reed_solomon_simd.specs.Locator.{IsLocator, IsLocatorBelow};
ghost use Rattle.reed_solomon_simd.specs.Messages.{IsLeastSize};
ghost use Rattle.reed_solomon_simd.specs.OneCall.{Items, Lends, LendsItems, shards_in, collected_shards, collected_map};
ghost use Rattle.reed_solomon_simd.specs.OneCall.{OneEncodeAnswers, OneDecodeAnswers};
ghost use Rattle.reed_solomon_simd.specs.Outcome.{answer_of};
ghost use Rattle.reed_solomon_simd.specs.ResultView.{recovery_shards, restored_originals};
ghost use Rattle.rs_field.specs.rows.MarkedRows.{is_marked, OthersAreZero};
ghost use Rattle.reed_solomon_simd.specs.Rows.{chunk, symbol};
ghost use Rattle.reed_solomon_simd.specs.View.{word, Fits};
ghost use Rattle.reed_solomon_simd.specs.EncoderView.{work_room as encoder_room};
ghost use Rattle.reed_solomon_simd.specs.DecoderRoom.{work_room as decoder_room};
ghost use Rattle.rs_field.specs.words.StepBounds.{LocatorCountsBelow};
ghost use Rattle.rs_field.specs.words.Products.{IsMul16, IsMul128};
ghost use Rattle.reed_solomon_simd.specs.Tables.{IsExpLog, IsLogWalsh, IsSkew};

use reed_solomon_simd::engine::tables::{
    Exp, ExpLog, Log, LogWalsh, Mul16, Mul128, Multiply128lutT, Skew, Tables, get_exp_log,
    get_log_walsh, get_log_walsh_below, get_mul16, get_mul128, get_skew, mul,
};
use reed_solomon_simd::engine::utils::{eval_poly, locate, xor, xor_within};
use reed_solomon_simd::engine::{
    Avx2, CANTOR_BASIS, DefaultEngine, Engine, EngineKind, GF_BITS, GF_MODULUS, GF_ORDER,
    GF_POLYNOMIAL, GfElement, Naive, NoSimd, ShardsRefMut, Ssse3, Steps, UnknownEngine,
};
use reed_solomon_simd::rate::{
    DecoderWork, DefaultRate, DefaultRateCounts, DefaultRateDecoder, DefaultRateEncoder,
    EncoderWork, HighRate, HighRateCounts, HighRateDecoder, HighRateEncoder, LowRate,
    LowRateCounts, LowRateDecoder, LowRateEncoder, Rate, RateDecoder, RateEncoder,
};
use reed_solomon_simd::{
    DecoderResult, EncoderResult, Error, Recovery, ReedSolomonDecoder, ReedSolomonEncoder,
    RestoredOriginal, VERSION, decode, decode_slice, encode, encode_slice, shard_bytes,
};
use std::alloc::Global;
use std::collections::BTreeMap;
use std::str::FromStr;

/// Returns the constants of the field: bits, elements, modulus, polynomial, and the first word of the basis.
pub fn constants() -> (usize, usize, GfElement, usize, GfElement)
    ensures { result ≡ (16, 65536, 65535, 0x1002D, 1) }
{
    let first = CANTOR_BASIS[0];
    (GF_BITS, GF_ORDER, GF_MODULUS, GF_POLYNOMIAL, first)
}

/// Returns the tables that transforms and locators read.
pub fn tables_of_points(tables: &Tables) -> (&ExpLog, Skew<'_>, LogWalsh<'_>)
    ensures exp_log { IsExpLog result.0.now.exp.items result.0.now.log.items }
    ensures skew { IsSkew result.1.now }
    ensures log_walsh { IsLogWalsh result.2.now }
{
    (get_exp_log(tables), get_skew(tables), get_log_walsh(tables))
}

/// Returns the products by nibbles, as words and as bytes.
pub fn products(tables: &Tables) -> (Mul16<'_>, Mul128<'_>)
    ensures words { IsMul16 result.0.now }
    ensures bytes { IsMul128 result.1.now }
{
    (get_mul16(tables), get_mul128(tables))
}

/// Returns the numbers of an entry of the products as bytes: the numbers of the low bytes, and the numbers of the high
/// bytes.
pub fn numbers(entry: &Multiply128lutT) -> ([u128; 4], [u128; 4])
    ensures low { result.0 ≡ entry.now.lo }
    ensures high { result.1 ≡ entry.now.hi }
{
    (entry.lo, entry.hi)
}

/// Returns the product of a word and a power of the generator.
pub fn times(x: GfElement, log_m: GfElement, exp: Exp<'_>, log: Log<'_>) -> GfElement
    requires { IsExpLog exp.now log.now }
    ensures { result ≡ product x (power log_m) }
{
    mul(x, log_m, exp, log)
}

/// Adds each chunk of the second list to the chunk of the first list with the same index.
pub fn add_chunks(first: &mut [[u8; 64]], second: &[[u8; 64]])
    requires { length first.old ≡ length second.now }
    ensures { (k s : ℕ) → k < length first.old → s < 32
        → symbol (chunk first.new k) s
        ≡ bit_xor (symbol (chunk first.old k) s) (symbol (chunk second.now k) s) }
{
    xor(first, second);
}

/// Adds the second row to the first row.
pub fn add_rows(steps: &mut Steps, rows: &mut ShardsRefMut<'_>)
    requires fits { Fits rows.old }
    requires two { 2 ≤ rows.old.shard_count }
    ensures { (k s : ℕ) → k < rows.old.shard_len_64 → s < 32
        → word rows.new k s 0 ≡ bit_xor (word rows.old k s 0) (word rows.old k s 1) }
{
    xor_within(steps, rows, 0, 1, 1);
}

/// Computes the locator of the marked points, at all points.
pub fn locator(steps: &mut Steps, erasures: &mut [GfElement; GF_ORDER], tables: &Tables)
    ensures { IsLocator (λ y. slice_index erasures.old y) (λ x. slice_index erasures.new x) }
{
    eval_poly(steps, erasures, GF_ORDER, get_log_walsh(tables));
}

/// Computes the locator of points below 64, at these points.
pub fn locator_below(steps: &mut Steps, erasures: &mut [GfElement; 64], tables: &Tables)
    ensures { IsLocatorBelow 64 (λ y. slice_index erasures.old y)
        (λ x. slice_index erasures.new x) }
{
    locate(steps, erasures, get_log_walsh_below(tables, 64));
}

/// Computes the locator of as many points as there are entries, with an engine of the library, within the bound on its
/// steps.
pub fn locator_by_engine(engine: DefaultEngine<'_>, steps: &mut Steps, erasures: &mut [GfElement])
    requires power { (d : ℕ) × (length erasures.old ≡ 2 ^ d) }
    requires few { length erasures.old ≤ 65536 }
    ensures values { IsLocatorBelow (length erasures.old) (λ y. slice_index erasures.old y)
        (λ x. slice_index erasures.new x) }
    ensures counts { LocatorCountsBelow (length erasures.old) steps.old steps.new }
{
    engine.locate(steps, erasures);
}

/// Transforms marked rows backward and then forward. Afterwards each marked row is what it was.
pub fn back_and_forth<E: Engine>(
    engine: &E,
    steps: &mut Steps,
    rows: &mut ShardsRefMut<'_>,
    marks: &[bool],
)
    requires fits { Fits rows.old }
    requires power { (d : ℕ) × (length marks.now ≡ 2 ^ d) }
    requires few { length marks.now ≤ 65536 }
    requires count { length marks.now ≤ rows.old.shard_count }
    requires zeros { OthersAreZero marks.now 0 rows.old }
    ensures { (k s i : ℕ) → k < rows.old.shard_len_64 → s < 32 → is_marked marks.now i ≡ true
        → word rows.new k s i ≡ word rows.old k s i }
{
    engine.ifft_given(steps, rows, 0, marks, 0);
    engine.fft_wanted(steps, rows, 0, marks, 0);
}

/// Converts engines of four types into values of one type.
pub fn chosen<'t>(
    naive: Naive<'t>,
    no_simd: NoSimd<'t>,
    avx2: Avx2<'t>,
    ssse3: Ssse3<'t>,
) -> [DefaultEngine<'t>; 4]
    ensures { result ≡ DefaultEngine.Naive naive.entry ∷ DefaultEngine.NoSimd no_simd.entry
        ∷ DefaultEngine.Avx2 avx2.entry ∷ DefaultEngine.Ssse3 ssse3.entry ∷ [] }
{
    [naive.into(), no_simd.into(), avx2.into(), ssse3.into()]
}

/// Returns the kind of engine whose name a word is.
///
/// # Errors
///
/// [`UnknownEngine`] if the word is no name of an engine.
pub fn kind_named(name: &str) -> Result<EngineKind, UnknownEngine>
    ensures { MatchResult result (λ kind. engine_named name.now ≡ Some kind)
        (λ _. engine_named name.now ≡ None) }
{
    EngineKind::from_str(name)
}

/// Returns the engine of a kind.
pub fn engine_of_kind(tables: &Tables, kind: EngineKind) -> DefaultEngine<'_>
    ensures { kind_of result ≡ kind }
{
    DefaultEngine::new(tables, kind)
}

/// Returns the fastest engine of a build for the default target, and its kind.
pub fn fastest_engine(tables: &Tables) -> (DefaultEngine<'_>, EngineKind)
    ensures engine { kind_of result.0 ≡ EngineKind.Ssse3 }
    ensures kind { result.1 ≡ EngineKind.Ssse3 }
{
    (DefaultEngine::fastest(tables), EngineKind::FASTEST)
}

/// Returns works that hold no memory.
pub fn works() -> (EncoderWork, DecoderWork)
    ensures encoder { encoder_room result.0 ≡ 0 }
    ensures decoder { decoder_room result.1 ≡ record { chunks = 0; rows = 0; entries = 0 } }
{
    (EncoderWork::new(), DecoderWork::new())
}

/// States that the types have the rates that their names say.
pub fn names<E: Engine>()
    ensures low { ⟦<LowRate<E> as Rate<E>>⟧.rate ≡ low_rate }
    ensures low_encoder { ⟦<LowRateEncoder<E> as RateEncoder<E>>⟧.rate ≡ low_rate }
    ensures low_decoder { ⟦<LowRateDecoder<E> as RateDecoder<E>>⟧.rate ≡ low_rate }
    ensures high { ⟦<HighRate<E> as Rate<E>>⟧.rate ≡ high_rate }
    ensures high_encoder { ⟦<HighRateEncoder<E> as RateEncoder<E>>⟧.rate ≡ high_rate }
    ensures high_decoder { ⟦<HighRateDecoder<E> as RateDecoder<E>>⟧.rate ≡ high_rate }
    ensures default { ⟦<DefaultRate<E> as Rate<E>>⟧.rate ≡ default_rate }
    ensures default_encoder { ⟦<DefaultRateEncoder<E> as RateEncoder<E>>⟧.rate ≡ default_rate }
    ensures default_decoder { ⟦<DefaultRateDecoder<E> as RateDecoder<E>>⟧.rate ≡ default_rate }
{}

/// Checks two counts for the low, the high and the default rate.
///
/// # Errors
///
/// [`Error::UnsupportedShardCount`] if one of the rates does not support the counts.
pub fn counts_at_each(
    original_count: usize,
    recovery_count: usize,
) -> Result<(LowRateCounts, HighRateCounts, DefaultRateCounts), Error>
    ensures low { IfOk result (λ _. supports low_rate original_count recovery_count ≡ true) }
    ensures high { IfOk result (λ _. supports high_rate original_count recovery_count ≡ true) }
    ensures default { IfOk result
        (λ _. supports default_rate original_count recovery_count ≡ true) }
    ensures original { IfOk result (λ c. (c.0.original_count ≡ original_count)
        × (c.1.original_count ≡ original_count) × (c.2.original_count ≡ original_count)) }
    ensures recovery { IfOk result (λ c. (c.0.recovery_count ≡ recovery_count)
        × (c.1.recovery_count ≡ recovery_count) × (c.2.recovery_count ≡ recovery_count)) }
{
    let low = LowRateCounts::new(original_count, recovery_count)?;
    let high = HighRateCounts::new(original_count, recovery_count)?;
    Ok((
        low,
        high,
        DefaultRateCounts::new(original_count, recovery_count)?,
    ))
}

/// Returns the first recovery shard of an encoder's result, and the first restored original of a decoder's.
pub fn first_shards<'a>(
    encoded: &'a EncoderResult<'_>,
    decoded: &'a DecoderResult<'_>,
) -> (Option<&'a [u8]>, Option<(usize, &'a [u8])>)
    ensures recovery { option_copied result.0 ≡ slice_get (recovery_shards encoded.now) 0 }
    ensures restored { (items : Items) × Lists (restored_originals decoded.now) items
        × (option_map (λ item. (item.0, item.1.now)) result.1 ≡ slice_get items 0) }
{
    let mut recovery: Recovery<'a> = encoded.recovery_iter();
    let mut restored: RestoredOriginal<'a> = decoded.restored_original_iter();
    (recovery.next(), restored.next())
}

/// Adds the first recovery shard of a plain encoder to a plain decoder.
///
/// # Errors
///
/// The errors of [`ReedSolomonEncoder::encode`], and then those of [`ReedSolomonDecoder::add_recovery_shard`].
pub fn add_first(
    encoder: &mut ReedSolomonEncoder<'_>,
    decoder: &mut ReedSolomonDecoder<'_>,
) -> Result<(), Error>
    ensures { (answer : Result (List Shard) Error) × EncodeAnswers (encoder_of encoder.old) answer
        × MatchResult answer (λ shards. IfSome (slice_get shards 0)
        (λ shard. result ≡ answer_of (with_recovery (decoder_of decoder.old) 0 shard)))
        (λ e. result ≡ Err e) }
{
    match encoder.encode()?.recovery(0) {
        Some(shard) => decoder.add_recovery_shard(0, shard),
        None => Ok(()),
    }
}

/// Returns the size of the shards of a message of `total` bytes, if there is one.
pub fn size_of_shards(total: usize, original_count: usize) -> Option<usize>
    ensures least { IfSome result (IsLeastSize original_count total) }
    ensures small { 0 < original_count → total < 2 ^ 63 → IsSome result }
{
    shard_bytes(total, original_count)
}

/// Returns whether the plain objects support these counts.
pub fn both_support(original_count: usize, recovery_count: usize) -> bool
    ensures { result ≡ supports default_rate original_count recovery_count }
{
    ReedSolomonEncoder::supports(original_count, recovery_count)
        && ReedSolomonDecoder::supports(original_count, recovery_count)
}

/// Encodes the shards that an iterator lends, in one call.
///
/// # Errors
///
/// The errors of [`encode`], in the same order.
pub fn encoded<'a, I: Iterator<Item = &'a [u8]> + Drop>(
    alloc: Global,
    original_count: usize,
    recovery_count: usize,
    original: I,
    engine: DefaultEngine<'_>,
) -> Result<Vec<Vec<u8>>, Error>
    requires can { I.can_next original }
    requires ends { IsFinite (I.remaining original) }
    ensures { (items : List Shard) → Lends I.next_gives original items
        → OneEncodeAnswers original_count recovery_count items (collected_shards result) }
{
    encode(alloc, original_count, recovery_count, original, engine)
}

/// Decodes the originals and the recovery shards that two iterators lend, in one call.
///
/// # Errors
///
/// The errors of [`decode`], in the same order.
pub fn decoded<'a, O, R>(
    alloc: Global,
    original_count: usize,
    recovery_count: usize,
    original: O,
    recovery: R,
    engine: DefaultEngine<'_>,
) -> Result<BTreeMap<usize, Vec<u8>>, Error>
where
    O: Iterator<Item = (usize, &'a [u8])> + Drop,
    R: Iterator<Item = (usize, &'a [u8])> + Drop,
    requires can { O.can_next original }
    requires ends { IsFinite (O.remaining original) }
    requires can_recovery { R.can_next recovery }
    requires recovery_ends { IsFinite (R.remaining recovery) }
    ensures { (originals recoveries : Items) → LendsItems O.next_gives original originals
        → LendsItems R.next_gives recovery recoveries
        → OneDecodeAnswers original_count recovery_count originals recoveries
        (collected_map result) }
{
    decode(
        alloc,
        original_count,
        recovery_count,
        original,
        recovery,
        engine,
    )
}

/// Encodes one array into one recovery shard, and decodes it with nothing missing, over slices.
///
/// # Errors
///
/// The errors of [`encode_slice`], and then those of [`decode_slice`].
pub fn one_array(
    alloc: Global,
    shard: [u8; 64],
    engine: DefaultEngine<'_>,
) -> Result<(Vec<Vec<u8>>, BTreeMap<usize, Vec<u8>>), Error>
    ensures coded { IfOk result (λ both.
        OneEncodeAnswers 1 1 (shard ∷ []) (Ok (map (λ v. v.items) both.0.items))) }
    ensures restored { IfOk result (λ both.
        OneDecodeAnswers 1 1 ((0, shard) ∷ []) [] (Ok (shards_in both.1))) }
{
    let recovery = encode_slice(alloc, 1, 1, &[shard], engine)?;
    let restored = decode_slice::<[u8; 64], &[u8]>(alloc, 1, 1, &[(0, shard)], &[], engine)?;
    Ok((recovery, restored))
}

/// Returns the version of the library.
pub fn version() -> &'static str
    ensures { result.now ≡ codes "1.4" }
{
    VERSION
}
