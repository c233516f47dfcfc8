//! Reed-Solomon erasure codes over GF(2^16) in n log n, with the paths of the crate reed-solomon-simd.
//!
//! A message of `original_count` shards of one even size is encoded into `recovery_count` recovery shards. Any
//! `original_count` of all these shards give back every original. The index of an original is its place in the order in
//! which originals are added, counted from 0. Recovery shards have indexes of their own, which also begin at 0.
//!
//! [`split`] makes the originals of a message of any length, and [`join`] makes the message from its originals.
//!
//! [`encode`] and [`decode`] do a whole round in one call. [`ReedSolomonEncoder`] and [`ReedSolomonDecoder`] code many
//! messages with the same memory. The module [`rate`] has objects whose rate, engine and memory the caller chooses.
#![tactic(auto)]

mod checked_originals;
mod completing;
mod decoder;
mod encoder;
mod into;
mod lent_originals;
mod messages;
mod one_call;
mod originals;
mod pieces;
mod received_shards;
mod receiving;
mod reconstruct_error;
mod reconstructing;
mod restoring;
mod room_chunks;
mod room_error;
mod rooms;
mod separate_store;
mod shard_index;
mod slices;
mod store;
mod strip_bytes;
mod strip_comparer;
mod strip_decoder;
mod strip_encoder;
mod strip_rebuilder;
mod strip_rounds;
mod strip_summer;
mod strip_sums;
mod strip_syndromes;
mod strips;
mod updating;
mod verifying;
mod wanted_shards;

/// The version of this library.
pub const VERSION: &str = "1.4";

pub use completing::complete;
pub use decoder::ReedSolomonDecoder;
pub use encoder::ReedSolomonEncoder;
pub use into::{decode_into, encode_into};
pub use messages::{join, shard_bytes, split};
pub use one_call::{decode, encode};
/// The error of [`reconstruct`] and [`reconstruct_into`].
///
/// # Examples
///
/// A shard that was received cannot be wanted:
///
/// ```
/// let wanted = [ShardIndex::Recovery(0)];
/// let answer = reconstruct(alloc, 3, 2, &original, &recovery, &wanted, engine);
/// let refusal = ReconstructError::WantedReceived { wanted: wanted[0] };
/// assert_eq!(rt; answer.err(), Some(refusal));
/// ```
pub use reconstruct_error::ReconstructError;
pub use reconstructing::{reconstruct, reconstruct_into};
/// The error of [`encode_into`], [`decode_into`] and [`update_into`]: an [`Error`], or rooms that do not fit.
pub use room_error::RoomError;
/// The error of all calls that allocate, encode or decode, except for those that return a [`RoomError`] or a
/// [`ReconstructError`]. These two errors hold an [`Error`].
///
/// # Examples
///
/// An error is printed as a text. Here a program writes it to its error output:
///
/// ```
/// // If refusal is
/// // Error::NotEnoughShards { original_count: 3, original_received_count: 1, recovery_received_count: 1 },
/// // the text is "not enough shards: 1 original + 1 recovery < 3 original_count\n".
/// match format!(in alloc; "{refusal}\n") {
///     Ok(text) => write_text(err, text.as_str()),
///     Err(_) => write_text(err, "out of memory\n"),
/// }
/// ```
pub use rs_field::error::Error;
/// The name of a shard: its kind and its index.
///
/// # Examples
///
/// Recovery shard 1 and original 2 are wanted:
///
/// ```
/// let wanted = [ShardIndex::Recovery(1), ShardIndex::Original(2)];
/// let made = reconstruct(alloc, 3, 2, &original, &recovery, &wanted, engine)?;
/// ```
pub use shard_index::ShardIndex;
pub use slices::{decode_slice, encode_slice};
pub use updating::update_into;
pub use verifying::verify;
/// The results of a round, and iterators over them. They lend shards and copy nothing.
///
/// # Examples
///
/// Shards that are needed after the round must be copied:
///
/// ```
/// // ORIGINAL is [b"Three shards", b" of one size", b" are coded. "].
/// // If originals 0 and 2 were lost, originals becomes [(0, b"Three shards"), (2, b" are coded. ")].
/// for (index, shard) in lent.restored_original_iter() {
///     originals.push((index, shard.to_vec(alloc)?))?;
/// }
/// ```
pub use rs_rate::{DecoderResult, EncoderResult, Recovery, RestoredOriginal};

/// What the calls from C share with the one-call functions. Most of these functions have conditions that the one-call
/// functions meet for their users, so a program in Rattle needs none of them.
pub mod ffi {
    pub use crate::originals::Originals;
    pub use crate::pieces::{Pieces, check_enough, piece_of};
    pub use crate::received_shards::ReceivedShards;
    pub use crate::receiving::{received_of_size, received_shards};
    pub use crate::reconstructing::reconstruct_received;
    pub use crate::restoring::{restore_in_place, restore_into};
    pub use crate::rooms::{Rooms, check_rooms};
    pub use crate::store::Store;
    pub use crate::strip_encoder::encode_strips;
    pub use crate::verifying::check_consistent;
}

/// The field, its tables, and the engines, which transform rows of symbols.
///
/// # Examples
///
/// One recovery shard of three originals is their XOR:
///
/// ```
/// let tables = Tables::new(alloc)?;
/// let engine = DefaultEngine::new(&tables, EngineKind::Ssse3);
/// let original: [&[u8]; 3] = [&[1, 2], &[4, 8], &[16, 32]];
/// let recovery = encode(alloc, 3, 1, original.into_iter(), engine)?;
/// assert_eq!(rt; recovery.len(), 1);
/// assert_eq!(rt; recovery[0].as_slice(), [21, 42].as_slice());
/// ```
pub mod engine {
    pub use rs_engines::engine_default::{DefaultEngine, EngineKind};
    /// The error of [`EngineKind::from_str`](EngineKind) for a word that is not `naive`, `nosimd`, `avx2` or `ssse3`.
    ///
    /// # Examples
    ///
    /// ```
    /// // For the word "ssse3", from_str returns Ok(EngineKind::Ssse3). For "sse", it returns Err(UnknownEngine).
    /// let Ok(engine) = EngineKind::from_str(engine.as_str()) else {
    ///     return Err(Fault::Usage);
    /// };
    /// ```
    pub use rs_engines::engine_default::UnknownEngine;
    /// The engine without vectors: it looks up products by nibbles. It is used like [`Naive`], which has an example.
    pub use rs_engines::engine_nosimd::NoSimd;
    /// The engines with vectors of 32 bytes and of 16 bytes. They are used like [`Naive`], which has an example.
    pub use rs_engines::engine_shuffle::{Avx2, Ssse3};
    /// The constants of the field.
    ///
    /// # Examples
    ///
    /// ```
    /// let first = CANTOR_BASIS[0];
    /// // This is (16, 65536, 65535, 0x1002D, 1).
    /// (GF_BITS, GF_ORDER, GF_MODULUS, GF_POLYNOMIAL, first)
    /// ```
    pub use rs_field::engine::{
        CANTOR_BASIS, GF_BITS, GF_MODULUS, GF_ORDER, GF_POLYNOMIAL, GfElement,
    };
    /// The trait of engines: what an engine must do, and what encoders and decoders may rely on.
    ///
    /// # Examples
    ///
    /// This computes the locator of point 0 at the points 0 to 3. At point 0 it is 0, and at each other point x it is
    /// the logarithm of x. The logarithm of 1 is 0 modulo 65535:
    ///
    /// ```
    /// // log[2] is 21845, and log[3] is 43690.
    /// let mut first = [1, 0, 0, 0];
    /// engine.locate(&mut steps, &mut first);
    /// assert_eq!(rt; [first[0] % 65535, first[1] % 65535], [0, 0]);
    /// assert_eq!(rt; [first[2], first[3]], [log[2], log[3]]);
    /// ```
    pub use rs_field::engine::Engine;
    /// The plain engine: it computes each product with logarithms.
    ///
    /// # Examples
    ///
    /// The product of 4 and 2 is 11:
    ///
    /// ```
    /// let engine = Naive::new(&tables);
    /// let log_2 = get_exp_log(&tables).log[2];
    /// let mut row = [[0; 64]];
    /// row[0][0] = 4;
    /// engine.mul(&mut Steps::new(), &mut row, log_2);
    /// assert_eq!(rt; row[0][0], 11);
    /// ```
    pub use rs_field::engine::Naive;
    /// The rows that an engine works on, and the count of its steps.
    ///
    /// # Examples
    ///
    /// Five chunks hold four rows of one chunk each, and one more chunk. Rows 1 and 2 are set to zero:
    ///
    /// ```
    /// // CHUNKS is [[1; 64], [2; 64], [3; 64], [4; 64], [5; 64]].
    /// let mut chunks = CHUNKS;
    /// ShardsRefMut::new(4, 1, &mut chunks).zero(1..3);
    /// assert_eq!(rt; chunks, [[1; 64], [0; 64], [0; 64], [4; 64], [5; 64]]);
    /// ```
    pub use rs_field::engine::{ShardsRefMut, Steps};

    /// The tables, which are made once and lent to engines. The example of the module [`engine`](super) makes them.
    pub mod tables {
        /// All tables; the powers and logarithms, the product of two words with them, and the factors of butterflies.
        ///
        /// # Examples
        ///
        /// The power 0 of the generator is 1, and so is its power 65535. The logarithm of 1 is 0, and the entry for 0
        /// is 65535:
        ///
        /// ```
        /// let t = get_exp_log(tables);
        /// assert_eq!(rt; [t.exp[0], t.exp[65535]], [1, 1]);
        /// assert_eq!(rt; [t.log[0], t.log[1]], [65535, 0]);
        /// ```
        ///
        /// `mul` takes a word and the logarithm of another word, and returns their product:
        ///
        /// ```
        /// // If `x` is 2 and `log_m` is the logarithm of 4, this is 11.
        /// mul(x, log_m, exp, log)
        /// ```
        pub use rs_field::engine::tables::{
            Exp, ExpLog, Log, Skew, Tables, get_exp_log, get_skew, mul,
        };
        /// The transforms of the logarithms, for locators. The example of [`eval_poly`](super::utils::eval_poly) uses
        /// them.
        pub use rs_field::engine::tables::{LogWalsh, get_log_walsh, get_log_walsh_below};
        /// The products by nibbles, as words and as bytes.
        ///
        /// # Examples
        ///
        /// The products of 0 to 7 with 2:
        ///
        /// ```
        /// let log_2 = get_exp_log(tables).log[2] as usize;
        /// let mul16 = get_mul16(tables);
        /// for (i, product) in [0, 2, 3, 1, 11, 9, 8, 10].into_iter().enumerate() {
        ///     assert_eq!(rt; mul16[log_2][0][i], product);
        /// }
        /// let entry = &get_mul128(tables)[log_2];
        /// assert_eq!(rt; entry.lo[0] % (1 << 64), 0x0A08_090B_0103_0200);
        /// ```
        pub use rs_field::engine::tables::{Mul16, Mul128, Multiply128lutT, get_mul16, get_mul128};
    }

    /// Functions of rows, and locators, which engines share.
    pub mod utils {
        /// Locators of marked points.
        ///
        /// # Examples
        ///
        /// `eval_poly` computes the locator of points below 65536, at all 65536 points. The locator of point 0 at a
        /// point x other than 0 is the logarithm of x:
        ///
        /// ```
        /// // The logarithms of 2 and 3 are 21845 and 43690.
        /// let mut erasures = [0; GF_ORDER];
        /// erasures[0] = 1;
        /// let log_walsh = get_log_walsh(&tables);
        /// eval_poly(&mut Steps::new(), &mut erasures, GF_ORDER, log_walsh);
        /// assert_eq!(rt; [erasures[2], erasures[3]], [21845, 43690]);
        /// ```
        ///
        /// `locate` computes the locator of points below a power of two, here 4, at these points:
        ///
        /// ```
        /// let mut first = [1, 0, 0, 0];
        /// let log_walsh = get_log_walsh_below(&tables, 4);
        /// locate(&mut Steps::new(), &mut first, log_walsh);
        /// assert_eq!(rt; [first[2], first[3]], [21845, 43690]);
        /// ```
        pub use rs_field::engine::utils::{eval_poly, locate};
        /// Sums of chunks and of ranges of rows. The sum of two bytes is their XOR.
        ///
        /// # Examples
        ///
        /// `xor` adds each chunk of the second list to the chunk with the same index in the first list:
        ///
        /// ```
        /// // If `first` is [[1; 64]] and `second` is [[3; 64]], then `first` becomes [[2; 64]].
        /// xor(first, second);
        /// ```
        ///
        /// `xor_within` adds rows to other rows of the same list. Here rows 2 and 3 are added to rows 0 and 1:
        ///
        /// ```
        /// // CHUNKS is [[1; 64], [2; 64], [3; 64], [4; 64], [5; 64]].
        /// let mut chunks = CHUNKS;
        /// let mut rows = ShardsRefMut::new(4, 1, &mut chunks);
        /// xor_within(&mut Steps::new(), &mut rows, 0, 2, 2);
        /// assert_eq!(rt; chunks, [[2; 64], [6; 64], [3; 64], [4; 64], [5; 64]]);
        /// ```
        pub use rs_field::engine::utils::{xor, xor_within};
    }
}

/// The rates of the code, and their encoders and decoders.
///
/// # Examples
///
/// An encoder of the default rate for 3 originals and 2 recovery shards of 12 bytes:
///
/// ```
/// // ORIGINAL is [b"Three shards", b" of one size", b" are coded. "].
/// let engine = Ssse3::new(&tables);
/// let mut steps = Steps::new();
/// let mut encoder = DefaultRateEncoder::new(alloc, 3, 2, 12, engine, None)?;
/// for shard in ORIGINAL {
///     encoder.add_original_shard(shard)?;
/// }
/// let recovery = encoder.encode(&mut steps)?;
/// // The bytes of recovery.recovery(0) are 8B 6B 49 8D 2D 0E E3 62 FC E6 D5 C8.
/// // The bytes of recovery.recovery(1) are DF 0D 2F AD 07 23 9A 4E 8B 99 E5 FE.
/// ```
pub mod rate {
    /// The encoders and decoders of each rate, and the traits that they share.
    ///
    /// # Examples
    ///
    /// Originals 0 and 2 of three originals are lost. Original 1 and two recovery shards restore them:
    ///
    /// ```
    /// // ORIGINAL is [b"Three shards", b" of one size", b" are coded. "].
    /// // recovery holds its two recovery shards.
    /// let mut decoder = DefaultRateDecoder::new(alloc, 3, 2, 12, engine, None)?;
    /// decoder.add_original_shard(1, ORIGINAL[1])?;
    /// for (index, shard) in recovery.recovery_iter().enumerate() {
    ///     decoder.add_recovery_shard(index, shard)?;
    /// }
    /// let restored = decoder.decode(&mut steps)?;
    /// // restored.restored_original(0) is Some(b"Three shards"), and restored.restored_original(2) is
    /// // Some(b" are coded. ").
    /// ```
    pub use rs_rate::rate::{
        DefaultRateDecoder, DefaultRateEncoder, HighRateDecoder, HighRateEncoder, LowRateDecoder,
        LowRateEncoder, RateDecoder, RateEncoder,
    };
    /// Two counts that a rate supports, checked once.
    ///
    /// # Examples
    ///
    /// The counts are checked for both objects at once. After that, `with_counts` checks only the size:
    ///
    /// ```
    /// // For (60000, 5000), new fails with
    /// // Error::UnsupportedShardCount { original_count: 60000, recovery_count: 5000 }. For (60000, 4000), it succeeds.
    /// let counts = DefaultRateCounts::new(original_count, recovery_count)?;
    /// let encoder = DefaultRateEncoder::with_counts(alloc, counts, shard_bytes, engine, None)?;
    /// let decoder = DefaultRateDecoder::with_counts(alloc, counts, shard_bytes, other, None)?;
    /// ```
    pub use rs_rate::rate::{DefaultRateCounts, HighRateCounts, LowRateCounts};
    /// Memory that passes from one object to the next.
    ///
    /// # Examples
    ///
    /// The memory of a decoder is passed to another decoder of the same rate, for the same counts and the same size.
    /// This never fails:
    ///
    /// ```
    /// let (engine, work) = decoder.into_parts();
    /// // This is Ok(decoder). The new decoder has the same engine, and no shards.
    /// R::decoder(
    ///     alloc,
    ///     original_count,
    ///     recovery_count,
    ///     shard_bytes,
    ///     engine,
    ///     Some(work),
    /// )
    /// ```
    pub use rs_rate::rate::{DecoderWork, EncoderWork};
    /// The rates, and the trait that makes their encoders and decoders.
    ///
    /// # Examples
    ///
    /// The rate is a type parameter `R`. The encoder gets no originals, so `encode` fails with
    /// [`Error::TooFewOriginalShards`](crate::Error::TooFewOriginalShards):
    ///
    /// ```
    /// let mut encoder = R::encoder(alloc, 2, 3, 2, engine, None)?;
    /// // This returns Err(Error::TooFewOriginalShards { original_count: 2, original_received_count: 0 }).
    /// let _ = encoder.encode(steps)?;
    /// ```
    pub use rs_rate::rate::{DefaultRate, HighRate, LowRate, Rate};
}
