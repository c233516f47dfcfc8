//! Encoding strip by strip. The work area has room for one strip, so it stays in the cache. For each strip, the pieces
//! of the originals are read where they are or copied into the work area, and the recovery pieces are copied from there
//! into the rooms.
ghost use Rattle.std.specs.Prelude.{◌≡◌, ℕ, List, ◌-◌, ◌%◌, ◌<◌, ◌≤◌, All, true, false, length, min, Ok, Err};
ghost use Rattle.std.specs.Prelude.{OnOk, OnErr};
ghost use Rattle.rs_field.specs.code.Code.{AreRecovery};
ghost use Rattle.rs_field.specs.code.Column.{Shard};
ghost use Rattle.rs_field.specs.code.Configuration.{validation_outcome};
ghost use Rattle.rs_field.specs.code.OneCall.{default_of};
ghost use Rattle.rs_field.specs.code.Pieces.{pieces, ArePut, room_length};
ghost use Rattle.rs_rate.specs.objects.StripView.{code_of, coded_shards};

use crate::originals::Originals;
use crate::rooms::Rooms;
use crate::strip_bytes::ENCODE_STRIP_BYTES;
use rs_field::engine::{Engine, Steps};
use rs_field::error::Error;
use rs_rate::rate::DefaultRateCounts;
use rs_rate::rate::strip_encoder::StripEncoder;
use rs_rate::rate::strip_message::StripMessage;
use std::alloc::Global;

/// Writes the recovery shards of originals of one size into rooms.
///
/// # Errors
///
/// [`Error::OutOfMemory`] if the work area cannot be allocated, or if a room cannot grow.
pub fn encode_strips<E: Engine, O: Originals, R: Rooms>(
    alloc: Global,
    counts: DefaultRateCounts,
    shard_bytes: usize,
    engine: E,
    originals: &O,
    rooms: &mut R,
) -> Result<(), Error>
    requires originals { length (O.shards originals.now) ≡ counts.original_count }
    requires number { length (R.held rooms.old) ≡ counts.recovery_count }
    requires valid { validation_outcome
        (default_of counts.original_count counts.recovery_count shard_bytes)
        ≡ Ok tt }
    requires sized { All (λ shard. length shard ≡ shard_bytes) (O.shards originals.now) }
    requires fit { All (λ room. length room ≡ room_length R.grows 0 shard_bytes)
        (R.held rooms.old) }
    ensures coded { OnOk result
        (AreRecovery (default_of counts.original_count counts.recovery_count shard_bytes)
        (O.shards originals.now) (R.held rooms.new)) }
    ensures refused { OnErr result (result ≡ Err Error.OutOfMemory) }
    ensures untouched { R.grows ≡ false → OnErr result (R.held rooms.new ≡ R.held rooms.old) }
    ensures places { R.places rooms.new ≡ R.places rooms.old }
    ensures loan { R.loan rooms.new ≡ R.loan rooms.old }
{
    let mut encoder = StripEncoder::new(alloc, counts, shard_bytes, ENCODE_STRIP_BYTES, &engine)?;
    encode_strips_with(&engine, &mut encoder, shard_bytes, originals, rooms)
}

/// Writes the recovery shards of originals of one size into rooms, with an encoder for their
/// strips.
///
/// # Errors
///
/// [`Error::OutOfMemory`] if a room cannot grow.
pub(crate) fn encode_strips_with<E: Engine, O: Originals, R: Rooms>(
    engine: &E,
    encoder: &mut StripEncoder,
    shard_bytes: usize,
    originals: &O,
    rooms: &mut R,
) -> Result<(), Error>
    requires code { code_of encoder.old
        ≡ default_of (length (O.shards originals.now)) (length (R.held rooms.old))
        (min 4096 shard_bytes) }
    requires whole { encoder.old.reads ≡ true → shard_bytes % 64 ≡ 0 }
    requires valid { validation_outcome
        (default_of (length (O.shards originals.now)) (length (R.held rooms.old)) shard_bytes)
        ≡ Ok tt }
    requires sized { All (λ shard. length shard ≡ shard_bytes) (O.shards originals.now) }
    requires fit { All (λ room. length room ≡ room_length R.grows 0 shard_bytes)
        (R.held rooms.old) }
    ensures coded { OnOk result
        (AreRecovery (default_of (length (O.shards originals.now)) (length (R.held rooms.old))
        shard_bytes) (O.shards originals.now) (R.held rooms.new)) }
    ensures refused { OnErr result (result ≡ Err Error.OutOfMemory) }
    ensures untouched { R.grows ≡ false → OnErr result (R.held rooms.new ≡ R.held rooms.old) }
    ensures places { R.places rooms.new ≡ R.places rooms.old }
    ensures loan { R.loan rooms.new ≡ R.loan rooms.old }
{
    let width = ENCODE_STRIP_BYTES.min(shard_bytes);
    let mut start = 0;
    while start < shard_bytes {
        let end = start + width.min(shard_bytes - start);
        encode_strip(engine, encoder, originals, start, end, rooms)?;
        start = end;
    }
    Ok(())
}

// Encodes one strip of the originals, and writes the recovery pieces into the rooms.
fn encode_strip<E: Engine, O: Originals, R: Rooms>(
    engine: &E,
    encoder: &mut StripEncoder,
    originals: &O,
    start: usize,
    end: usize,
    rooms: &mut R,
) -> Result<(), Error>
    requires code { (n : ℕ) × (end - start ≤ n)
        × (code_of encoder.old
        ≡ default_of (length (O.shards originals.now)) (length (R.held rooms.old)) n) }
    requires whole { encoder.old.reads ≡ true → (end - start) % 64 ≡ 0 }
    requires some { start < end }
    requires even { (end - start) % 2 ≡ 0 }
    requires originals { All (λ shard. end ≤ length shard) (O.shards originals.now) }
    requires fit { (size : ℕ) × (end ≤ size)
        × All (λ room. length room ≡ room_length R.grows start size) (R.held rooms.old) }
    ensures refused { OnErr result ((R.grows ≡ true) × (result ≡ Err Error.OutOfMemory)) }
    ensures code { code_of encoder.new
        ≡ default_of (length (O.shards originals.now)) (length (R.held rooms.old)) (end - start) }
    ensures reads { encoder.new.reads ≡ encoder.old.reads }
    ensures coded { OnOk result ((made : List Shard)
        × AreRecovery (default_of (length (O.shards originals.now)) (length (R.held rooms.old))
        (end - start)) (pieces start end (O.shards originals.now)) made
        × ArePut start end made (R.held rooms.old) (R.held rooms.new)) }
    ensures places { R.places rooms.new ≡ R.places rooms.old }
    ensures loan { R.loan rooms.new ≡ R.loan rooms.old }
{
    let strip = OriginalsStrip {
        originals,
        start,
        end,
    };
    encoder.encode(engine, &mut Steps::new(), end - start, &strip);
    put_pieces(encoder, start, end, rooms)
}

/// The pieces of the originals in one strip.
#[derive(Drop)]
struct OriginalsStrip<'a, O: Originals> {
    originals: &'a O,
    start: usize,
    end: usize,
    ghost order: { start ≤ end },
    ghost inside: { All (λ shard. end ≤ length shard) (O.shards originals.now) },
}

impl<'a, O: Originals> StripMessage for OriginalsStrip<'a, O> {
    ghost shards = { λ x. pieces x.start x.end (O.shards x.originals.now) };

    fn piece(&self, index: usize) -> &[u8] {
        self.originals.piece(index, self.start, self.end)
    }
}

// Writes the recovery pieces of the last strip into rooms, after the first `start` bytes.
fn put_pieces<R: Rooms>(
    encoder: &StripEncoder,
    start: usize,
    end: usize,
    rooms: &mut R,
) -> Result<(), Error>
    requires order { start ≤ end }
    requires number { length (coded_shards encoder.now) ≡ length (R.held rooms.old) }
    requires sized { All (λ shard. length shard ≡ end - start) (coded_shards encoder.now) }
    requires fit { (size : ℕ) × (end ≤ size)
        × All (λ room. length room ≡ room_length R.grows start size) (R.held rooms.old) }
    ensures put { OnOk result
        (ArePut start end (coded_shards encoder.now) (R.held rooms.old) (R.held rooms.new)) }
    ensures refused { OnErr result ((R.grows ≡ true) × (result ≡ Err Error.OutOfMemory)) }
    ensures places { R.places rooms.new ≡ R.places rooms.old }
    ensures loan { R.loan rooms.new ≡ R.loan rooms.old }
{
    for index in 0..encoder.recovery_count() {
        if let Some(piece) = encoder.recovery(index) {
            rooms.put(index, start, piece)?;
        }
    }
    Ok(())
}
