//! Making the missing originals of received shards, strip by strip. Few of them are made by direct sums, and a middle
//! number of them from syndromes. Otherwise the received shards of each strip are decoded.
ghost use Rattle.std.specs.Prelude.{◌≡◌, ◌-◌, ◌+◌, ◌≤◌, ℕ, All, true, length, Ok, OnOk, IfErr};
ghost use Rattle.rs_field.specs.code.Counts.{default_rate};
ghost use Rattle.rs_field.specs.code.Decoder.{IsDecoder, enough_given};
ghost use Rattle.rs_field.specs.code.Given.{Lists};
ghost use Rattle.rs_field.specs.code.OneCall.{Items};
ghost use Rattle.rs_field.specs.code.Pieces.{ArePut, room_length};
ghost use Rattle.rs_field.specs.code.PieceStates.{shards_listed};
ghost use Rattle.rs_rate.specs.objects.ResultView.{restored_originals};
ghost use Rattle.reed_solomon_simd.specs.Making.{AreRooms, MakesMissing, missing_names};

use crate::pieces::{missing_count, surplus_count};
use crate::rooms::Rooms;
use crate::store::Store;
use crate::strip_bytes::DECODE_STRIP_BYTES;
use crate::strip_rounds::Rounds;
use crate::strip_summer::sum_missing;
use crate::strip_syndromes::restore_by_syndromes;
use crate::strips::{Way, make_strips};
use rs_field::engine::Engine;
use rs_field::error::Error;
use rs_rate::DecoderResult;
use rs_rate::rate::strips::StripDecoder;
use rs_rate::rate::{are_sums_cheaper, are_syndromes_cheapest};
use std::alloc::Global;

/// Writes the missing originals into the rooms of a store, in order of index. Enough shards were received.
///
/// # Errors
///
/// - [`Error::OutOfMemory`] if the work area, or the lists for sums, cannot be allocated.
/// - For each strip in order: [`Error::InconsistentShards`] if no message agrees with all received shards, and then
///   [`Error::OutOfMemory`] if a room cannot grow. The rooms may then hold some strips.
pub fn make_missing<E: Engine, S: Store>(
    alloc: Global,
    engine: &E,
    store: &mut S,
) -> Result<(), Error>
    requires set_up { IsDecoder default_rate (S.received store.old) }
    requires enough { enough_given (S.received store.old) ≡ Ok tt }
    requires rooms { AreRooms S.grows 0 (S.received store.old).configuration.shard_bytes
        (length (missing_names (S.received store.old))) (S.held store.old) }
    ensures made { MakesMissing S.grows (S.received store.old) (S.held store.old) (S.held store.new)
        result }
    ensures places { S.places store.new ≡ S.places store.old }
    ensures loan { S.loan store.new ≡ S.loan store.old }
{
    let counts = store.counts();
    let missing = missing_count(&*store);
    let surplus = surplus_count(&*store);
    if are_syndromes_cheapest(counts.frame, counts.original_count, missing, surplus) {
        return restore_by_syndromes(alloc, engine, store);
    }
    let sums = missing.saturating_add(surplus);
    if are_sums_cheaper(counts.frame, counts.original_count, sums) {
        return sum_missing(alloc, engine, store);
    }
    restore_by_rounds(alloc, engine, store)
}

// Writes the missing originals into the rooms of a store, in order of index, by a decode of each strip. Fails as
// `make_missing` does.
fn restore_by_rounds<E: Engine, S: Store>(
    alloc: Global,
    engine: &E,
    store: &mut S,
) -> Result<(), Error>
    requires set_up { IsDecoder default_rate (S.received store.old) }
    requires enough { enough_given (S.received store.old) ≡ Ok tt }
    requires rooms { AreRooms S.grows 0 (S.received store.old).configuration.shard_bytes
        (length (missing_names (S.received store.old))) (S.held store.old) }
    ensures made { MakesMissing S.grows (S.received store.old) (S.held store.old) (S.held store.new)
        result }
    ensures places { S.places store.new ≡ S.places store.old }
    ensures loan { S.loan store.new ≡ S.loan store.old }
{
    let width = DECODE_STRIP_BYTES.min(store.shard_bytes());
    let decoder = StripDecoder::with_counts(alloc, store.counts(), width, (), None)?;
    let mut way = Restore {
        engine,
        rounds: Rounds::new(decoder),
    };
    make_strips(DECODE_STRIP_BYTES, &mut way, store)
}

/// Rounds of a decoder, which make the missing originals.
#[derive(Drop)]
struct Restore<'a, E: Engine> {
    engine: &'a E,
    rounds: Rounds,
}

impl<'a, E: Engine> Way for Restore<'a, E> {
    ghost use Rattle.reed_solomon_simd.specs.Rounds.{IsReadyToDecode};

    ghost wanted = { λ _ s. missing_names s };

    ghost ready = { λ x s n. IsReadyToDecode x.rounds s n };

    fn strip<S: Store>(&mut self, start: usize, end: usize, store: &mut S) -> Result<(), Error> {
        let restored_count = self.rounds.decode(self.engine, &*store, start, end)?;
        put_pieces(&self.rounds.restored(restored_count), start, end, store)
    }
}

// Writes the restored originals of a result into rooms, after the first `start` bytes.
fn put_pieces<R: Rooms>(
    lent: &DecoderResult<'_>,
    start: usize,
    end: usize,
    rooms: &mut R,
) -> Result<(), Error>
    requires order { start ≤ end }
    requires pieces { (items : Items) → Lists (restored_originals lent.now) items
        → (length items ≡ length (R.held rooms.old))
        × All (λ shard. length shard ≡ end - start) (shards_listed items) }
    requires fit { (size : ℕ) × (end ≤ size)
        × All (λ room. length room ≡ room_length R.grows start size) (R.held rooms.old) }
    ensures put { OnOk result ((items : Items) × Lists (restored_originals lent.now) items
        × ArePut start end (shards_listed items) (R.held rooms.old) (R.held rooms.new)) }
    ensures refused { IfErr result (λ e. (R.grows ≡ true) × (e ≡ Error.OutOfMemory)) }
    ensures places { R.places rooms.new ≡ R.places rooms.old }
    ensures loan { R.loan rooms.new ≡ R.loan rooms.old }
{
    let mut room = 0;
    for (_, piece) in lent.restored_original_iter() {
        rooms.put(room, start, piece)?;
        room += 1;
    }
    Ok(())
}
