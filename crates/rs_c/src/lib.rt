//! The library for programs in C, and in languages that call C.
#![tactic(auto)]

mod engine;
mod lanes;
#[cfg(test)]
mod tests;

ghost use Rattle.std.specs.Prelude.{◌≡◌, ◌≢◌, ◌↔◌, true, drop, length, Result};
ghost use Rattle.rs_field.specs.code.Counts.{default_rate, supports};
ghost use Rattle.rs_ffi.specs.declared.fault.Fault.{Fault as FaultOf};
ghost use Rattle.rs_ffi.specs.Tables.{AreStamped, AreTables};
ghost use Rattle.rs_ffi.specs.Faults.{numbers, fault_of};
ghost use Rattle.rs_ffi.specs.Answers.{EncodesBuffer, DecodesBuffer, marked_number, WantsNoMemory};
ghost use Rattle.rs_ffi.specs.Arrays.{shards_of, items_of, bytes_in, KeepsRooms};
ghost use Rattle.rs_ffi.specs.Arrays.{EncodesArrays, DecodesArrays, VerifiesArrays};
ghost use Rattle.rs_ffi.specs.Arrays.{ReconstructsArrays, UpdatesArrays, wanted_of};
ghost use Rattle.rs_ffi.specs.Texts.{fault_with, text_with, WritesText};

use engine::engine_over;
use rs_ffi::decoding::{decode_arrays, decode_buffer};
use rs_ffi::encoding::{encode_arrays, encode_buffer};
use rs_ffi::fault::{Fault, RsFault};
use rs_ffi::layouts::{RsShard, RsWanted};
use rs_ffi::reconstructing::reconstruct_arrays;
use rs_ffi::tables::{RsTables, fill};
use rs_ffi::text;
use rs_ffi::updating::update_arrays;
use rs_ffi::verifying::verify_arrays;
use rs_rate::rate::DefaultRateCounts;
use std::alloc::Global;

/// Fills the tables and returns 0. If memory cannot be allocated, the call returns 1, which is `RS_OUT_OF_MEMORY`, and
/// leaves the tables as they were.
#[unsafe(no_mangle)]
pub extern "C" fn rs_tables_make(alloc: Global, tables: &mut RsTables) -> u32
    ensures made { result ≡ 0 → AreTables tables.new }
    ensures lacks { result ≢ 0 → (result ≡ 1) × (tables.new ≡ tables.old) }
{
    match fill(alloc, tables) {
        Ok(()) => 0,
        Err(_) => 1,
    }
}

/// Returns 1 if `original_count` originals with `recovery_count` recovery shards are supported, and 0 if they are not.
#[unsafe(no_mangle)]
pub extern "C" fn rs_supports(original_count: usize, recovery_count: usize) -> u32
    ensures yes { (result ≡ 1) ↔ (supports default_rate original_count recovery_count ≡ true) }
    ensures no { result ≢ 1 → result ≡ 0 }
{
    match DefaultRateCounts::new(original_count, recovery_count) {
        Ok(_) => 1,
        Err(_) => 0,
    }
}

/// Encodes the originals in a buffer, and writes their recovery shards into the buffer `recovery`. In both buffers, the
/// shards lie one after the other. Fills `fault`, and returns its number, which is 0 after a success.
///
/// The call fails, in this order, if the tables were not made, if the counts are not supported, if `originals` has a
/// wrong length, if `recovery` has a wrong length, and with the errors of one-call `encode` for these shards. If the
/// call fails, it writes nothing but the fault.
#[unsafe(no_mangle)]
pub extern "C" fn rs_encode(
    alloc: Global,
    tables: &RsTables,
    original_count: usize,
    recovery_count: usize,
    shard_bytes: usize,
    originals: &[u8],
    recovery: &mut [u8],
    fault: &mut RsFault,
) -> u32
    requires stamped { AreStamped tables.now → AreTables tables.now }
    ensures not_made { ¬ AreStamped tables.now
        → (fault.new ≡ numbers 15 0 0 0) × (recovery.new ≡ recovery.old) }
    ensures answer { AreStamped tables.now
        → (answer : Result (Unit {0}) FaultOf) × (fault.new ≡ fault_of answer)
        × EncodesBuffer original_count recovery_count shard_bytes
        originals.now recovery.old recovery.new answer }
    ensures returns_number { result ≡ fault.new.number }
{
    let answer = match engine_over(tables) {
        Some(engine) => encode_buffer(
            alloc,
            engine,
            original_count,
            recovery_count,
            shard_bytes,
            originals,
            recovery,
        ),
        None => Err(Fault::TablesNotMade),
    };
    *fault = RsFault::of(answer);
    fault.number
}

/// Restores the originals whose mark is 0, and writes each of them into its place in the buffer `originals`. Fills
/// `fault`, and returns its number, which is 0 after a success.
///
/// The call fails, in this order, if the tables were not made, if the counts are not supported, if `originals`,
/// `recovery` or `marks` has a wrong length, and with the errors of one-call `decode` for the shards whose mark is not
/// 0. If the call fails, it writes nothing but the fault. If all marks of recovery shards are 0, it allocates nothing.
#[unsafe(no_mangle)]
pub extern "C" fn rs_decode(
    alloc: Global,
    tables: &RsTables,
    original_count: usize,
    recovery_count: usize,
    shard_bytes: usize,
    originals: &mut [u8],
    recovery: &[u8],
    marks: &[u8],
    fault: &mut RsFault,
) -> u32
    requires stamped { AreStamped tables.now → AreTables tables.now }
    ensures not_made { ¬ AreStamped tables.now
        → (fault.new ≡ numbers 15 0 0 0) × (originals.new ≡ originals.old) }
    ensures answer { AreStamped tables.now
        → (answer : Result (Unit {0}) FaultOf) × (fault.new ≡ fault_of answer)
        × DecodesBuffer original_count recovery_count shard_bytes
        marks.now recovery.now originals.old originals.new answer
        × WantsNoMemory (marked_number (drop original_count marks.now)) answer }
    ensures returns_number { result ≡ fault.new.number }
{
    let answer = match engine_over(tables) {
        Some(engine) => decode_buffer(
            alloc,
            engine,
            original_count,
            recovery_count,
            shard_bytes,
            originals,
            recovery,
            marks,
        ),
        None => Err(Fault::TablesNotMade),
    };
    *fault = RsFault::of(answer);
    fault.number
}

/// Encodes the originals, and writes their recovery shards into rooms. The originals and the rooms can be anywhere in
/// memory. The shard size is that of the first original. Fills `fault`, and returns its number, which is 0 after a
/// success.
///
/// The call fails, in this order, if the tables were not made, if the counts are not supported, with the errors of
/// one-call `encode` for these shards, if there are not `recovery_count` rooms, and if a room has a wrong length. If
/// the call fails, it writes nothing but the fault.
#[unsafe(no_mangle)]
pub extern "C" fn rs_encode_shards(
    alloc: Global,
    tables: &RsTables,
    original_count: usize,
    recovery_count: usize,
    originals: &[&[u8]],
    recovery: &mut [&mut [u8]],
    fault: &mut RsFault,
) -> u32
    requires stamped { AreStamped tables.now → AreTables tables.now }
    ensures not_made { ¬ AreStamped tables.now
        → (fault.new ≡ numbers 15 0 0 0) × (bytes_in recovery.new ≡ bytes_in recovery.old) }
    ensures answer { AreStamped tables.now
        → (answer : Result (Unit {0}) FaultOf) × (fault.new ≡ fault_of answer)
        × EncodesArrays original_count recovery_count (shards_of originals.now)
        (bytes_in recovery.old) (bytes_in recovery.new) answer }
    ensures kept { KeepsRooms recovery.old recovery.new }
    ensures returns_number { result ≡ fault.new.number }
{
    let answer = match engine_over(tables) {
        Some(engine) => encode_arrays(
            alloc,
            engine,
            original_count,
            recovery_count,
            originals,
            recovery,
        ),
        None => Err(Fault::TablesNotMade),
    };
    *fault = RsFault::of(answer);
    fault.number
}

/// Restores the originals that are not among the given shards, and writes them into rooms, in order of their index. The
/// shards and the rooms can be anywhere in memory. The shard size is that of the first recovery shard. Fills `fault`,
/// and returns its number, which is 0 after a success.
///
/// The call fails, in this order, if the tables were not made, if the counts are not supported, with the errors of
/// one-call `decode` for these shards, if there are not as many rooms as missing originals, and if a room has a wrong
/// length. If the call fails, it writes nothing but the fault. If there are no recovery shards, it allocates nothing.
#[unsafe(no_mangle)]
pub extern "C" fn rs_decode_shards(
    alloc: Global,
    tables: &RsTables,
    original_count: usize,
    recovery_count: usize,
    originals: &[RsShard<'_>],
    recovery: &[RsShard<'_>],
    restored: &mut [&mut [u8]],
    fault: &mut RsFault,
) -> u32
    requires stamped { AreStamped tables.now → AreTables tables.now }
    ensures not_made { ¬ AreStamped tables.now
        → (fault.new ≡ numbers 15 0 0 0) × (bytes_in restored.new ≡ bytes_in restored.old) }
    ensures answer { AreStamped tables.now
        → (answer : Result (Unit {0}) FaultOf) × (fault.new ≡ fault_of answer)
        × DecodesArrays original_count recovery_count
        (items_of originals.now) (items_of recovery.now)
        (bytes_in restored.old) (bytes_in restored.new) answer
        × WantsNoMemory (length recovery.now) answer }
    ensures kept { KeepsRooms restored.old restored.new }
    ensures returns_number { result ≡ fault.new.number }
{
    let answer = match engine_over(tables) {
        Some(engine) => decode_arrays(
            alloc,
            engine,
            original_count,
            recovery_count,
            originals,
            recovery,
            restored,
        ),
        None => Err(Fault::TablesNotMade),
    };
    *fault = RsFault::of(answer);
    fault.number
}

/// Checks that the received shards belong to one message. The shards can be anywhere in memory. The shard size is that
/// of the first recovery shard, or of the first original if there is no recovery shard. Fills `fault`, and returns its
/// number, which is 0 if the shards belong to one message.
///
/// The call fails, in this order, if the tables were not made, and with the errors of `verify` for these shards.
#[unsafe(no_mangle)]
pub extern "C" fn rs_verify(
    alloc: Global,
    tables: &RsTables,
    original_count: usize,
    recovery_count: usize,
    originals: &[RsShard<'_>],
    recovery: &[RsShard<'_>],
    fault: &mut RsFault,
) -> u32
    requires stamped { AreStamped tables.now → AreTables tables.now }
    ensures not_made { ¬ AreStamped tables.now → fault.new ≡ numbers 15 0 0 0 }
    ensures answer { AreStamped tables.now
        → (answer : Result (Unit {0}) FaultOf) × (fault.new ≡ fault_of answer)
        × VerifiesArrays original_count recovery_count
        (items_of originals.now) (items_of recovery.now) answer }
    ensures returns_number { result ≡ fault.new.number }
{
    let answer = match engine_over(tables) {
        Some(engine) => verify_arrays(
            alloc,
            engine,
            original_count,
            recovery_count,
            originals,
            recovery,
        ),
        None => Err(Fault::TablesNotMade),
    };
    *fault = RsFault::of(answer);
    fault.number
}

/// Reconstructs the wanted shards from the received shards, and writes them into rooms, in the order of `wanted`. The
/// shards and the rooms can be anywhere in memory. The shard size is that of the first recovery shard, or of the first
/// original if there is no recovery shard. Fills `fault`, and returns its number, which is 0 after a success.
///
/// The call fails, in this order, if the tables were not made, and with the errors of `reconstruct_into` for these
/// shards. If the call fails, it writes nothing but the fault.
#[unsafe(no_mangle)]
pub extern "C" fn rs_reconstruct(
    alloc: Global,
    tables: &RsTables,
    original_count: usize,
    recovery_count: usize,
    originals: &[RsShard<'_>],
    recovery: &[RsShard<'_>],
    wanted: &[RsWanted],
    rooms: &mut [&mut [u8]],
    fault: &mut RsFault,
) -> u32
    requires stamped { AreStamped tables.now → AreTables tables.now }
    ensures not_made { ¬ AreStamped tables.now
        → (fault.new ≡ numbers 15 0 0 0) × (bytes_in rooms.new ≡ bytes_in rooms.old) }
    ensures answer { AreStamped tables.now
        → (answer : Result (Unit {0}) FaultOf) × (fault.new ≡ fault_of answer)
        × ReconstructsArrays original_count recovery_count
        (items_of originals.now) (items_of recovery.now) (wanted_of wanted.now)
        (bytes_in rooms.old) (bytes_in rooms.new) answer }
    ensures kept { KeepsRooms rooms.old rooms.new }
    ensures returns_number { result ≡ fault.new.number }
{
    let answer = match engine_over(tables) {
        Some(engine) => reconstruct_arrays(
            alloc,
            engine,
            original_count,
            recovery_count,
            originals,
            recovery,
            wanted,
            rooms,
        ),
        None => Err(Fault::TablesNotMade),
    };
    *fault = RsFault::of(answer);
    fault.number
}

/// Updates the recovery shards in rooms after the original with this index has changed from `before` to `after`. The
/// rooms can be anywhere in memory. Fills `fault`, and returns its number, which is 0 after a success.
///
/// The call fails, in this order, if the tables were not made, and with the errors of `update_into` for this change and
/// these rooms. If the call fails, it writes nothing but the fault.
#[unsafe(no_mangle)]
pub extern "C" fn rs_update(
    alloc: Global,
    tables: &RsTables,
    original_count: usize,
    recovery_count: usize,
    index: usize,
    before: &[u8],
    after: &[u8],
    recovery: &mut [&mut [u8]],
    fault: &mut RsFault,
) -> u32
    requires stamped { AreStamped tables.now → AreTables tables.now }
    ensures not_made { ¬ AreStamped tables.now
        → (fault.new ≡ numbers 15 0 0 0) × (bytes_in recovery.new ≡ bytes_in recovery.old) }
    ensures answer { AreStamped tables.now
        → (answer : Result (Unit {0}) FaultOf) × (fault.new ≡ fault_of answer)
        × UpdatesArrays original_count recovery_count index before.now after.now
        (bytes_in recovery.old) (bytes_in recovery.new) answer }
    ensures kept { KeepsRooms recovery.old recovery.new }
    ensures returns_number { result ≡ fault.new.number }
{
    let answer = match engine_over(tables) {
        Some(engine) => update_arrays(
            alloc,
            engine,
            original_count,
            recovery_count,
            index,
            before,
            after,
            recovery,
        ),
        None => Err(Fault::TablesNotMade),
    };
    *fault = RsFault::of(answer);
    fault.number
}

/// Writes the text of a fault into `text`, as much of it as fits, and returns the length of the whole text. If no fault
/// has this number, the call writes nothing and returns 0. It allocates nothing.
#[unsafe(no_mangle)]
pub extern "C" fn rs_fault_text(fault: &RsFault, text: &mut [u8]) -> usize
    ensures { WritesText (text_with (fault_with fault.now)) text.old text.new result }
{
    text::write_text(*fault, text)
}

/// Returns the version of this interface: the major number times 65536, plus the minor number.
#[unsafe(no_mangle)]
pub extern "C" fn rs_version() -> u32
    ensures { result ≡ 65540 }
{
    65540
}
