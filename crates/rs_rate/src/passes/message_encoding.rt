//! The coding of a message, whose originals are read where they are or copied into rows.
ghost use Rattle.std.specs.Prelude.{◌≡◌, ℕ, ◌/◌, ◌%◌, ◌<◌, ◌≤◌, true, All, length};
ghost use Rattle.rs_field.specs.code.Bounds.{EncodeCountsAt};
ghost use Rattle.rs_field.specs.code.Code.{AreRecovery};
ghost use Rattle.rs_field.specs.code.Column.{column, shard_at};
ghost use Rattle.rs_field.specs.rows.Layout.{row_len};
ghost use Rattle.rs_field.specs.rows.Rows.{word_in};
ghost use Rattle.rs_rate.specs.passes.Coding.{CodesWords, CodingCounts};
ghost use Rattle.rs_rate.specs.passes.Reading.{CanRead, strip_rows};
ghost use Rattle.rs_rate.specs.rows.EncoderView.{shards_in};
ghost use Rattle.rs_rate.specs.rows.ShardRows.{shard_laid_out};
ghost use Rattle.rs_rate.specs.values.ChunkCounts.{chunk_count};
ghost use Rattle.rs_rate.specs.values.Configured.{IsConfigured, configuration_at, rate_of};

use crate::passes::encoding::code_chunks;
use crate::passes::read_encoding::code_read;
use crate::passes::strip_message::StripMessage;
use crate::rows::shard_rows::{insert_at, move_tails, rows_are_bytes};
use crate::values::configuration::Configuration;
use rs_field::engine::{Engine, Steps};

/// Computes the recovery shards of a message in the first rows. If `reads` is set, the originals are read where they
/// are. Otherwise they are copied into rows.
pub(crate) fn encode_message<E: Engine, M: StripMessage>(
    engine: &E,
    steps: &mut Steps,
    chunks: &mut [[u8; 64]],
    configuration: Configuration,
    reads: bool,
    message: &M,
)
    requires configured { IsConfigured configuration }
    requires can { reads ≡ true → CanRead configuration }
    requires room { chunk_count (strip_rows reads configuration) configuration.shard_bytes
        ≤ length chunks.old }
    requires number { length (M.shards message.now) ≡ configuration.original_count }
    requires sized { All (λ shard. length shard ≡ configuration.shard_bytes)
        (M.shards message.now) }
    ensures recovery { let c = configuration in
        AreRecovery (configuration_at (rate_of c) c) (M.shards message.now)
        (shards_in c chunks.new) }
    ensures counts { let c = configuration in
        EncodeCountsAt (rate_of c) c.original_count c.recovery_count steps.old steps.new }
{
    let shard_bytes = configuration.shard_bytes;
    code_message(engine, steps, chunks, configuration, reads, message);
    rows_are_bytes(chunks, configuration.recovery_count, shard_bytes);
    move_tails(steps, chunks, configuration.recovery_count, shard_bytes);
}

// Computes the words of the recovery shards of a message in the first rows.
fn code_message<E: Engine, M: StripMessage>(
    engine: &E,
    steps: &mut Steps,
    chunks: &mut [[u8; 64]],
    configuration: Configuration,
    reads: bool,
    message: &M,
)
    requires configured { IsConfigured configuration }
    requires can { reads ≡ true → CanRead configuration }
    requires room { chunk_count (strip_rows reads configuration) configuration.shard_bytes
        ≤ length chunks.old }
    requires number { length (M.shards message.now) ≡ configuration.original_count }
    requires sized { All (λ shard. length shard ≡ configuration.shard_bytes)
        (M.shards message.now) }
    ensures words { let c = configuration in (j : ℕ) → j < c.shard_bytes / 2
        → CodesWords (rate_of c) c.original_count c.recovery_count
        (λ i. column j (shard_at (M.shards message.now) i))
        (word_in chunks.new (row_len c.shard_bytes) (j / 32) (j % 32)) }
    ensures counts { let c = configuration in
        CodingCounts (rate_of c) c.original_count c.recovery_count steps.old steps.new }
{
    if reads {
        code_read(engine, steps, chunks, configuration, message);
    } else {
        put_message(chunks, configuration, message);
        code_chunks(engine, steps, chunks, configuration);
    }
}

// Copies each original of a message into its row.
fn put_message<M: StripMessage>(chunks: &mut [[u8; 64]], configuration: Configuration, message: &M)
    requires configured { IsConfigured configuration }
    requires room { chunk_count configuration.original_count configuration.shard_bytes
        ≤ length chunks.old }
    requires number { length (M.shards message.now) ≡ configuration.original_count }
    requires sized { All (λ shard. length shard ≡ configuration.shard_bytes)
        (M.shards message.now) }
    ensures { (i : ℕ) → i < configuration.original_count
        → shard_laid_out chunks.new configuration.shard_bytes i
        ≡ shard_at (M.shards message.now) i }
{
    for index in 0..configuration.original_count {
        // With the size from here, the compiler computes the length of a row once for all shards.
        let shard = &message.piece(index)[..configuration.shard_bytes];
        insert_at(chunks, shard, index);
    }
}
