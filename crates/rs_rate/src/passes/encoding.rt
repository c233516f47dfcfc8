//! The coding of a round: the rows over the chunks, the coding of the rate, the tails.
ghost use Rattle.std.specs.Prelude.{◌≡◌, ℕ, ◌<◌, ◌≤◌, length};
ghost use Rattle.std.specs.Vec.{vec_capacity};
ghost use Rattle.rs_field.specs.code.Bounds.{EncodeCountsAt};
ghost use Rattle.rs_field.specs.code.Code.{AreRecovery};
ghost use Rattle.rs_field.specs.rows.Layout.{row_len};
ghost use Rattle.rs_field.specs.rows.Rows.{word_in};
ghost use Rattle.rs_rate.specs.passes.Coding.{CodesWords, CodingCounts};
ghost use Rattle.rs_rate.specs.values.Configured.{configuration_at, IsConfigured, rate_of, rows_to_encode};
ghost use Rattle.rs_rate.specs.rows.EncoderView.{given_originals, lent_shards};
ghost use Rattle.rs_rate.specs.values.ChunkCounts.{chunk_count};

use crate::passes::high_encoding::code_high;
use crate::passes::low_encoding::code_low;
use crate::rows::encoder_work::EncoderRows;
use crate::rows::shard_rows::{move_tails, rows_are_bytes};
use crate::values::configuration::Configuration;
use rs_field::engine::layout::row_len;
use rs_field::engine::{Engine, ShardsRefMut, Steps};

// Computes the recovery shards of the given originals, and ends the round.
pub(crate) fn encode_rows<E: Engine>(engine: &E, steps: &mut Steps, rows: &mut EncoderRows)
    requires full { rows.old.originals_given ≡ rows.old.configuration.original_count }
    ensures configuration { rows.new.configuration ≡ rows.old.configuration }
    ensures none { rows.new.originals_given ≡ 0 }
    ensures recovery { let c = rows.old.configuration in
        AreRecovery
        (configuration_at (rate_of c) c) (given_originals rows.old) (lent_shards rows.new) }
    ensures room { vec_capacity rows.new.chunks ≡ vec_capacity rows.old.chunks }
    ensures counts { let c = rows.old.configuration in
        EncodeCountsAt (rate_of c) c.original_count c.recovery_count steps.old steps.new }
{
    let configuration = rows.configuration;
    let recovery_count = configuration.recovery_count;
    rows.originals_given = 0;
    let chunks = rows.chunks.as_mut_slice();
    code_chunks(engine, steps, chunks, configuration);
    rows_are_bytes(chunks, recovery_count, configuration.shard_bytes);
    move_tails(steps, chunks, recovery_count, configuration.shard_bytes);
}

// Computes the words of the recovery shards in all chunks, with the coding of the low or of the high rate.
#[tactic(auto, unfolding(crate::specs::values::ChunkCounts::chunk_count))]
pub(crate) fn code_chunks<E: Engine>(
    engine: &E,
    steps: &mut Steps,
    chunks: &mut [[u8; 64]],
    configuration: Configuration,
)
    requires configured { IsConfigured configuration }
    requires room { chunk_count (rows_to_encode configuration) configuration.shard_bytes
        ≤ length chunks.old }
    ensures words { let c = configuration in let n = row_len c.shard_bytes in
        (k s : ℕ) → k < n → s < 32
        → CodesWords (rate_of c) c.original_count c.recovery_count
        (word_in chunks.old n k s) (word_in chunks.new n k s) }
    ensures counts { let c = configuration in
        CodingCounts (rate_of c) c.original_count c.recovery_count steps.old steps.new }
{
    let len = row_len(configuration.shard_bytes);
    let mut rows = ShardsRefMut::new(configuration.encoder_rows(), len, chunks);
    let original_count = configuration.original_count;
    let recovery_count = configuration.recovery_count;
    let block = configuration.block_rows();
    if configuration.frame.is_low {
        code_low(
            engine,
            steps,
            &mut rows,
            original_count,
            recovery_count,
            block,
        );
    } else {
        code_high(
            engine,
            steps,
            &mut rows,
            original_count,
            recovery_count,
            block,
        );
    }
}
