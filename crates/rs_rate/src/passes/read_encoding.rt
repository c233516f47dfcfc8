//! The coding of the high rate over originals that are read where they are. The backward transform of the first block
//! of originals replaces the rows of one block, and that of each further block is added to them. Blocks of more than
//! four rows are added from spare rows.
ghost use Rattle.std.specs.Prelude.{◌≡◌, ℕ, ◌+◌, ◌*◌, ◌%◌, ◌<◌, ◌≤◌, ◌↔◌, All, length, IsTrue};
ghost use Rattle.rs_field.specs.code.Counts.{high_rate, next_power};
ghost use Rattle.rs_field.specs.rows.Layout.{row_len};
ghost use Rattle.rs_field.specs.rows.Rows.{chunk, symbol, word_in};
ghost use Rattle.rs_field.specs.rows.Written.{AreWritten};
ghost use Rattle.rs_field.specs.words.StepBounds.{CountsUpTo, transform_steps};
ghost use Rattle.rs_rate.specs.passes.Coding.{CodesWords, CodingCounts, SumsBlocks, further_blocks, zero_padded};
ghost use Rattle.rs_rate.specs.passes.Reading.{CanRead, IsBlank, message_word, read_rows, rows_to_read};
ghost use Rattle.rs_rate.specs.values.ChunkCounts.{chunk_count};
ghost use Rattle.rs_rate.specs.values.Configured.{IsConfigured};

use crate::passes::strip_message::StripMessage;
use crate::values::configuration::Configuration;
use rs_field::engine::layout::row_len;
use rs_field::engine::{
    Engine, ReadRows, ShardsRefMut, Steps, Writing, add_ifft_of_many, ifft_of_many, ifft_of_rows,
};

// As many zeros as the longest row that is read has.
static ZEROS: [[u8; 64]; 64] = [[0; 64]; 64];

/// Returns whether [`code_read`] can encode with this configuration: at the high rate, with blocks of more than one
/// row, and with shards of at most 64 chunks and no tail.
pub(crate) fn can_read(configuration: Configuration) -> bool
    ensures { IsTrue result ↔ CanRead configuration }
{
    !configuration.frame.is_low
        && configuration.block_rows() > 1
        && configuration.shard_bytes % 64 == 0
        && configuration.shard_bytes <= 4096
}

/// Returns whether [`code_read`] is faster than an encode of copies, if the engine reads rows. With more than four rows
/// in a block, it is for shards of at least 256 bytes.
pub(crate) fn is_reading_faster(configuration: Configuration) -> bool {
    configuration.block_rows() <= 4 || configuration.shard_bytes >= 256
}

/// Returns the number of rows that [`code_read`] needs: those of one block, and as many spare rows if there are further
/// blocks of more than four rows.
#[tactic(auto, unfolding(crate::specs::passes::Reading::rows_to_read))]
pub(crate) fn read_rows(configuration: Configuration) -> usize
    requires { IsConfigured configuration }
    ensures { result ≡ read_rows configuration }
{
    let block = configuration.block_rows();
    if block > 4 && configuration.original_count > block {
        return 2 * block;
    }
    block
}

/// Computes the words of the recovery shards in the first block of rows from the originals of a message.
pub(crate) fn code_read<E: Engine, M: StripMessage>(
    engine: &E,
    steps: &mut Steps,
    chunks: &mut [[u8; 64]],
    configuration: Configuration,
    message: &M,
)
    requires configured { IsConfigured configuration }
    requires can { CanRead configuration }
    requires room { chunk_count (read_rows configuration) configuration.shard_bytes
        ≤ length chunks.old }
    requires number { length (M.shards message.now) ≡ configuration.original_count }
    requires sized { All (λ shard. length shard ≡ configuration.shard_bytes)
        (M.shards message.now) }
    ensures words { let c = configuration in let n = row_len c.shard_bytes in
        (k s : ℕ) → k < n → s < 32
        → CodesWords high_rate c.original_count c.recovery_count
        (message_word (M.shards message.now) k s) (word_in chunks.new n k s) }
    ensures counts { let c = configuration in
        CodingCounts high_rate c.original_count c.recovery_count steps.old steps.new }
{
    let len = row_len(configuration.shard_bytes);
    let block = configuration.block_rows();
    let message = MessageRows {
        message,
        count: configuration.original_count,
        block,
        len,
        zeros: zero_row(len),
    };
    let room = read_rows(configuration) * len;
    message.sum_in(engine, steps, &mut chunks[..room]);
    let mut rows = ShardsRefMut::new(block, len, chunks);
    engine.fft(steps, &mut rows, 0, block, configuration.recovery_count, 0);
}

fn zero_row(len: usize) -> &'static [[u8; 64]]
    requires { len ≤ 64 }
    ensures { IsBlank len result.now }
{
    &ZEROS[..len]
}

/// The originals of a message as rows of chunks, in blocks.
#[derive(Drop)]
struct MessageRows<'a, M: StripMessage> {
    /// The message whose originals are the rows.
    message: &'a M,
    /// The number of originals.
    count: usize,
    /// The number of rows of a block.
    block: usize,
    /// The number of chunks of a row.
    len: usize,
    /// A row of zeros, which fills the last block up.
    zeros: &'a [[u8; 64]],
    /// A block has more than one row.
    ghost some: { 1 < block },
    /// The number of rows of a block is a power of two.
    ghost power: { next_power block ≡ block },
    /// The message has `count` originals.
    ghost number: { length (M.shards message.now) ≡ count },
    /// Each original has `len` chunks and no tail.
    ghost sized: { All (λ shard. length shard ≡ len * 64) (M.shards message.now) },
    /// The row of zeros has `len` chunks, and each of its words is zero.
    ghost blank: { IsBlank len zeros.now },
    /// There is an original.
    ghost originals: { 0 < count },
    /// The points of the block of originals from `start` on begin at `start + block`, and all are below 65536.
    ghost points: { (start : ℕ) → start % block ≡ 0 → start < count → start + 2 * block ≤ 65536 },
}

impl<'a, M: StripMessage> MessageRows<'a, M> {
    // Sums the backward transforms of all blocks in the rows for one block. The other chunks are spare rows, if any are
    // needed.
    fn sum_in<E: Engine>(&self, engine: &E, steps: &mut Steps, chunks: &mut [[u8; 64]])
        requires room { length chunks.old ≡ rows_to_read self.now.block self.now.count * self.now.len }
        ensures length { length chunks.new ≡ length chunks.old }
        ensures sums { (n : ℕ) × (self.now.count ≤ n * self.now.block)
            × (n * self.now.block + self.now.block ≤ 65536)
            × ((k s : ℕ) → k < self.now.len → s < 32
            → SumsBlocks self.now.block n self.now.count
            (message_word (M.shards self.now.message.now) k s)
            (word_in chunks.new self.now.len k s)) }
        ensures counts { (rows : ℕ) → self.now.count ≤ rows → rows % self.now.block ≡ 0
            → CountsUpTo (self.now.block + transform_steps self.now.block
            + further_blocks self.now.block rows
            * (2 * self.now.block + transform_steps self.now.block)) 0 0 steps.old steps.new }
    {
        let (sums, spare) = chunks.split_at_mut(self.block * self.len);
        self.sum_blocks(engine, steps, sums, spare);
    }

    // Sums the backward transforms of all blocks in rows for one block.
    fn sum_blocks<E: Engine>(
        &self,
        engine: &E,
        steps: &mut Steps,
        sums: &mut [[u8; 64]],
        spare: &mut [[u8; 64]],
    )
        requires room { length sums.old ≡ self.now.block * self.now.len }
        requires spare { 4 < self.now.block → self.now.block < self.now.count
            → length spare.old ≡ self.now.block * self.now.len }
        ensures length { length sums.new ≡ length sums.old }
        ensures spare { length spare.new ≡ length spare.old }
        ensures sums { (n : ℕ) × (self.now.count ≤ n * self.now.block)
            × (n * self.now.block + self.now.block ≤ 65536)
            × ((k s : ℕ) → k < self.now.len → s < 32
            → SumsBlocks self.now.block n self.now.count
            (message_word (M.shards self.now.message.now) k s)
            (word_in sums.new self.now.len k s)) }
        ensures counts { (rows : ℕ) → self.now.count ≤ rows → rows % self.now.block ≡ 0
            → CountsUpTo (self.now.block + transform_steps self.now.block
            + further_blocks self.now.block rows
            * (2 * self.now.block + transform_steps self.now.block)) 0 0 steps.old steps.new }
    {
        self.write_first(engine, steps, sums);
        let mut start = self.block;
        while start < self.count {
            self.add_block(engine, steps, sums, spare, start);
            start += self.block;
        }
    }

    // Writes the coefficients of the polynomials whose values are the originals of the first block, and zero after
    // them.
    fn write_first<E: Engine>(&self, engine: &E, steps: &mut Steps, sums: &mut [[u8; 64]])
        requires room { length sums.old ≡ self.now.block * self.now.len }
        ensures length { length sums.new ≡ length sums.old }
        ensures written { (k s : ℕ) → k < self.now.len → s < 32
            → AreWritten Writing.Replacing self.now.block self.now.block self.now.len k s
            (zero_padded self.now.count (message_word (M.shards self.now.message.now) k s))
            sums.old sums.new }
        ensures counts { CountsUpTo (self.now.block + transform_steps self.now.block) 0 0
            steps.old steps.new }
    {
        let rows = BlockRows {
            message: self,
            start: 0,
        };
        if self.block > 4 {
            ifft_of_many(engine, steps, sums, &rows, self.block);
        } else {
            ifft_of_rows(engine, steps, sums, &rows, self.block, Writing::Replacing);
        }
    }

    // Adds the coefficients of the polynomials whose values are the originals of the block from `start` on, and zero
    // after them.
    fn add_block<E: Engine>(
        &self,
        engine: &E,
        steps: &mut Steps,
        sums: &mut [[u8; 64]],
        spare: &mut [[u8; 64]],
        start: usize,
    )
        requires room { length sums.old ≡ self.now.block * self.now.len }
        requires spare { 4 < self.now.block → length spare.old ≡ self.now.block * self.now.len }
        requires some { start < self.now.count }
        requires aligned { start % self.now.block ≡ 0 }
        ensures length { length sums.new ≡ length sums.old }
        ensures spare { length spare.new ≡ length spare.old }
        ensures written { (k s : ℕ) → k < self.now.len → s < 32
            → AreWritten Writing.Adding self.now.block (start + self.now.block) self.now.len k s
            (λ i. zero_padded self.now.count (message_word (M.shards self.now.message.now) k s)
            (start + i)) sums.old sums.new }
        ensures counts { CountsUpTo (2 * self.now.block + transform_steps self.now.block) 0 0
            steps.old steps.new }
    {
        let rows = BlockRows {
            message: self,
            start,
        };
        let shift = start + self.block;
        if self.block > 4 {
            add_ifft_of_many(engine, steps, sums, spare, &rows, shift);
        } else {
            ifft_of_rows(engine, steps, sums, &rows, shift, Writing::Adding);
        }
    }

    // Returns the chunks of an original, or a row of zeros after the last original.
    fn row(&self, index: usize) -> &[[u8; 64]]
        ensures length { length result.now ≡ self.now.len }
        ensures words { (k s : ℕ) → k < self.now.len → s < 32
            → symbol (chunk result.now k) s
            ≡ zero_padded self.now.count (message_word (M.shards self.now.message.now) k s) index }
    {
        if index >= self.count {
            return self.zeros;
        }
        self.message.piece(index).as_chunks().0
    }
}

/// A block of rows of a message.
#[derive(Drop)]
struct BlockRows<'a, M: StripMessage> {
    /// The rows of all blocks.
    message: &'a MessageRows<'a, M>,
    /// The index of the first original of the block.
    start: usize,
    /// The rows of the block are among the 65536 points.
    ghost points: { start + message.now.block ≤ 65536 },
}

impl<'a, M: StripMessage> ReadRows for BlockRows<'a, M> {
    ghost row_count = { λ x. x.message.now.block };

    ghost row_len = { λ x. x.message.now.len };

    ghost word = { λ x k s i. zero_padded x.message.now.count
        (message_word (M.shards x.message.now.message.now) k s) (x.start + i) };

    fn count(&self) -> usize {
        self.message.block
    }

    fn row(&self, index: usize) -> &[[u8; 64]] {
        self.message.row(self.start + index)
    }

    fn used(&self) -> usize {
        let left = self.message.count.saturating_sub(self.start);
        left.min(self.message.block)
    }
}
