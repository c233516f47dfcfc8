//! The layers of butterflies that a transform does at once: one, between the halves of its rows, or two, between their
//! quarters.
//!
//! The forward layers go before the transforms of the parts that they leave, and the backward ones after them.
ghost use Rattle.std.specs.Prelude.{◌≡◌, ℕ, ◌+◌, ◌*◌, ◌<◌, ◌≤◌, length};
ghost use Rattle.rs_field.specs.rows.Rows.{chunk};
ghost use Rattle.rs_field.specs.rows.Layers.{rows_of_part, layer_steps};
ghost use Rattle.rs_field.specs.rows.Directions.{IsButterfly, AreTwoLayers, AreLayers, ChangesBlock};
ghost use Rattle.rs_field.specs.rows.View.{word, Fits};
ghost use Rattle.rs_field.specs.words.StepBounds.{CountsRows};

use super::ShardsRefMut;
use super::block::Block;
use super::kernel::{Kernel, ThreeLogarithms};
use crate::words::{GfElement, Steps};

/// The direction of a transform.
#[derive(Clone, Copy)]
pub(crate) enum Direction {
    /// From coefficients to values.
    Forward,
    /// From values to coefficients.
    Backward,
}

// Does one layer of butterflies, with the factor of a logarithm, between the chunks of two halves.
fn butterflies_of_halves<K: Kernel>(
    direction: Direction,
    kernel: &K,
    chunks: &mut [[u8; 64]],
    half: usize,
    log_m: GfElement,
)
    requires { length chunks.old ≡ 2 * half }
    ensures length { length chunks.new ≡ 2 * half }
    ensures pairs { (k : ℕ) → k < half
        → IsButterfly direction log_m (chunk chunks.old k) (chunk chunks.old (half + k))
        (chunk chunks.new k) (chunk chunks.new (half + k)) }
{
    let (x, y) = chunks.split_at_mut(half);
    match direction {
        Direction::Forward => kernel.fft_butterfly(x, y, log_m),
        Direction::Backward => kernel.ifft_butterfly(x, y, log_m),
    }
}

// Does two layers of butterflies, with the factors of three logarithms, between the chunks of four quarters.
fn butterflies_of_quarters<K: Kernel>(
    direction: Direction,
    kernel: &K,
    chunks: &mut [[u8; 64]],
    quarter: usize,
    logs: ThreeLogarithms,
)
    requires { length chunks.old ≡ 4 * quarter }
    ensures length { length chunks.new ≡ 4 * quarter }
    ensures fours { (k : ℕ) → k < quarter
        → AreTwoLayers direction logs.log_m02 logs.log_m01 logs.log_m23
        (chunk chunks.old k) (chunk chunks.old (quarter + k)) (chunk chunks.old (2 * quarter + k))
        (chunk chunks.old (3 * quarter + k))
        (chunk chunks.new k) (chunk chunks.new (quarter + k)) (chunk chunks.new (2 * quarter + k))
        (chunk chunks.new (3 * quarter + k)) }
{
    let (front, back) = chunks.split_at_mut(2 * quarter);
    let (x0, x1) = front.split_at_mut(quarter);
    let (x2, x3) = back.split_at_mut(quarter);
    match direction {
        Direction::Forward => kernel.fft_two_layers(x0, x1, x2, x3, logs),
        Direction::Backward => kernel.ifft_two_layers(x0, x1, x2, x3, logs),
    }
}

/// Does the layers of butterflies that lie between the parts of a block of more than one row. A forward transform of
/// the block is these layers followed by the forward transform of each part. A backward transform of the block is the
/// backward transform of each part followed by these layers. Each part has `part_rows` rows.
///
/// This function is inlined, so that transforms of more than four rows are compiled for their direction.
#[tactic(auto, using(crate::proofs::rows_lemmas::Parts::block_quarters))]
#[inline(always)]
pub(crate) fn layers<K: Kernel>(
    direction: Direction,
    kernel: &K,
    steps: &mut Steps,
    data: &mut ShardsRefMut<'_>,
    block: Block,
)
    requires fits { Fits «data».old }
    requires large { 1 < block.size }
    requires within { block.pos + block.size ≤ «data».old.shard_count }
    ensures rows { ChangesBlock block «data».old «data».new }
    ensures parts { (k s : ℕ) → k < «data».old.shard_len_64 → s < 32
        → AreLayers direction block.size (rows_of_part block.size) block.skew_delta
        (λ q. word «data».old k s (block.pos + q)) (λ q. word «data».new k s (block.pos + q)) }
    ensures counts { CountsRows (layer_steps block.size) steps.old steps.new }
{
    let skew = kernel.tables().skew;
    let len = data.shard_len_64;
    let start = block.pos * len;
    let end = (block.pos + block.size) * len;
    if block.is_halved() {
        let half = block.size / 2;
        let log_m = skew[block.skew_delta + half - 1];
        steps.row_steps(half);
        let chunks = &mut data.chunks[start..end];
        butterflies_of_halves(direction, kernel, chunks, half * len, log_m);
    } else {
        let quarter = block.size / 4;
        let middle = block.skew_delta + 2 * quarter;
        let logs = ThreeLogarithms {
            log_m02: skew[middle - 1],
            log_m01: skew[block.skew_delta + quarter - 1],
            log_m23: skew[middle + quarter - 1],
        };
        steps.row_steps(block.size);
        let chunks = &mut data.chunks[start..end];
        butterflies_of_quarters(direction, kernel, chunks, quarter * len, logs);
    }
}
