//! Powers of two, the frame of each rate for the counts that it supports, and what a decode costs in a frame.
ghost use Rattle.std.specs.Prelude.{◌≡◌, ◌↔◌, ℕ, ◌+◌, ◌%◌, ◌^◌, ◌<◌, ◌≤◌, IsTrue, if◌then◌else◌};
ghost use Rattle.rs_field.specs.code.Counts.{next_power, exponent_of, is_low};
ghost use Rattle.rs_field.specs.code.Counts.{low_rate, high_rate, default_rate};
ghost use Rattle.rs_field.specs.code.Frame.{low_frame, high_frame};
ghost use Rattle.rs_rate.specs.values.Configured.{frame_if};
ghost use Rattle.rs_rate.specs.values.SumCosts.{AreSumsCheaper};

use rs_field::engine::GF_ORDER;
use rs_field::frame::Frame;

fn power_of_two(n: usize) -> usize
    requires { n ≤ 65536 }
    ensures value { result ≡ next_power n }
    ensures lower_bound { n ≤ result }
    ensures upper_bound { result ≤ 65536 }
{
    n.next_power_of_two()
}

fn exponent_of(n: usize) -> usize
    requires { n ≤ 65536 }
    ensures { result ≡ exponent_of n }
{
    power_of_two(n).trailing_zeros() as usize
}

// It needs no division: one division takes as long as the other steps that set up an encoder of few short rows.
pub(crate) fn next_multiple_of_power(n: usize, power: usize) -> usize
    requires power { (d : ℕ) × (power ≡ 2 ^ d) }
    requires fits { n + power ≤ 65536 }
    ensures lower_bound { n ≤ result }
    ensures upper_bound { result < n + power }
    ensures multiple { result % power ≡ 0 }
{
    let mask = power - 1;
    let last = n + mask;
    last - (last & mask)
}

// Each shard needs a point of its own, and the field has 65536 of them.
fn are_in_field(original_count: usize, recovery_count: usize) -> bool
    ensures { IsTrue result
        ↔ (0 < original_count) × (original_count ≤ 65536) × (0 < recovery_count)
        × (recovery_count ≤ 65536) }
{
    let originals_fit = 0 < original_count && original_count <= GF_ORDER;
    let recovery_fits = 0 < recovery_count && recovery_count <= GF_ORDER;
    originals_fit && recovery_fits
}

// The caller has the power already: `block_rows` is not computed again.
fn with_low_blocks(original_count: usize, recovery_count: usize, block_rows: usize) -> Frame
    requires block { block_rows ≡ next_power original_count }
    requires fits { block_rows + recovery_count ≤ 65536 }
    ensures { result ≡ low_frame original_count recovery_count }
{
    Frame {
        is_low: true,
        exponent: exponent_of(block_rows + recovery_count),
        originals_from: 0,
        recovery_from: block_rows,
        zeros_from: original_count,
        zeros_to: block_rows,
    }
}

// The caller has the power already: `block_rows` is not computed again.
fn with_high_blocks(original_count: usize, recovery_count: usize, block_rows: usize) -> Frame
    requires block { block_rows ≡ next_power recovery_count }
    requires fits { block_rows + original_count ≤ 65536 }
    ensures { result ≡ high_frame original_count recovery_count }
{
    Frame {
        is_low: false,
        exponent: exponent_of(block_rows + original_count),
        originals_from: block_rows,
        recovery_from: 0,
        zeros_from: block_rows + original_count,
        zeros_to: GF_ORDER,
    }
}

// A block holds the originals, so its rows are the number of originals, rounded up to a power of two.
pub(crate) fn low_frame(original_count: usize, recovery_count: usize) -> Option<Frame>
    ensures { result ≡ frame_if low_rate original_count recovery_count }
{
    if !are_in_field(original_count, recovery_count) {
        return None;
    }
    let block_rows = power_of_two(original_count);
    if block_rows + recovery_count > GF_ORDER {
        return None;
    }
    Some(with_low_blocks(original_count, recovery_count, block_rows))
}

// A block holds the recovery shards, so its rows are their number, rounded up to a power of two.
pub(crate) fn high_frame(original_count: usize, recovery_count: usize) -> Option<Frame>
    ensures { result ≡ frame_if high_rate original_count recovery_count }
{
    if !are_in_field(original_count, recovery_count) {
        return None;
    }
    let block_rows = power_of_two(recovery_count);
    if block_rows + original_count > GF_ORDER {
        return None;
    }
    Some(with_high_blocks(original_count, recovery_count, block_rows))
}

// The low rate is chosen if its blocks are smaller than those of the high rate, or if they are equal and there are more
// originals than recovery shards. The Rust crate chooses in this way, and the bytes depend on it.
fn default_is_low(original_count: usize, recovery_count: usize) -> bool
    requires originals { original_count ≤ 65536 }
    requires recovery { recovery_count ≤ 65536 }
    ensures { result ≡ is_low default_rate original_count recovery_count }
{
    let original_power = power_of_two(original_count);
    let recovery_power = power_of_two(recovery_count);
    original_power < recovery_power
        || (original_power == recovery_power && recovery_count < original_count)
}

pub(crate) fn default_frame(original_count: usize, recovery_count: usize) -> Option<Frame>
    ensures { result ≡ frame_if default_rate original_count recovery_count }
{
    if !are_in_field(original_count, recovery_count) {
        return None;
    }
    if default_is_low(original_count, recovery_count) {
        low_frame(original_count, recovery_count)
    } else {
        high_frame(original_count, recovery_count)
    }
}

/// Returns whether a call uses direct sums instead of transforms, if it needs this number of sums. A sum takes one
/// product of a row for each original. With long shards, both ways take about the same time if there are four times as
/// many products as rows of a decoder.
#[tactic(auto, unfolding(crate::specs::values::SumCosts::AreSumsCheaper))]
pub fn are_sums_cheaper(frame: Frame, original_count: usize, sums: usize) -> bool
    requires { frame.exponent ≤ 16 }
    ensures { IsTrue result ↔ AreSumsCheaper frame original_count sums }
{
    sums.saturating_mul(original_count) < 4 * frame.row_count()
}

/// Returns whether a decode makes the missing originals from syndromes, if it has this number of missing originals and
/// of surplus shards. The cost of syndromes is the number of butterflies of an encode, plus one product in each sum for
/// each missing original. Syndromes are used only at the high rate, for at least eight missing originals, if direct
/// sums take more than one and a half times this cost in products, and two transforms of a decoder more than three
/// times this cost in butterflies.
pub fn are_syndromes_cheapest(
    frame: Frame,
    original_count: usize,
    missing: usize,
    surplus: usize,
) -> bool
    requires { frame.exponent ≤ 16 }
{
    if frame.is_low || missing < 8 {
        return false;
    }
    let block_rows = frame.originals_from.max(1);
    let blocks = original_count.div_ceil(block_rows).saturating_add(1);
    let layers = block_rows.ilog2() as usize;
    let butterflies = blocks.saturating_mul(block_rows).saturating_mul(layers) / 2;
    let sums = missing.saturating_add(surplus);
    let products = sums.saturating_mul(missing);
    let cost = butterflies.saturating_add(products).saturating_mul(3);
    cost < sums.saturating_mul(original_count).saturating_mul(2)
        && cost < frame.row_count() * frame.exponent
}
