//! The transforms that engines share. They handle blocks, cosets and unused rows around layers of butterflies.
//!
//! The method is that of Lin, Chung and Han in the form of Leopard-RS. A transform is two layers of butterflies between
//! the quarters of its rows and a transform of each quarter. For 2, 8 and 32 rows, it is one layer between the halves
//! and a transform of each half. So the recursion goes depth first, and a block that fits the cache stays in the cache.
ghost use Rattle.std.specs.Prelude.{◌<◌};
ghost use Rattle.rs_field.specs.rows.Directions.{CanTransform, ChangesBlock, AreRowsTransformed};
ghost use Rattle.rs_field.specs.rows.Directions.{ArePartsTransformed, PartCounts};
ghost use Rattle.rs_field.specs.rows.MarkedRows.{is_used};
ghost use Rattle.rs_field.specs.words.StepBounds.{TransformCounts};
ghost use Rattle.rs_field.specs.words.Inverse.{TransformsAreInverse};

use super::ShardsRefMut;
use super::block::Block;
use super::bytes::row_symbols_are_words;
use super::kernel::Kernel;
use super::layers::{Direction, layers};
use super::marked_rows::UsedRows;
use crate::words::Steps;

/// Transforms the rows of a block in a direction, with the butterflies of an engine. It counts at most `size / 2`
/// butterflies for each layer. Rows outside the block are unchanged.
///
/// Forward, row i of the block, if it is used, becomes the sum over q of the old row q times the basis polynomial q at
/// the point `skew_delta + i`. Rows that are not used hold anything afterwards. Backward, the rows hold afterwards the
/// rows of which the old rows are the forward transform. Rows that are not used must be zero when the call begins.
///
/// This function is inlined, so that blocks of up to four rows are transformed without a call.
#[inline(always)]
#[cycle(transform)]
pub(crate) fn transform<K: Kernel>(
    direction: Direction,
    kernel: &K,
    steps: &mut Steps,
    data: &mut ShardsRefMut<'_>,
    block: Block,
    used: UsedRows<'_>,
)
    requires { CanTransform direction used block «data».old }
    ensures rows { ChangesBlock block «data».old «data».new }
    ensures values { AreRowsTransformed direction (is_used used.entry) block «data».old «data».new }
    ensures counts { TransformCounts block.size steps.old steps.new }
{
    if used.are_none() {
        return;
    }
    if block.size > 4 {
        transform_many(direction, kernel, steps, data, block, used);
        return;
    }
    row_symbols_are_words(data);
    if block.size > 1 {
        layers(direction, kernel, steps, data, block);
        row_symbols_are_words(data);
    }
}

// Transforms the rows of a block of more than four rows. `transform_parts` is inlined into each arm of the match, so
// that its loop is compiled for one direction.
#[cycle(transform)]
fn transform_many<K: Kernel>(
    direction: Direction,
    kernel: &K,
    steps: &mut Steps,
    data: &mut ShardsRefMut<'_>,
    block: Block,
    used: UsedRows<'_>,
)
    requires can { CanTransform direction used block «data».old }
    requires large { 1 < block.size }
    ensures rows { ChangesBlock block «data».old «data».new }
    ensures values { AreRowsTransformed direction (is_used used.entry) block «data».old «data».new }
    ensures counts { TransformCounts block.size steps.old steps.new }
{
    match direction {
        Direction::Forward => {
            layers(direction, kernel, steps, data, block);
            transform_parts(direction, kernel, steps, data, block, used);
        }
        Direction::Backward => {
            transform_parts(direction, kernel, steps, data, block, used);
            layers(direction, kernel, steps, data, block);
        }
    }
}

// Transforms each part that the layers of a block leave. This function is inlined, because a transform of short rows
// takes little longer than a call.
#[inline(always)]
#[cycle(transform)]
fn transform_parts<K: Kernel>(
    direction: Direction,
    kernel: &K,
    steps: &mut Steps,
    data: &mut ShardsRefMut<'_>,
    block: Block,
    used: UsedRows<'_>,
)
    requires can { CanTransform direction used block «data».old }
    requires large { 1 < block.size }
    ensures rows { ChangesBlock block «data».old «data».new }
    ensures parts { ArePartsTransformed direction (is_used used.entry) block «data».old «data».new }
    ensures counts { PartCounts block.size steps.old steps.new }
{
    let part = block.part_rows();
    for j in 0..block.size / part {
        transform(
            direction,
            kernel,
            steps,
            data,
            block.part(j, part),
            used.part(j * part, part),
        );
    }
}

/// States that the forward and the backward transform at one shift undo each other: the forward transform of the
/// backward transform of some rows is these rows again, and so is the backward transform of their forward transform.
pub fn transform_laws()
    ensures { TransformsAreInverse }
{}
