//! Growth of vectors: room is made before anything changes.
ghost use Rattle.std.specs.Prelude.{◌≡◌, ℕ, ◌<◌, ◌≤◌, vec_len, slice_index_or, IfErr, OnOk};
ghost use Rattle.std.specs.Vec.{vec_capacity};
ghost use Rattle.rs_rate.specs.rows.Memory.{room_of};

use rs_field::error::Error;
use std::alloc::Global;

pub(crate) fn vec_of<T>(alloc: Global, memory: Option<Vec<T>>) -> Vec<T>
    ensures { room_of memory ≤ vec_capacity result }
{
    match memory {
        Some(items) => items,
        None => Vec::new(alloc),
    }
}

// Makes room for `count` items, or fails with `OutOfMemory`. The items stay.
pub(crate) fn make_room<T>(items: &mut Vec<T>, count: usize) -> Result<(), Error>
    ensures same { items.new.items ≡ items.old.items }
    ensures room { OnOk result (count ≤ vec_capacity items.new) }
    ensures more { vec_capacity items.old ≤ vec_capacity items.new }
    ensures refused { IfErr result
        (λ e. (e ≡ Error.OutOfMemory) × (vec_capacity items.old < count)) }
{
    let more = count.saturating_sub(items.len());
    items.try_reserve_exact(more)?;
    Ok(())
}

// Sets the number of items, for which there must be room. Added items are copies of `item`.
#[inline(always)]
pub(crate) fn set_length<T: Copy>(items: &mut Vec<T>, count: usize, item: T)
    requires { count ≤ vec_capacity items.old }
    ensures length { vec_len items.new ≡ count }
    ensures added { (i : ℕ) (other : T) → vec_len items.old ≤ i → i < count
        → slice_index_or items.new.items i other ≡ item }
    ensures same { vec_len items.old ≡ count → items.new.items ≡ items.old.items }
    ensures room { vec_capacity items.old ≤ vec_capacity items.new }
{
    let _ = items.resize(count, item);
}

// Sets the number of chunks, for which there must be room. Added chunks are zeros. If the function is inlined and the
// vector is a local variable, this becomes a `memset`.
#[inline(always)]
pub(crate) fn set_chunks(chunks: &mut Vec<[u8; 64]>, count: usize)
    requires { count ≤ vec_capacity chunks.old }
    ensures length { vec_len chunks.new ≡ count }
    ensures room { vec_capacity chunks.old ≤ vec_capacity chunks.new }
{
    let _ = chunks.resize_with(count, || [0; 64]);
}
