//! Callers of lent rows. Their proofs use only the contracts, which state that the list holds afterwards what was
//! written to the lent rows.
ghost use Rattle.std.specs.Prelude.{◌≡◌, ◌+◌, ◌*◌, ◌<◌, length};
ghost use Rattle.reed_solomon_simd.specs.View.{Fits};
ghost use Rattle.rs_examples.specs.SwappedRows.{AreSwapped, AreSwappedTwice};

use reed_solomon_simd::engine::ShardsRefMut;

/// Swaps rows `pos` and `pos + dist`. All other chunks are unchanged.
pub fn swap_rows(rows: &mut ShardsRefMut<'_>, pos: usize, dist: usize)
    requires fits { Fits rows.old }
    requires apart { 0 < dist }
    requires within { pos + dist < rows.old.shard_count }
    ensures { AreSwapped pos (pos + dist) rows.old rows.new }
{
    swap_two(rows.dist2_mut(pos, dist));
}

// Swaps two rows.
fn swap_two<'a>(lent: (&'a mut [[u8; 64]], &'a mut [[u8; 64]]))
    requires { length lent.0.now ≡ length lent.1.now }
    ensures first { lent.exit.0.now ≡ lent.entry.1.now }
    ensures second { lent.exit.1.0.now ≡ lent.entry.0.now }
{
    let (x, y) = lent;
    x.swap_with_slice(y);
}

/// Swaps rows `pos` and `pos + dist`, and rows `pos + 2 * dist` and `pos + 3 * dist`. All other chunks are unchanged.
pub fn swap_pairs(rows: &mut ShardsRefMut<'_>, pos: usize, dist: usize)
    requires fits { Fits rows.old }
    requires apart { 0 < dist }
    requires within { pos + 3 * dist < rows.old.shard_count }
    ensures { AreSwappedTwice pos (pos + dist) (pos + 2 * dist) (pos + 3 * dist) rows.old rows.new }
{
    swap_four(rows.dist4_mut(pos, dist));
}

// Swaps the first two rows, and the last two rows.
fn swap_four<'a>(
    lent: (
        &'a mut [[u8; 64]],
        &'a mut [[u8; 64]],
        &'a mut [[u8; 64]],
        &'a mut [[u8; 64]],
    ),
)
    requires first { length lent.0.now ≡ length lent.1.now }
    requires second { length lent.2.now ≡ length lent.3.now }
    ensures first { lent.exit.0.now ≡ lent.entry.1.now }
    ensures second { lent.exit.1.0.now ≡ lent.entry.0.now }
    ensures third { lent.exit.1.1.0.now ≡ lent.entry.3.now }
    ensures fourth { lent.exit.1.1.1.0.now ≡ lent.entry.2.now }
{
    let (w, x, y, z) = lent;
    w.swap_with_slice(x);
    y.swap_with_slice(z);
}
