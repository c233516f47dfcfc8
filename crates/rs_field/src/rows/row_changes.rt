//! Changes of rows, by any engine.
ghost use Rattle.std.specs.Prelude.{◌≡◌, ◌≢◌, ◌⊎◌, ℕ, ◌*◌, ◌<◌, ◌≤◌, length, bit_xor};
ghost use Rattle.rs_field.specs.rows.Changed.{AreChanged, change_word};
ghost use Rattle.rs_field.specs.words.StepBounds.{ChangeCounts};
ghost use Rattle.rs_field.specs.words.Tables.{times_factor};

use super::changing::{Change, ChangeRows};
use super::engine::Engine;
use crate::words::{GfElement, Steps};

// Adds a change, times a factor, to a row, chunk by chunk.
fn change_row<E: Engine, R: ChangeRows>(
    engine: &E,
    steps: &mut Steps,
    rows: &mut R,
    row: usize,
    change: Change<'_>,
    log_m: GfElement,
)
    requires has { (k : ℕ) → k < length change.old.now → R.has (R.kept rows.old) row k }
    ensures here { (k s : ℕ) → k < length change.entry.old.now → s < 32
        → R.word rows.new k s row
        ≡ bit_xor (R.word rows.old k s row) (times_factor log_m (change_word change.entry k s)) }
    ensures others { (k s i : ℕ) → s < 32 → (length change.entry.old.now ≤ k) ⊎ (i ≢ row)
        → R.word rows.new k s i ≡ R.word rows.old k s i }
    ensures kept { R.kept rows.new ≡ R.kept rows.old }
    ensures counts { ChangeCounts (length change.entry.old.now) steps.old steps.new }
{
    for k in 0..change.old.len() {
        let mut sum = [rows.chunk(row, k)];
        engine.mul_add(steps, &mut sum, &[change.chunk(k)], log_m);
        rows.put_chunk(row, k, &sum[0]);
    }
}

/// Adds a change of at least one chunk to each row, times a factor of its own. `logs` has the logarithm of each factor.
///
/// If the engine has no loops of its own for this, the rows are changed one after the other with
/// [`mul_add`](Engine::mul_add), chunk by chunk.
pub fn change_rows<E: Engine, R: ChangeRows>(
    engine: &E,
    steps: &mut Steps,
    rows: &mut R,
    change: Change<'_>,
    logs: &[GfElement],
)
    requires has { (i k : ℕ) → i < length logs.now → k < length change.old.now
        → R.has (R.kept rows.old) i k }
    requires some { 0 < length change.old.now }
    ensures changed { AreChanged change.entry logs.now (R.word rows.old) (R.word rows.new) }
    ensures kept { R.kept rows.new ≡ R.kept rows.old }
    ensures counts { ChangeCounts (length logs.now * length change.entry.old.now)
        steps.old steps.new }
{
    if engine.add_change(steps, rows, change, logs) {
        return;
    }
    for row in 0..logs.len() {
        change_row(engine, steps, rows, row, change, logs[row]);
    }
}
