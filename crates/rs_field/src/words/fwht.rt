//! The Walsh-Hadamard transform modulo 65535.
ghost use Rattle.std.specs.Prelude.{◌≡◌, ℕ, ◌+◌, ◌*◌, ◌%◌, ◌^◌, ◌<◌, ◌≤◌, length, slice_index};
ghost use Rattle.rs_field.specs.words.Walsh.{IsWalsh, IsFourSums};
ghost use Rattle.rs_field.specs.words.StepBounds.{CountsPairs, WalshCounts};

use super::walsh_lanes::walsh_64;
use super::{GfElement, Steps};

// Returns the sum modulo 65535, where 0 and 65535 both represent zero. The result is the larger of two numbers. The
// first is the sum without its carry, which is right if the sum is at most 65535. The second is the sum less 65535, or
// 0 if the sum is smaller, which is right if the sum is larger than 65535. Without a branch, a loop over entries
// becomes vector code.
#[inline(always)]
pub(crate) fn branchless_add_mod(x: GfElement, y: GfElement) -> GfElement
    ensures { result % 65535 ≡ (x + y) % 65535 }
{
    x.wrapping_add(y).max(x.saturating_sub(!y))
}

// Returns the residue modulo 65535. 0 and 65535 both represent zero.
#[inline(always)]
pub(crate) fn residue(n: u32) -> GfElement
    ensures { result % 65535 ≡ n % 65535 }
{
    branchless_add_mod((n & 0xFFFF) as u16, (n >> 16) as u16)
}

// Returns the difference modulo 65535. 0 and 65535 both represent zero, and 65534 is minus one.
#[inline(always)]
fn sub_mod(x: GfElement, y: GfElement) -> GfElement
    ensures { result % 65535 ≡ (x + 65534 * y) % 65535 }
{
    branchless_add_mod(x, !y)
}

#[inline(always)]
fn pair_sum(steps: &mut Steps, x: GfElement, y: GfElement) -> (GfElement, GfElement)
    ensures sum { result.0 % 65535 ≡ (x + y) % 65535 }
    ensures difference { result.1 % 65535 ≡ (x + 65534 * y) % 65535 }
    ensures counts { CountsPairs 1 steps.old steps.new }
{
    steps.pair_sum();
    (branchless_add_mod(x, y), sub_mod(x, y))
}

// Returns the result of two layers on four entries: first the sums and differences of entries 0 and 1 and of entries 2
// and 3, then the sums and differences of the new entries 0 and 2 and of the new entries 1 and 3.
#[inline(always)]
fn four_sums(steps: &mut Steps, entries: [GfElement; 4]) -> [GfElement; 4]
    ensures values { IsFourSums (slice_index entries 0) (slice_index entries 1)
        (slice_index entries 2) (slice_index entries 3)
        (slice_index result 0) (slice_index result 1)
        (slice_index result 2) (slice_index result 3) }
    ensures counts { CountsPairs 4 steps.old steps.new }
{
    let [a, b, c, d] = entries;
    let (low_sum, low_difference) = pair_sum(steps, a, b);
    let (high_sum, high_difference) = pair_sum(steps, c, d);
    let (first, third) = pair_sum(steps, low_sum, high_sum);
    let (second, fourth) = pair_sum(steps, low_difference, high_difference);
    [first, second, third, fourth]
}

// Does two layers of sums and differences over four quarters, entry by entry. Each entry is loaded and stored once
// instead of twice.
#[inline(always)]
fn quarter_sums(
    steps: &mut Steps,
    x0: &mut [GfElement],
    x1: &mut [GfElement],
    x2: &mut [GfElement],
    x3: &mut [GfElement],
)
    requires one { length x0.old ≡ length x1.old }
    requires two { length x0.old ≡ length x2.old }
    requires three { length x0.old ≡ length x3.old }
    ensures sums { (i : ℕ) → i < length x0.old
        → IsFourSums (slice_index x0.old i) (slice_index x1.old i)
        (slice_index x2.old i) (slice_index x3.old i)
        (slice_index x0.new i) (slice_index x1.new i)
        (slice_index x2.new i) (slice_index x3.new i) }
    ensures counts { CountsPairs (4 * length x0.old) steps.old steps.new }
{
    for i in 0..x0.len() {
        [x0[i], x1[i], x2[i], x3[i]] = four_sums(steps, [x0[i], x1[i], x2[i], x3[i]]);
    }
}

// Does one layer, entry by entry: the first half becomes the sums of both halves, and the second half their
// differences.
#[inline(always)]
fn half_sums(steps: &mut Steps, x0: &mut [GfElement], x1: &mut [GfElement])
    requires { length x0.old ≡ length x1.old }
    ensures sums { (i : ℕ) → i < length x0.old
        → slice_index x0.new i % 65535 ≡ (slice_index x0.old i + slice_index x1.old i) % 65535 }
    ensures differences { (i : ℕ) → i < length x0.old
        → slice_index x1.new i % 65535
        ≡ (slice_index x0.old i + 65534 * slice_index x1.old i) % 65535 }
    ensures counts { CountsPairs (length x0.old) steps.old steps.new }
{
    for i in 0..x0.len() {
        (x0[i], x1[i]) = pair_sum(steps, x0[i], x1[i]);
    }
}

// Transforms four entries. Their quarters are single entries, which are their own transforms.
fn walsh_4(steps: &mut Steps, entries: &mut [GfElement])
    requires { length entries.old ≡ 4 }
    ensures values { IsWalsh 4 (λ y. slice_index entries.old y) (λ w. slice_index entries.new w) }
    ensures counts { CountsPairs 4 steps.old steps.new }
{
    let (low, high) = entries.split_at_mut(2);
    let (x0, x1) = low.split_at_mut(1);
    let (x2, x3) = high.split_at_mut(1);
    quarter_sums(steps, x0, x1, x2, x3);
}

// Transforms eight entries: both halves, and then one layer between them.
fn walsh_8(steps: &mut Steps, entries: &mut [GfElement])
    requires { length entries.old ≡ 8 }
    ensures values { IsWalsh 8 (λ y. slice_index entries.old y) (λ w. slice_index entries.new w) }
    ensures counts { CountsPairs 12 steps.old steps.new }
{
    let (low, high) = entries.split_at_mut(4);
    walsh_4(steps, low);
    walsh_4(steps, high);
    half_sums(steps, low, high);
}

// Transforms 128 entries: both halves in lanes, and then one layer between the halves. For 512 entries the quarters
// have 128 entries, so the transforms of 512, 2048, 8192 and 32768 entries end here.
fn walsh_128(steps: &mut Steps, entries: &mut [GfElement])
    requires { length entries.old ≡ 128 }
    ensures values { IsWalsh 128 (λ y. slice_index entries.old y) (λ w. slice_index entries.new w) }
    ensures counts { CountsPairs 448 steps.old steps.new }
{
    let (low, high) = entries.split_at_mut(64);
    walsh_64(steps, low);
    walsh_64(steps, high);
    half_sums(steps, low, high);
}

/// Computes the Walsh-Hadamard transform modulo 65535: entry w becomes the sum of all entries y, with a minus sign if w
/// and y have an odd number of set bits in common.
///
/// The number n of entries is a power of two and at most 65536, and the entries from `truncated` on are 0. Only the
/// residue of a new entry is fixed: 0 and 65535 both represent zero. At most n / 2 * log2(n) pair sums are counted. The
/// transform is that of Leopard-RS, two layers at a time, quarter by quarter. Few entries are transformed without
/// recursion, because a call would take longer than its sums.
pub fn fwht(steps: &mut Steps, entries: &mut [GfElement], truncated: usize)
    requires power { (d : ℕ) × (length entries.old ≡ 2 ^ d) }
    requires size { length entries.old ≤ 65536 }
    requires zeros { (y : ℕ) → truncated ≤ y → y < length entries.old
        → slice_index entries.old y ≡ 0 }
    ensures values { IsWalsh (length entries.old) (λ y. slice_index entries.old y)
        (λ w. slice_index entries.new w) }
    ensures counts { WalshCounts (length entries.old) steps.old steps.new }
{
    let n = entries.len();
    if n == 64 {
        walsh_64(steps, entries);
    } else if n == 128 {
        walsh_128(steps, entries);
    } else if n == 8 {
        walsh_8(steps, entries);
    } else if n == 4 {
        walsh_4(steps, entries);
    } else if n == 2 {
        let (sum, difference) = pair_sum(steps, entries[0], entries[1]);
        entries[0] = sum;
        entries[1] = difference;
    } else if n > 2 && truncated > 0 {
        let quarter = n / 4;
        let (low, high) = entries.split_at_mut(n / 2);
        let (x0, x1) = low.split_at_mut(quarter);
        let (x2, x3) = high.split_at_mut(quarter);
        fwht(steps, x0, truncated);
        if truncated <= quarter {
            // The other quarters are all zero and need no transform: all sums and all differences are the entries of
            // the first quarter.
            x1.copy_from_slice(x0);
            x2.copy_from_slice(x0);
            x3.copy_from_slice(x0);
        } else {
            fwht(steps, x1, truncated - quarter);
            fwht(steps, x2, truncated.saturating_sub(2 * quarter));
            fwht(steps, x3, truncated.saturating_sub(3 * quarter));
            quarter_sums(steps, x0, x1, x2, x3);
        }
    }
}
