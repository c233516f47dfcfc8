//! The check of the length of a buffer.
ghost use Rattle.std.specs.Prelude.{◌≡◌};
ghost use Rattle.rs_ffi.specs.Buffers.{length_outcome};

use crate::fault::Fault;

/// Checks that a buffer of `got` bytes holds exactly `count` shards of `size` bytes. `place` says which buffer it is.
///
/// # Errors
///
/// [`Fault::WrongLength`] if the buffer has another length. If `count * size` exceeds `usize::MAX`, the fault holds
/// `usize::MAX` as the right length.
pub fn check_length(place: usize, count: usize, size: usize, got: usize) -> Result<(), Fault>
    ensures { result ≡ length_outcome place count size got }
{
    match count.checked_mul(size) {
        Some(wanted) if wanted == got => Ok(()),
        Some(wanted) => Err(Fault::WrongLength { wanted, got, place }),
        None => Err(Fault::WrongLength {
            wanted: usize::MAX,
            got,
            place,
        }),
    }
}
