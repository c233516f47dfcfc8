//! Reads numbers and bytes from the front of bytes.
ghost use Rattle.std.specs.Prelude.{◌≡◌, ◌≤◌, length};
ghost use Rattle.std.specs.Int.{w16, w32, w64};
ghost use Rattle.rs_volumes.specs.Reading.{Reads, number_at, fixed_at, taken_at, name_at, magic_at};

use crate::fault::Fault;

/// Reads a number of two bytes, and returns the number and the remaining bytes.
pub fn u16_at(bytes: &[u8]) -> Result<(u16, &[u8]), Fault>
    ensures { Reads (λ x. (x.0, x.1.now)) result (number_at w16 bytes.now) }
{
    if bytes.len() < 2 {
        return Err(Fault::Short);
    }
    let (front, rest) = bytes.split_at(2);
    let number = u16::from_le_bytes([front[0], front[1]]);
    Ok((number, rest))
}

/// Reads a number of four bytes, and returns the number and the remaining bytes.
pub fn u32_at(bytes: &[u8]) -> Result<(u32, &[u8]), Fault>
    ensures { Reads (λ x. (x.0, x.1.now)) result (number_at w32 bytes.now) }
{
    if bytes.len() < 4 {
        return Err(Fault::Short);
    }
    let (front, rest) = bytes.split_at(4);
    let number = u32::from_le_bytes([front[0], front[1], front[2], front[3]]);
    Ok((number, rest))
}

/// Reads a number of eight bytes, and returns the number and the remaining bytes.
pub fn u64_at(bytes: &[u8]) -> Result<(u64, &[u8]), Fault>
    ensures { Reads (λ x. (x.0, x.1.now)) result (number_at w64 bytes.now) }
{
    if bytes.len() < 8 {
        return Err(Fault::Short);
    }
    let (front, rest) = bytes.split_at(8);
    let number = u64::from_le_bytes([
        front[0], front[1], front[2], front[3], front[4], front[5], front[6], front[7],
    ]);
    Ok((number, rest))
}

/// Reads a number of four bytes, and returns the remaining bytes. Fails with `fault` if the number is not `wanted`.
#[tactic(auto, unfolding(crate::specs::Reading::fixed_at))]
pub fn fixed_of(wanted: u32, fault: Fault, bytes: &[u8]) -> Result<&[u8], Fault>
    ensures { Reads (λ x. x.now) result (fixed_at wanted fault bytes.now) }
{
    let (number, rest) = u32_at(bytes)?;
    if number != wanted {
        return Err(fault);
    }
    Ok(rest)
}

/// Returns the first `count` bytes and the remaining bytes.
#[tactic(auto, unfolding(crate::specs::Reading::taken_at))]
pub fn taken_of(count: usize, bytes: &[u8]) -> Result<(&[u8], &[u8]), Fault>
    ensures { Reads (λ x. (x.0.now, x.1.now)) result (taken_at count bytes.now) }
{
    if bytes.len() < count {
        return Err(Fault::Short);
    }
    Ok(bytes.split_at(count))
}

/// Reads a length of two bytes and then as many bytes, and returns these bytes and the remaining bytes.
#[tactic(auto, unfolding(crate::specs::Reading::name_at))]
pub fn name_of(bytes: &[u8]) -> Result<(&[u8], &[u8]), Fault>
    ensures { Reads (λ x. (x.0.now, x.1.now)) result (name_at bytes.now) }
{
    let (len, rest) = u16_at(bytes)?;
    taken_of(len as usize, rest)
}

/// Returns 32 bytes as an array.
pub fn digest_in(bytes: &[u8]) -> [u8; 32]
    requires { length bytes.now ≡ 32 }
    ensures { result ≡ bytes.now }
{
    let mut digest = [0u8; 32];
    digest.copy_from_slice(bytes);
    digest
}

/// Reads a digest of 32 bytes, and returns the digest and the remaining bytes.
#[tactic(auto, unfolding(crate::specs::Reading::taken_at))]
pub fn digest_at(bytes: &[u8]) -> Result<([u8; 32], &[u8]), Fault>
    ensures { Reads (λ x. (x.0, x.1.now)) result (taken_at 32 bytes.now) }
{
    if bytes.len() < 32 {
        return Err(Fault::Short);
    }
    let (front, rest) = bytes.split_at(32);
    Ok((digest_in(front), rest))
}

/// Reads a magic number, and returns the remaining bytes.
#[tactic(auto, unfolding(crate::specs::Reading::magic_at))]
pub fn magic_of<'a>(magic: &[u8; 8], bytes: &'a [u8]) -> Result<&'a [u8], Fault>
    requires { 8 ≤ length bytes.now }
    ensures { Reads (λ x. x.now) result (magic_at magic.now bytes.now) }
{
    let (front, rest) = bytes.split_at(8);
    if front != magic.as_slice() {
        return Err(Fault::Magic);
    }
    Ok(rest)
}
