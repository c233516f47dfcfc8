//! The chunks of bytes: chunk k is the 64 bytes from byte 64 k on.
ghost use Rattle.std.specs.Prelude.{◌≡◌, ℕ, ◌+◌, ◌*◌, ◌<◌, ◌≤◌, ◌≢◌, length, drop};
ghost use Rattle.rs_field.specs.rows.Rows.{byte_symbol, symbol};

/// Returns chunk `k` of bytes.
#[inline(always)]
pub fn chunk_at(bytes: &[u8], k: usize) -> [u8; 64]
    requires { k * 64 + 64 ≤ length bytes.now }
    ensures { (s : ℕ) → s < 32 → symbol result s ≡ byte_symbol bytes.now k s }
{
    let mut chunk = [0; 64];
    chunk.copy_from_slice(&bytes[k * 64..k * 64 + 64]);
    chunk
}

/// Writes chunk `k` of bytes. The other bytes are unchanged.
#[inline(always)]
pub fn put_chunk(bytes: &mut [u8], k: usize, chunk: &[u8; 64])
    requires { k * 64 + 64 ≤ length bytes.old }
    ensures length { length bytes.new ≡ length bytes.old }
    ensures value { (s : ℕ) → s < 32 → byte_symbol bytes.new k s ≡ symbol chunk.now s }
    ensures others { (j s : ℕ) → s < 32 → j ≢ k
        → byte_symbol bytes.new j s ≡ byte_symbol bytes.old j s }
    ensures rest { (n : ℕ) → k < n → drop (n * 64) bytes.new ≡ drop (n * 64) bytes.old }
{
    bytes[k * 64..k * 64 + 64].copy_from_slice(chunk);
}
