//! The SHA-256 of the bytes of files.
use crate::identity::open_regular;
use rs_volumes::hasher::{ByteHasher, ComputedDigest};
use std::io;
use std::io::{Read, Seek, SeekFrom};
use std::rt::Files;

/// The number of bytes that are read at a time.
pub const CHUNK: usize = 1 << 18;

/// Reads the next `count` bytes of a file, and adds them to a hasher. The bytes are read into `buffer`, part by part.
///
/// # Errors
///
/// Any error of the system. [`std::io::ErrorKind::UnexpectedEof`] if the file has fewer bytes.
pub fn add_bytes<F: Read>(
    hasher: &mut ByteHasher,
    file: &mut F,
    count: u64,
    buffer: &mut [u8],
) -> io::Result<()> {
    let mut left = count;
    for _ in 0..u64::MAX {
        let part = left.min(buffer.len() as u64) as usize;
        if part == 0 {
            break;
        }
        let bytes = &mut buffer[..part];
        file.read_exact(bytes)?;
        hasher.update(bytes);
        left -= part as u64;
    }
    Ok(())
}

/// Adds `count` zero bytes to a hasher.
pub fn add_zeros(hasher: &mut ByteHasher, count: u64) {
    let zeros = [0u8; 4096];
    let mut left = count;
    for _ in 0..u64::MAX {
        if left == 0 {
            return;
        }
        let part = left.min(4096) as usize;
        hasher.update(&zeros[..part]);
        left -= part as u64;
    }
}

/// Returns the SHA-256 of `count` bytes of a file, which begin at byte `offset`. The bytes are read into `buffer`.
///
/// # Errors
///
/// Fails for a reason of [`add_bytes`], or if the file cannot be read from this byte on.
pub fn hash_at<F: Read + Seek>(
    file: &mut F,
    offset: u64,
    count: u64,
    buffer: &mut [u8],
) -> io::Result<ComputedDigest> {
    let mut hasher = ByteHasher::new();
    file.seek(SeekFrom::Start(offset))?;
    add_bytes(&mut hasher, file, count, buffer)?;
    Ok(hasher.finish())
}

/// Returns the SHA-256 of the first `size` bytes of the regular file at a path. `follows` says whether a symbolic link
/// there is followed.
///
/// # Errors
///
/// Fails for a reason of [`open_regular`] or [`hash_at`].
pub fn hash_path<R: Files>(
    rt: &R,
    path: &str,
    follows: bool,
    size: u64,
    buffer: &mut [u8],
) -> io::Result<[u8; 32]> {
    let mut file = open_regular(rt, path, follows)?;
    Ok(hash_at(&mut file, 0, size, buffer)?.bytes)
}
