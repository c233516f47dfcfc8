//! The description of a set: its entries, its blocks, and the digest of each block.

/// What an entry of a set is.
#[derive(Clone, Copy, Debug, PartialEq, Eq)]
pub enum Kind {
    /// A file, whose bytes are in the blocks.
    File,
    /// A symbolic link.
    Link,
    /// A folder without entries.
    Folder,
}

/// The version of the format of a description.
#[derive(Clone, Copy, Debug, PartialEq, Eq)]
pub enum Version {
    /// Version 1: each file begins at a block. This version is only read.
    First,
    /// Version 2: each file begins at a multiple of 64 bytes.
    Second,
}

/// An entry of a set: a file, a symbolic link or an empty folder.
#[derive(Debug, Drop)]
pub struct Entry {
    /// What the entry is. In version 1 each entry is a file.
    pub kind: Kind,
    /// The permission bits, in the lowest 12 bits. In version 1 the other bits are not checked.
    pub mode: u32,
    /// The length of the file in bytes. It is 0 for a link or a folder.
    pub size: u64,
    /// The time of the last change, in seconds since 1970. It is a signed number in two's complement.
    pub seconds: u64,
    /// The nanoseconds of this time. In version 1 they are 0.
    pub nanoseconds: u32,
    /// The name: relative, with `/` between its parts. In version 1 it is UTF-8.
    pub name: Vec<u8>,
    /// The target of a link. It is empty for a file or a folder.
    pub target: Vec<u8>,
    /// The SHA-256 of the bytes of a file. It is 32 zeros for a link or a folder, and in version 1.
    pub digest: [u8; 32],
}

/// The kind of the field with the name and the version of the program that wrote the set, as text.
pub const CREATOR: u32 = 1;

/// A field of a description: something about the whole set. A reader may skip it if its kind is below 2^31.
#[derive(Debug, Drop)]
pub struct Field {
    /// What the field holds.
    pub kind: u32,
    /// The bytes of the field.
    pub bytes: Vec<u8>,
}

/// The description of a set.
///
/// The bytes of the files lie one file after another in the data of the set. In version 2 each file begins at a
/// multiple of 64 bytes, and in version 1 at a multiple of the block size. Between the files are zeros. A file without
/// bytes does not move the next file. The data is cut into blocks of `block_bytes` bytes, and the last block is padded
/// with zeros.
#[derive(Debug, Drop)]
pub struct Description {
    /// The version of the format.
    pub version: Version,
    /// The size of a block in bytes: even, and above zero.
    pub block_bytes: u64,
    /// The number of original blocks, k.
    pub original_count: u32,
    /// The number of recovery blocks, r.
    pub recovery_count: u32,
    /// The number of volumes that were written. In version 1 it is 0.
    pub volumes: u32,
    /// The fields. Version 1 has none.
    pub fields: Vec<Field>,
    /// The entries, in strictly increasing order of their names.
    pub entries: Vec<Entry>,
    /// The SHA-256 of each block, 32 bytes each: first the original blocks, then the recovery blocks.
    pub digests: Vec<u8>,
    /// The sums of each original block, 8 bytes each. Version 1 has none.
    pub sums: Vec<u8>,
}
