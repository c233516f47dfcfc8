//! Looks for the blocks of a set in its volumes, and finds what is damaged there.
use crate::assembly::Set;
use crate::first::{Records, block_in, record_at};
use crate::layout::{Deal, LINE_BYTES, Layout, first_line};
use crate::records::{Record, Walk};
use crate::scanner::Scanner;
use crate::volume::{Form, open_sized, part_in};
use rs_folders::failure::Result;
use rs_folders::runs::{is_padded, places_in};
use rs_folders::source::{Origin, read_at};
use rs_volumes::hasher::{ByteHasher, ComputedDigest};
use rs_volumes::placement::Place;
use rs_volumes::record::{BLOCK, PART, RECORD_HEAD_BYTES};
use std::alloc::Global;
use std::io;
use std::io::{Read, Seek, SeekFrom};
use std::rt::{Clock, Files};

/// What is damaged in a volume.
#[derive(Clone, Copy)]
pub struct Damage {
    /// The number of block records that are damaged, missing, or cannot be read.
    pub blocks: u64,
    /// The number of parts of the description that are damaged or missing, counted in all copies.
    pub parts: u64,
    /// Whether something else is wrong. In version 2, this is the line of text, a record of another set, a record that
    /// the volume has more than once, a block of another volume of the set, or bytes outside of all records. In version
    /// 1, it is a head, a copy of the description, or the length.
    pub has_more: bool,
    /// The number of the volume among the volumes of its set, from 0. It is `None` in version 1, and if it is not
    /// known.
    pub number: Option<u64>,
}

impl Damage {
    /// Returns whether nothing is damaged.
    pub fn is_none(&self) -> bool {
        self.blocks == 0 && self.parts == 0 && !self.has_more
    }
}

/// A scan of the volumes of a set.
#[derive(Drop)]
pub struct VolumeScan<'a, R: Files + Clock + Eprint> {
    /// The runtime.
    pub rt: &'a R,
    /// The allocator.
    pub alloc: Global,
    /// The set.
    pub set: &'a Set,
    /// Where the original blocks lie in the files.
    pub places: &'a [Place],
    /// The state of the scan.
    pub scanner: &'a mut Scanner,
}

// What was found in a volume of version 2.
#[derive(Drop)]
struct Found {
    // The index of the volume in the list of paths.
    holder: usize,
    // The number of the volume. The index of any of its blocks determines it, because the blocks are dealt to the
    // volumes in turn. `None` if the volume has no block record.
    number: Option<u64>,
    // For each block of the set, whether the volume has it.
    blocks: Vec<bool>,
    // For each part of the description, the number of its records that are right.
    parts: Vec<u64>,
    // The number of block records whose bodies are wrong.
    wrong_blocks: u64,
    // The number of records of parts whose bodies are wrong.
    wrong_parts: u64,
    // The number of bytes of the records of kinds that this program does not know.
    unknown: u64,
    // Whether the volume has records of other sets, or bytes outside of all records, or another line of text.
    has_others: bool,
    // Memory for the body of a part.
    body: Vec<u8>,
}

impl<'a, R: Files + Clock + Eprint> VolumeScan<'a, R> {
    /// Looks for blocks in a volume, and returns what is damaged there. `holder` is the index of the volume in the list
    /// of paths.
    ///
    /// # Errors
    ///
    /// Fails if the volume cannot be opened, or if memory cannot be allocated.
    pub fn scan(&mut self, path: &str, form: Form, holder: usize) -> Result<Damage> {
        let (mut file, size) = open_sized(self.rt, self.alloc, path)?;
        match form {
            Form::First(_, records) => Ok(self.scan_first(&mut file, size, &records, holder)),
            Form::Second => self.scan_second(Walk::new(self.alloc, file, size)?, holder),
        }
    }

    // Looks for the blocks of a volume of version 1. If the volume is damaged, `records` can include bytes of the
    // second copy of the description and of the last head. These have as many bytes as there are before the first
    // record, so a wrong record that reaches into the last bytes does not count as damage.
    fn scan_first<F: Read + Seek>(
        &mut self,
        file: &mut F,
        size: u64,
        records: &Records,
        holder: usize,
    ) -> Damage {
        let mut damage = Damage {
            blocks: 0,
            parts: 0,
            has_more: !records.is_whole,
            number: None,
        };
        let block_bytes = self.set.description.block_bytes;
        for number in 0..records.count {
            let at = record_at(records, block_bytes, number);
            let end = record_at(records, block_bytes, number.saturating_add(1));
            let offset = end.saturating_sub(block_bytes);
            match block_in(file, at, block_bytes, &mut self.scanner.buffer) {
                Ok((index, own)) if self.is_block(index, &own, holder, offset) => {}
                Ok(_) if end > size.saturating_sub(records.at) => {}
                Ok(_) => damage.blocks = damage.blocks.saturating_add(1),
                Err(error) => {
                    damage.blocks = damage.blocks.saturating_add(1);
                    self.scanner.note_unread(error);
                }
            }
            self.scanner.progress.advance(self.rt, block_bytes);
        }
        damage
    }

    fn scan_second<F: Read + Seek + Drop>(
        &mut self,
        mut walk: Walk<F>,
        holder: usize,
    ) -> Result<Damage> {
        let mut found = Found {
            holder,
            number: None,
            blocks: vec![in self.alloc; false; self.scanner.block_count()]?,
            parts: vec![in self.alloc; 0; self.layout(0).parts() as usize]?,
            wrong_blocks: 0,
            wrong_parts: 0,
            unknown: 0,
            has_others: false,
            body: Vec::new(self.alloc),
        };
        let mut done = 0;
        for _ in 0..u64::MAX {
            let Some(record) = walk.next() else {
                break;
            };
            self.scan_record(&mut walk, &record, &mut found);
            let end = record.end().min(walk.size);
            self.scanner
                .progress
                .advance(self.rt, end.saturating_sub(done));
            done = end.max(done);
        }
        if let Some(error) = walk.error.take() {
            self.scanner.note_error(error);
        }
        if !self.has_line(&mut walk)? || walk.gap != LINE_BYTES as u64 {
            found.has_others = true;
        }
        Ok(self.damage_of(&found, walk.size))
    }

    fn has_line<F: Read + Seek + Drop>(&self, walk: &mut Walk<F>) -> Result<bool> {
        let mut front = [0u8; LINE_BYTES];
        let line = first_line(self.alloc)?;
        Ok(read_at(&mut walk.file, 0, &mut front).is_ok() && front.as_slice() == line.as_slice())
    }

    fn scan_record<F: Read + Seek + Drop>(
        &mut self,
        walk: &mut Walk<F>,
        record: &Record,
        found: &mut Found,
    ) {
        if record.head.set != self.set.digest {
            found.has_others = true;
        } else if record.head.kind == BLOCK {
            self.scan_block(walk, record, found);
        } else if record.head.kind == PART {
            self.scan_part(walk, record, found);
        } else {
            // A later version of the program can write records of other kinds, so these are not damage.
            let bytes = record
                .head
                .body_bytes
                .saturating_add(RECORD_HEAD_BYTES as u64);
            found.unknown = found.unknown.saturating_add(bytes);
        }
    }

    fn scan_part<F: Read + Seek + Drop>(
        &mut self,
        walk: &mut Walk<F>,
        record: &Record,
        found: &mut Found,
    ) {
        let is_right = match part_in(walk, record, &mut found.body) {
            Some(part) => part.total == self.set.description_bytes,
            None => false,
        };
        match found.parts.get_mut(record.head.index as usize) {
            Some(count) if is_right => *count = count.saturating_add(1),
            _ => found.wrong_parts = found.wrong_parts.saturating_add(1),
        }
    }

    fn scan_block<F: Read + Seek + Drop>(
        &mut self,
        walk: &mut Walk<F>,
        record: &Record,
        found: &mut Found,
    ) {
        let index = record.head.index as usize;
        if found.number.is_none() {
            if let Some((volume, _)) = self.deal().record_of(u64::from(record.head.index)) {
                found.number = Some(volume);
            }
        }
        let own = if self.can_be_block(record) && walk.may_hash(record) {
            self.hash_block(&mut walk.file, record)
        } else {
            Ok(None)
        };
        match own {
            Ok(Some(own)) if self.is_block(index, &own, found.holder, record.at) => {
                walk.pass(record);
                if let Some(here) = found.blocks.get_mut(index) {
                    *here = true;
                }
                return;
            }
            Ok(_) => {}
            Err(error) => self.scanner.note_unread(error),
        }
        found.wrong_blocks = found.wrong_blocks.saturating_add(1);
    }

    // Returns whether `own` is the digest of the block with this index. If it is, the function notes where the block
    // is.
    fn is_block(&mut self, index: usize, own: &ComputedDigest, holder: usize, offset: u64) -> bool {
        let origin = Origin::Volume { holder, offset };
        self.scanner.found.note(index, own, origin)
    }

    fn deal(&self) -> Deal {
        let description = &self.set.description;
        Deal::of(
            description.original_count,
            description.recovery_count,
            description.volumes,
        )
    }

    fn can_be_block(&self, record: &Record) -> bool {
        record.head.body_bytes == self.set.description.block_bytes
            && (record.head.index as usize) < self.scanner.block_count()
    }

    // Returns the digest of the block in a record, or `None` if a byte of the block that is in no file is not zero.
    fn hash_block<F: Read + Seek>(
        &mut self,
        file: &mut F,
        record: &Record,
    ) -> io::Result<Option<ComputedDigest>> {
        let mut hasher = ByteHasher::new();
        let index = record.head.index;
        let is_original = index < self.set.description.original_count;
        let places = places_in(self.places, index as usize);
        let buffer = &mut self.scanner.buffer;
        let mut start = 0u64;
        file.seek(SeekFrom::Start(record.at))?;
        for _ in 0..u64::MAX {
            let left = record.head.body_bytes.saturating_sub(start);
            let part = left.min(buffer.len() as u64) as usize;
            if part == 0 {
                break;
            }
            let bytes = &mut buffer[..part];
            file.read_exact(bytes)?;
            if is_original && !is_padded(places, start, bytes) {
                return Ok(None);
            }
            hasher.update(bytes);
            start = start.saturating_add(part as u64);
        }
        Ok(Some(hasher.finish()))
    }

    // Returns where the records are in the whole volume with this number that this program writes.
    fn layout(&self, number: u64) -> Layout {
        Layout {
            blocks: self.deal().blocks_in(number),
            block_bytes: self.set.description.block_bytes,
            description_bytes: self.set.description_bytes,
        }
    }

    // Returns the damage of a volume of `size` bytes, compared with the whole volume that this program writes. If it
    // has more bytes than its records, apart from those of unknown kinds, it has a record twice, or a block of another
    // volume.
    fn damage_of(&self, found: &Found, size: u64) -> Damage {
        let deal = self.deal();
        // A volume without a block record counts as the last volume of the set, which has the fewest blocks.
        let number = found.number.unwrap_or(deal.volumes.saturating_sub(1));
        let layout = self.layout(number);
        let blocks = missing_blocks(found.blocks.as_slice(), deal, number);
        let parts = missing_parts(found.parts.as_slice(), layout.copies());
        Damage {
            blocks: blocks.max(found.wrong_blocks),
            parts: parts.max(found.wrong_parts),
            has_more: found.has_others || size > layout.size().saturating_add(found.unknown),
            number: match deal.volumes {
                1 => Some(0),
                _ => found.number,
            },
        }
    }
}

// Returns how many blocks of the volume with this number are missing. `blocks` says for each block of the set whether
// the volume has it.
fn missing_blocks(blocks: &[bool], deal: Deal, number: u64) -> u64 {
    let mut missing = 0u64;
    for (index, here) in blocks.iter().enumerate() {
        let record = deal.record_of(index as u64);
        let is_expected = matches!(record, Some((volume, _)) if volume == number);
        if is_expected && !*here {
            missing = missing.saturating_add(1);
        }
    }
    missing
}

// Returns how many parts are missing in a volume with this number of copies of the description. `parts` has the number
// of right records of each part. A part that is there too often does not make up for another one.
fn missing_parts(parts: &[u64], copies: u64) -> u64 {
    let mut missing = 0u64;
    for count in parts {
        missing = missing.saturating_add(copies.saturating_sub(*count));
    }
    missing
}
