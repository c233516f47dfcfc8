//! A walk over the records of a volume of version 2.
use rs_folders::source::{SECTOR, read_at, read_some};
use rs_volumes::record::{MAGIC, RECORD_HEAD_BYTES, RecordHead, read_record_head};
use std::alloc::{AllocError, Global};
use std::io;
use std::io::{ErrorKind, Read, Seek};

/// The number of bytes that are searched at a time.
const WINDOW: usize = 1 << 18;

/// A record of a volume.
#[derive(Clone, Copy)]
pub struct Record {
    /// The head of the record.
    pub head: RecordHead,
    /// The offset in bytes of the body of the record.
    pub at: u64,
}

impl Record {
    /// Returns the offset in bytes of the end of the body.
    pub fn end(&self) -> u64 {
        self.at.saturating_add(self.head.body_bytes)
    }
}

/// A walk over the records of a file, in order of their offsets. It takes linear time, whatever the file contains.
#[derive(Drop)]
pub struct Walk<F: Drop> {
    /// The file.
    pub file: F,
    /// The number of bytes of the file.
    pub size: u64,
    /// The number of bytes outside of the records that were found.
    pub gap: u64,
    /// The first error of the system, if there was one.
    pub error: Option<io::Error>,
    // The offset from which the next record is searched.
    position: u64,
    // The head at `position`, if it is known.
    ahead: Option<RecordHead>,
    // Bytes of the file that were read.
    window: Vec<u8>,
    // The offset in the file of the first byte of `window`.
    window_at: u64,
    // The end of the bodies that `may_hash` has allowed so far.
    reached: u64,
    // The number of bytes of overlapping bodies that `may_hash` will still allow.
    effort: u64,
}

fn head_of(bytes: &[u8]) -> Option<RecordHead> {
    read_record_head(bytes.first_chunk::<RECORD_HEAD_BYTES>()?).ok()
}

fn find_head(bytes: &[u8]) -> Option<(usize, RecordHead)> {
    for (index, byte) in bytes.iter().enumerate() {
        if *byte == MAGIC[0] {
            if let Some(head) = head_of(bytes.get(index..).unwrap_or(&[])) {
                return Some((index, head));
            }
        }
    }
    None
}

impl<F: Read + Seek + Drop> Walk<F> {
    /// Begins a walk at the first byte of a file of `size` bytes.
    ///
    /// # Errors
    ///
    /// [`AllocError`] if memory cannot be allocated.
    pub fn new(alloc: Global, file: F, size: u64) -> Result<Walk<F>, AllocError> {
        let mut window = Vec::new(alloc);
        window.reserve(WINDOW)?;
        Ok(Walk {
            file,
            size,
            gap: 0,
            error: None,
            position: 0,
            ahead: None,
            window,
            window_at: 0,
            reached: 0,
            effort: size.saturating_mul(2),
        })
    }

    /// Returns the next record, or `None` if there is no further record.
    ///
    /// If the file ends at the end of this record, or if a valid head is there, the walk goes on there. Otherwise the
    /// next record is searched from the body of this record on.
    pub fn next(&mut self) -> Option<Record> {
        let known = self.ahead.take();
        let head = match known {
            Some(head) => head,
            None => self.search()?,
        };
        let record = Record {
            head,
            at: self.position.saturating_add(RECORD_HEAD_BYTES as u64),
        };
        self.position = record.at;
        self.step_to(record.end());
        Some(record)
    }

    /// Goes on at the end of a record. The caller found that the body of this record is right, so no record is searched
    /// in it.
    pub fn pass(&mut self, record: &Record) {
        if self.position < record.end() {
            self.position = record.end();
            self.ahead = self.head_at(self.position);
        }
    }

    /// Returns whether the caller may hash the body of a record. The answer is no if the file ends before the body
    /// does, or if the overlapping bodies that were hashed would have more than twice as many bytes as the file. So a
    /// caller takes linear time.
    pub fn may_hash(&mut self, record: &Record) -> bool {
        if record.end() > self.size {
            return false;
        }
        if record.at < self.reached {
            if record.head.body_bytes > self.effort {
                return false;
            }
            self.effort -= record.head.body_bytes;
        }
        self.reached = self.reached.max(record.end());
        true
    }

    // Goes on at the end of a record, if the file ends there or a valid head is there.
    fn step_to(&mut self, end: u64) {
        if end == self.size {
            self.position = end;
        } else if let Some(head) = self.head_at(end) {
            self.position = end;
            self.ahead = Some(head);
        }
    }

    // Returns the valid head at an offset, or `None` if there is none.
    fn head_at(&mut self, offset: u64) -> Option<RecordHead> {
        if self.size.saturating_sub(offset) < RECORD_HEAD_BYTES as u64 {
            return None;
        }
        let held = self.held(offset);
        if held.len() >= RECORD_HEAD_BYTES {
            return head_of(held);
        }
        let mut bytes = [0u8; RECORD_HEAD_BYTES];
        match read_at(&mut self.file, offset, &mut bytes) {
            Ok(()) => head_of(&bytes),
            Err(error) => {
                self.note(error);
                None
            }
        }
    }

    // Returns the bytes of the window from this offset on. There are none if the offset is outside of the window.
    fn held(&self, offset: u64) -> &[u8] {
        match offset.checked_sub(self.window_at) {
            Some(index) if index < self.window.len() as u64 => {
                self.window.as_slice().get(index as usize..).unwrap_or(&[])
            }
            _ => &[],
        }
    }

    // Returns the next valid head from the position on, and moves the position there.
    fn search(&mut self) -> Option<RecordHead> {
        for _ in 0..u64::MAX {
            if self.position >= self.size {
                return None;
            }
            self.load();
            let found = find_head(self.held(self.position));
            let step = match found {
                Some((index, _)) => index as u64,
                None => self.bytes_without_head(),
            };
            self.position = self.position.saturating_add(step);
            self.gap = self.gap.saturating_add(step);
            if let Some((_, head)) = found {
                return Some(head);
            }
        }
        None
    }

    // Returns how many bytes to skip if the window has no head. A head can begin in the last 63 bytes of the window. So
    // these are skipped only if the file ends there or a read failed there.
    fn bytes_without_head(&self) -> u64 {
        let left = self.size - self.position.min(self.size);
        let held = (self.held(self.position).len() as u64).min(left);
        let overlap = RECORD_HEAD_BYTES as u64 - 1;
        if held == left {
            left
        } else if held > overlap {
            held - overlap
        } else if held > 0 {
            held
        } else {
            (SECTOR - self.position % SECTOR).min(left)
        }
    }

    // Fills the window with the bytes from the position on, unless it has a whole head or the rest of the file already.
    fn load(&mut self) {
        let left = self.size.saturating_sub(self.position);
        let held = self.held(self.position).len() as u64;
        if held == left || held >= RECORD_HEAD_BYTES as u64 {
            return;
        }
        let count = left.min(WINDOW as u64) as usize;
        self.window.clear();
        self.window_at = self.position;
        if self.window.resize(count, 0).is_err() {
            return;
        }
        let (filled, error) = read_some(&mut self.file, self.position, &mut self.window);
        self.window.truncate(filled);
        if let Some(error) = error {
            self.note(error);
        }
    }

    // Keeps the first error. The end of the file is no error of the system.
    fn note(&mut self, error: io::Error) {
        if self.error.is_none() && error.kind() != ErrorKind::UnexpectedEof {
            self.error = Some(error);
        }
    }
}
