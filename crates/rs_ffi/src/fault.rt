//! The reasons why a call from C fails, and their numbers.
use crate::layouts::named;
use reed_solomon_simd::ShardIndex;
use rs_field::error::Error;

/// The reason why a call failed.
#[derive(Clone, Copy, Debug, PartialEq, Eq, Hash)]
pub enum Fault {
    /// The library refused the counts or the shards, or could not allocate memory. The value is the error of the
    /// library.
    Refused(Error),
    /// A shard of an array has another size than the first one.
    DifferentShardSize {
        /// The size that all shards must have, in bytes.
        shard_bytes: usize,
        /// The size of the shard, in bytes.
        got: usize,
        /// The place of the shard in the array of originals, counted from 0. If it is a recovery shard, this is the
        /// number of entries of that array, plus the place in the array of recovery shards.
        place: usize,
    },
    /// A buffer does not have the length that the counts and the size require, or a room does not have the size of its
    /// shard.
    WrongLength {
        /// The right length, in bytes.
        wanted: usize,
        /// The length of the buffer or of the room, in bytes.
        got: usize,
        /// The buffer: 0 for originals, 1 for recovery shards, 2 for marks. For a room, this is its place in the array
        /// of rooms, counted from 0.
        place: usize,
    },
    /// The number of rooms is not the number of shards to write.
    WrongNumberOfRooms {
        /// The number of shards to write.
        wanted: usize,
        /// The number of rooms.
        got: usize,
    },
    /// The tables do not have the stamp that `rs_tables_make` writes.
    TablesNotMade,
    /// The index of a wanted shard is not below the number of shards of its kind.
    WantedIndexTooLarge {
        /// The wanted shard.
        wanted: ShardIndex,
        /// The number of shards of its kind.
        count: usize,
    },
    /// A shard is wanted twice.
    WantedTwice {
        /// The wanted shard.
        wanted: ShardIndex,
    },
    /// A wanted shard was received.
    WantedReceived {
        /// The wanted shard.
        wanted: ShardIndex,
    },
}

/// Converts an error of the library into a fault.
impl From<Error> for Fault {
    ghost use Rattle.std.specs.Prelude.{◌≡◌};
    ghost use Rattle.rs_ffi.specs.declared.fault.Fault.TheVariants.{Refused as refused};

    ghost from_gives = { λ error result. result ≡ refused error };

    fn from(error: Error) -> Fault {
        Fault::Refused(error)
    }
}

/// A fault as a program in C reads it. It is `struct rs_fault` of the header.
#[repr(C)]
#[derive(Clone, Copy, Debug, PartialEq, Eq, Hash)]
pub struct RsFault {
    /// The number of the fault, from 1 to 18, or 0 if there is none.
    pub number: u32,
    /// The first value of the fault: a count, an index, or a size in bytes. It is 0 if the fault has no values.
    pub first: usize,
    /// The second value of the fault, or 0 if the fault has fewer values.
    pub second: usize,
    /// The third value of the fault, or 0 if the fault has fewer values.
    pub third: usize,
}

impl RsFault {
    ghost use Rattle.std.specs.Prelude.{◌≡◌, Err};
    ghost use Rattle.reed_solomon_simd.specs.ShardNames.{index_of};
    ghost use Rattle.rs_ffi.specs.Faults.{fault_of, kind_of, numbers, numbers_of};
    ghost use Rattle.rs_ffi.specs.Texts.{shard_refusal_with, refusal_with, wanted_fault_with, fault_with};

    fn new(number: u32, first: usize, second: usize, third: usize) -> RsFault
        ensures { result ≡ numbers number first second third }
    {
        RsFault {
            number,
            first,
            second,
            third,
        }
    }

    /// Returns the fault of a result. All its numbers are 0 if the result is a success.
    pub fn of(answer: Result<(), Fault>) -> RsFault
        ensures { result ≡ fault_of answer }
    {
        match answer {
            Ok(()) => RsFault::new(0, 0, 0, 0),
            Err(Fault::Refused(error)) => RsFault::of_refusal(error),
            Err(
                Fault::DifferentShardSize {
                    shard_bytes,
                    got,
                    place,
                },
            ) => RsFault::new(4, shard_bytes, got, place),
            Err(Fault::WrongLength { wanted, got, place }) => RsFault::new(13, wanted, got, place),
            Err(Fault::WrongNumberOfRooms { wanted, got }) => RsFault::new(14, wanted, got, 0),
            Err(Fault::TablesNotMade) => RsFault::new(15, 0, 0, 0),
            Err(Fault::WantedIndexTooLarge { wanted, count }) => {
                let (kind, index) = RsFault::name_of(wanted);
                RsFault::new(16, count, index, kind)
            }
            Err(Fault::WantedTwice { wanted }) => {
                let (kind, index) = RsFault::name_of(wanted);
                RsFault::new(17, index, kind, 0)
            }
            Err(Fault::WantedReceived { wanted }) => {
                let (kind, index) = RsFault::name_of(wanted);
                RsFault::new(18, index, kind, 0)
            }
        }
    }

    fn name_of(shard: ShardIndex) -> (usize, usize)
        ensures { (result.0 ≡ kind_of shard) × (result.1 ≡ index_of shard) }
    {
        match shard {
            ShardIndex::Original(index) => (0, index),
            ShardIndex::Recovery(index) => (1, index),
        }
    }

    fn of_refusal(error: Error) -> RsFault
        ensures { result ≡ numbers_of error }
    {
        let (first, second, third) = RsFault::counts_of(error);
        RsFault::new(RsFault::number_of(error), first, second, third)
    }

    fn number_of(error: Error) -> u32
        ensures { result ≡ (numbers_of error).number }
    {
        match error {
            Error::OutOfMemory => 1,
            Error::UnsupportedShardCount { .. } => 2,
            Error::InvalidShardSize { .. } => 3,
            Error::DifferentShardSize { .. } => 4,
            Error::TooFewOriginalShards { .. } => 5,
            Error::TooManyOriginalShards { .. } => 6,
            Error::NotEnoughShards { .. } => 7,
            Error::InvalidOriginalShardIndex { .. } => 8,
            Error::InvalidRecoveryShardIndex { .. } => 9,
            Error::DuplicateOriginalShardIndex { .. } => 10,
            Error::DuplicateRecoveryShardIndex { .. } => 11,
            Error::InconsistentShards { .. } => 12,
        }
    }

    fn counts_of(error: Error) -> (usize, usize, usize)
        ensures { let n = numbers_of error in
            (result.0 ≡ n.first) × (result.1 ≡ n.second) × (result.2 ≡ n.third) }
    {
        match error {
            Error::OutOfMemory => (0, 0, 0),
            Error::UnsupportedShardCount {
                original_count,
                recovery_count,
            } => (original_count, recovery_count, 0),
            Error::InvalidShardSize { shard_bytes } => (shard_bytes, 0, 0),
            Error::DifferentShardSize { shard_bytes, got } => (shard_bytes, got, 0),
            Error::TooFewOriginalShards {
                original_count,
                original_received_count,
            } => (original_count, original_received_count, 0),
            Error::TooManyOriginalShards { original_count } => (original_count, 0, 0),
            Error::NotEnoughShards {
                original_count,
                original_received_count: originals,
                recovery_received_count: recovery,
            } => (original_count, originals, recovery),
            Error::InvalidOriginalShardIndex {
                original_count: count,
                index,
            }
            | Error::InvalidRecoveryShardIndex {
                recovery_count: count,
                index,
            } => (count, index, 0),
            Error::DuplicateOriginalShardIndex { index }
            | Error::DuplicateRecoveryShardIndex { index } => (index, 0, 0),
            Error::InconsistentShards {
                original_received_count,
                recovery_received_count,
            } => (original_received_count, recovery_received_count, 0),
        }
    }

    // Reads what `RsFault::of` wrote. The place of a shard of a wrong size is left out: the text of a fault does not
    // have it.
    pub(crate) fn read(self) -> Option<Fault>
        ensures { result ≡ fault_with self }
    {
        let (first, second) = (self.first, self.second);
        if self.number >= 16 {
            return self.read_wanted();
        }
        match self.number {
            13 => Some(Fault::WrongLength {
                wanted: first,
                got: second,
                place: self.third,
            }),
            14 => Some(Fault::WrongNumberOfRooms {
                wanted: first,
                got: second,
            }),
            15 => Some(Fault::TablesNotMade),
            _ => match self.read_refusal() {
                Some(error) => Some(Fault::Refused(error)),
                None => None,
            },
        }
    }

    fn read_wanted(self) -> Option<Fault>
        ensures { result ≡ wanted_fault_with self }
    {
        match self.number {
            16 => Some(Fault::WantedIndexTooLarge {
                wanted: named(self.third, self.second),
                count: self.first,
            }),
            17 => Some(Fault::WantedTwice {
                wanted: named(self.second, self.first),
            }),
            18 => Some(Fault::WantedReceived {
                wanted: named(self.second, self.first),
            }),
            _ => None,
        }
    }

    fn read_refusal(self) -> Option<Error>
        ensures { result ≡ refusal_with self }
    {
        let (first, second) = (self.first, self.second);
        match self.number {
            1 => Some(Error::OutOfMemory),
            2 => Some(Error::UnsupportedShardCount {
                original_count: first,
                recovery_count: second,
            }),
            3 => Some(Error::InvalidShardSize { shard_bytes: first }),
            4 => Some(Error::DifferentShardSize {
                shard_bytes: first,
                got: second,
            }),
            5 => Some(Error::TooFewOriginalShards {
                original_count: first,
                original_received_count: second,
            }),
            6 => Some(Error::TooManyOriginalShards {
                original_count: first,
            }),
            7 => Some(Error::NotEnoughShards {
                original_count: first,
                original_received_count: second,
                recovery_received_count: self.third,
            }),
            _ => self.read_shard_refusal(),
        }
    }

    fn read_shard_refusal(self) -> Option<Error>
        ensures { result ≡ shard_refusal_with self }
    {
        let (first, second) = (self.first, self.second);
        match self.number {
            8 => Some(Error::InvalidOriginalShardIndex {
                original_count: first,
                index: second,
            }),
            9 => Some(Error::InvalidRecoveryShardIndex {
                recovery_count: first,
                index: second,
            }),
            10 => Some(Error::DuplicateOriginalShardIndex { index: first }),
            11 => Some(Error::DuplicateRecoveryShardIndex { index: first }),
            12 => Some(Error::InconsistentShards {
                original_received_count: first,
                recovery_received_count: second,
            }),
            _ => None,
        }
    }
}
