//! The trait of the levels of use, so that each action of a case is written once for all levels.
use crate::cases::{Configuration, Object, Role, Shard};
use crate::kept::{Kept, Works};
use reed_solomon_simd::Error;

/// The result of a call of the library: success or its error.
pub type Answer = Result<(), Error>;

/// An encoder and a decoder of one level of use. A case can call each method at this level.
pub trait Level {
    /// Makes a new object if there are `works`, and otherwise resets the object. If `works` holds the memory of an
    /// earlier object, the new object uses this memory.
    ///
    /// # Errors
    ///
    /// The error of the library.
    fn obtain(
        &mut self,
        object: Object,
        configuration: Configuration,
        works: Option<&mut Works>,
    ) -> Answer;

    /// Gives a shard to the encoder or the decoder. The index of an original for the encoder is ignored. If there is no
    /// shard, the iterator for this role ends once at this place, and continues if `next` is called again. A level that
    /// passes no iterators then does nothing.
    ///
    /// # Errors
    ///
    /// The error of the library, or [`Error::OutOfMemory`] if a copy of the shard cannot be allocated.
    fn give(&mut self, role: &Role, shard: Option<&Shard>) -> Answer;

    /// With an encoder, encodes the originals that were given, and keeps the recovery shards. With a decoder, restores
    /// the missing originals, and keeps them.
    ///
    /// # Errors
    ///
    /// The error of the library. Also fails if memory for the results cannot be allocated, or if the call did something
    /// else than its documentation says. The text then says what.
    fn run(&mut self, object: Object, kept: &mut Kept) -> anyhow::Result<()>;

    /// Takes both objects apart, and makes new objects for one original and one recovery shard. A level whose objects
    /// cannot be taken apart does nothing.
    ///
    /// # Errors
    ///
    /// [`Error::OutOfMemory`] if the new objects cannot be allocated.
    fn take_works(&mut self, _works: &mut Works) -> Answer {
        Ok(())
    }

    /// Returns whether `supports`, `validate` and `new` of the objects return the same result as a new object did.
    /// Returns false if the level has none of these calls.
    fn tells(&self, _configuration: Configuration, _answer: Answer) -> bool {
        false
    }
}
