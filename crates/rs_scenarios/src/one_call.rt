//! The levels of the one-call functions. A level collects the shards, and passes them when the call is made.
ghost use Rattle.std.specs.Prelude.{length};
ghost use Rattle.std.specs.Iterator.{at_most};

use crate::cases::{Configuration, Form, Left, Object, Role, Shard};
use crate::kept::{Kept, Works};
use crate::lending::{lent, lent_items, missing};
use crate::level::{Answer, Level};
use crate::watch::Watch;
use crate::{further, rooms};
use anyhow::Result;
use reed_solomon_simd::engine::DefaultEngine;
use reed_solomon_simd::{decode, decode_slice, encode, encode_slice, verify};
use std::alloc::Global;
use std::collections::BTreeMap;

/// The one-call functions, with the counts and the shards for the next call.
#[derive(Drop)]
pub struct OneCall<'t> {
    alloc: Global,
    engine: DefaultEngine<'t>,
    /// The form of the next call.
    pub form: &'static Form,
    // The counts of originals and of recovery shards.
    counts: (usize, usize),
    // The items of the three iterators. `None` is a place at which an iterator ends once.
    next: Vec<Option<Shard>>,
    original: Vec<Option<Shard>>,
    recovery: Vec<Option<Shard>>,
}

impl<'t> OneCall<'t> {
    /// Returns a level to which no shard was given.
    pub fn new(alloc: Global, engine: DefaultEngine<'t>) -> OneCall<'t> {
        OneCall {
            alloc,
            engine,
            form: &Form::Iterators,
            counts: (1, 1),
            next: Vec::new(alloc),
            original: Vec::new(alloc),
            recovery: Vec::new(alloc),
        }
    }

    // Encodes the given originals in the form of this level. Sets `left` to the number of originals that a call with an
    // iterator has not taken.
    fn encode(&self, left: &mut Left) -> Result<Vec<Vec<u8>>> {
        let (alloc, (k, r), engine) = (self.alloc, self.counts, self.engine);
        let shards = lent(alloc, &self.next)?;
        match self.form {
            Form::Iterators => {
                let mut walk = Received(self.next.as_slice());
                let watch = Watch::new(alloc);
                let answer = encode(alloc, k, r, walk.by_ref().map(|(_, shard)| shard), engine);
                drop(watch);
                left.0 = walk.0.len();
                Ok(answer?)
            }
            Form::Rooms => rooms::encode(alloc, (k, r), &shards, engine),
            Form::Updated => further::encode_updated(alloc, (k, r), &shards, engine),
            Form::Messages => further::encode_split(alloc, (k, r), &shards, engine),
            Form::Slices | Form::Wanted | Form::WantedRooms | Form::Verified => {
                let _watch = Watch::new(alloc);
                Ok(encode_slice(alloc, k, r, &shards, engine)?)
            }
        }
    }

    // Decodes the given shards in the form of this level. Sets `left` to the numbers of shards that a call with
    // iterators has not taken.
    fn decode(&self, left: &mut Left) -> Result<BTreeMap<usize, Vec<u8>>> {
        let (alloc, (k, r), engine) = (self.alloc, self.counts, self.engine);
        let own = lent_items(alloc, &self.original)?;
        let further = lent_items(alloc, &self.recovery)?;
        match self.form {
            Form::Iterators => self.decode_places(left),
            Form::Rooms => rooms::decode(alloc, (k, r), &own, &further, engine, false),
            Form::WantedRooms => rooms::decode(alloc, (k, r), &own, &further, engine, true),
            Form::Wanted => further::reconstruct_missing(alloc, (k, r), &own, &further, engine),
            Form::Messages => further::decode_joined(alloc, (k, r), &own, &further, engine),
            Form::Verified => {
                let watch = Watch::new(alloc);
                verify(alloc, k, r, &own, &further, engine)?;
                drop(watch);
                Ok(decode_slice(alloc, k, r, &own, &further, engine)?)
            }
            Form::Slices | Form::Updated => {
                let _watch = Watch::new(alloc);
                Ok(decode_slice(alloc, k, r, &own, &further, engine)?)
            }
        }
    }

    // Decodes the given shards with iterators. Sets `left` to the numbers of shards that the call has not taken.
    fn decode_places(&self, left: &mut Left) -> Result<BTreeMap<usize, Vec<u8>>> {
        let (alloc, (k, r)) = (self.alloc, self.counts);
        let mut original = Received(self.original.as_slice());
        let mut recovery = Received(self.recovery.as_slice());
        let watch = Watch::new(alloc);
        let answer = decode(alloc, k, r, &mut original, &mut recovery, self.engine);
        drop(watch);
        *left = (original.0.len(), recovery.0.len());
        Ok(answer?)
    }
}

impl Level for OneCall<'_> {
    fn obtain(
        &mut self,
        _object: Object,
        (original_count, recovery_count, _): Configuration,
        _works: Option<&mut Works>,
    ) -> Answer {
        self.counts = (original_count, recovery_count);
        self.next.clear();
        self.original.clear();
        self.recovery.clear();
        Ok(())
    }

    fn give(&mut self, role: &Role, shard: Option<&Shard>) -> Answer {
        let place = match shard {
            Some((index, bytes)) => Some((*index, bytes.clone()?)),
            None => None,
        };
        match role {
            Role::Next => self.next.push(place)?,
            Role::Original => self.original.push(place)?,
            Role::Recovery => self.recovery.push(place)?,
        }
        Ok(())
    }

    fn run(&mut self, object: Object, kept: &mut Kept) -> Result<()> {
        match object {
            Object::Encoder => {
                let answer = self.encode(&mut kept.left);
                self.next.clear();
                kept.recovery.clear();
                kept.recovery = answer?.into_iter().enumerate().collect(self.alloc)?;
            }
            Object::Decoder => {
                let answer = self.decode(&mut kept.left);
                self.original.clear();
                self.recovery.clear();
                kept.restored.clear();
                kept.restored = answer?.into_iter().collect(self.alloc)?;
            }
        }
        Ok(())
    }
}

// Lends shards with their indexes, and ends once at each `None`.
#[derive(Drop)]
struct Received<'a>(&'a [Option<Shard>]);

impl<'a> Iterator for Received<'a> {
    type Item = (usize, &'a [u8]);

    ghost remaining = { λ s. at_most (length s.0.now) };

    fn next(&mut self) -> Option<(usize, &'a [u8])> {
        let (place, rest) = self.0.split_first()?;
        self.0 = rest;
        match place {
            Some((index, bytes)) => Some((*index, bytes.as_slice())),
            None => None,
        }
    }
}
