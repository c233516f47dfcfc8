//! The level of the objects of a rate over an engine.
use crate::cases::{Configuration, Object, Role, Shard};
use crate::kept::{Kept, Works};
use crate::level::{Answer, Level};
use crate::watch::Watch;
use reed_solomon_simd::Error;
use reed_solomon_simd::engine::{Engine, Steps};
use reed_solomon_simd::rate::{Rate, RateDecoder, RateEncoder};
use std::alloc::Global;
use std::mem;

/// An encoder and a decoder of the rate.
#[derive(Drop)]
pub struct Rated<E: Engine, R: Rate<E>> {
    alloc: Global,
    engine: E,
    encoder: R::RateEncoder,
    decoder: R::RateDecoder,
}

impl<E: Engine + Copy, R: Rate<E>> Rated<E, R> {
    /// Makes objects for one original and one recovery shard of two bytes.
    ///
    /// # Errors
    ///
    /// [`Error::OutOfMemory`] if memory cannot be allocated.
    pub fn new(alloc: Global, engine: E) -> Result<Rated<E, R>, Error> {
        Ok(Rated {
            alloc,
            engine,
            encoder: R::RateEncoder::new(alloc, 1, 1, 2, engine, None)?,
            decoder: R::RateDecoder::new(alloc, 1, 1, 2, engine, None)?,
        })
    }
}

impl<E: Engine + Copy, R: Rate<E>> Level for Rated<E, R> {
    fn obtain(
        &mut self,
        object: Object,
        (k, r, size): Configuration,
        works: Option<&mut Works>,
    ) -> Answer {
        let (alloc, engine) = (self.alloc, self.engine);
        let _watch = Watch::new(alloc);
        match (object, works) {
            (Object::Encoder, None) => self.encoder.reset(k, r, size)?,
            (Object::Decoder, None) => self.decoder.reset(k, r, size)?,
            (Object::Encoder, Some(works)) => {
                self.encoder = R::encoder(alloc, k, r, size, engine, works.encoder.take())?;
            }
            (Object::Decoder, Some(works)) => {
                self.decoder = R::decoder(alloc, k, r, size, engine, works.decoder.take())?;
            }
        }
        Ok(())
    }

    fn give(&mut self, role: &Role, shard: Option<&Shard>) -> Answer {
        let Some((index, bytes)) = shard else {
            return Ok(());
        };
        let _watch = Watch::new(self.alloc);
        match role {
            Role::Next => self.encoder.add_original_shard(bytes),
            Role::Original => self.decoder.add_original_shard(*index, bytes),
            Role::Recovery => self.decoder.add_recovery_shard(*index, bytes),
        }
    }

    fn run(&mut self, object: Object, kept: &mut Kept) -> anyhow::Result<()> {
        let mut steps = Steps::new();
        let watch = Watch::new(self.alloc);
        match object {
            Object::Encoder => {
                let lent = self.encoder.encode(&mut steps)?;
                kept.keep_recovery(lent, watch)
            }
            Object::Decoder => {
                let lent = self.decoder.decode(&mut steps)?;
                kept.keep_restored(lent, watch)
            }
        }
    }

    fn take_works(&mut self, works: &mut Works) -> Answer {
        let taken = mem::replace(self, Rated::new(self.alloc, self.engine)?);
        works.encoder = Some(taken.encoder.into_parts().1);
        works.decoder = Some(taken.decoder.into_parts().1);
        Ok(())
    }

    fn tells(&self, (k, r, size): Configuration, answer: Answer) -> bool {
        let (alloc, engine) = (self.alloc, self.engine);
        let supported = !matches!(answer, Err(Error::UnsupportedShardCount { .. }));
        let valid = match answer {
            Err(Error::OutOfMemory) => Ok(()),
            _ => answer,
        };
        let supports = [
            R::supports(k, r),
            R::RateEncoder::supports(k, r),
            R::RateDecoder::supports(k, r),
        ];
        let validates = [
            R::validate(k, r, size),
            R::RateEncoder::validate(k, r, size),
            R::RateDecoder::validate(k, r, size),
        ];
        let makes = [
            R::RateEncoder::new(alloc, k, r, size, engine, None).err(),
            R::RateDecoder::new(alloc, k, r, size, engine, None).err(),
        ];
        supports == [supported; 3] && validates == [valid; 3] && makes == [answer.err(); 2]
    }
}
