//! The level of the plain objects.
use crate::cases::{Configuration, Object, Role, Shard};
use crate::kept::{Kept, Works};
use crate::level::{Answer, Level};
use crate::watch::Watch;
use reed_solomon_simd::engine::DefaultEngine;
use reed_solomon_simd::{Error, ReedSolomonDecoder, ReedSolomonEncoder};
use std::alloc::Global;

/// A plain encoder and a plain decoder.
#[derive(Drop)]
pub struct Plain<'t> {
    alloc: Global,
    engine: DefaultEngine<'t>,
    encoder: ReedSolomonEncoder<'t>,
    decoder: ReedSolomonDecoder<'t>,
}

impl<'t> Plain<'t> {
    /// Makes objects for one original and one recovery shard of two bytes.
    ///
    /// # Errors
    ///
    /// [`Error::OutOfMemory`] if memory cannot be allocated.
    pub fn new(alloc: Global, engine: DefaultEngine<'t>) -> Result<Plain<'t>, Error> {
        Ok(Plain {
            alloc,
            engine,
            encoder: ReedSolomonEncoder::new(alloc, 1, 1, 2, engine)?,
            decoder: ReedSolomonDecoder::new(alloc, 1, 1, 2, engine)?,
        })
    }
}

impl Level for Plain<'_> {
    fn obtain(
        &mut self,
        object: Object,
        (k, r, size): Configuration,
        works: Option<&mut Works>,
    ) -> Answer {
        let (alloc, engine) = (self.alloc, self.engine);
        let _watch = Watch::new(alloc);
        match (object, works.is_some()) {
            (Object::Encoder, false) => self.encoder.reset(k, r, size)?,
            (Object::Decoder, false) => self.decoder.reset(k, r, size)?,
            (Object::Encoder, true) => {
                self.encoder = ReedSolomonEncoder::new(alloc, k, r, size, engine)?;
            }
            (Object::Decoder, true) => {
                self.decoder = ReedSolomonDecoder::new(alloc, k, r, size, engine)?;
            }
        }
        Ok(())
    }

    fn give(&mut self, role: &Role, shard: Option<&Shard>) -> Answer {
        let Some((index, bytes)) = shard else {
            return Ok(());
        };
        let _watch = Watch::new(self.alloc);
        match role {
            Role::Next => self.encoder.add_original_shard(bytes),
            Role::Original => self.decoder.add_original_shard(*index, bytes),
            Role::Recovery => self.decoder.add_recovery_shard(*index, bytes),
        }
    }

    fn run(&mut self, object: Object, kept: &mut Kept) -> anyhow::Result<()> {
        let watch = Watch::new(self.alloc);
        match object {
            Object::Encoder => {
                let lent = self.encoder.encode()?;
                kept.keep_recovery(lent, watch)
            }
            Object::Decoder => {
                let lent = self.decoder.decode()?;
                kept.keep_restored(lent, watch)
            }
        }
    }

    fn tells(&self, (k, r, _): Configuration, answer: Answer) -> bool {
        let supported = !matches!(answer, Err(Error::UnsupportedShardCount { .. }));
        ReedSolomonEncoder::supports(k, r) == supported
            && ReedSolomonDecoder::supports(k, r) == supported
    }
}
