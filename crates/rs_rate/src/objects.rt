//! Encoders, decoders and their results, with the traits that they have. These modules may import from `passes`, `rows`
//! and `values`, which may not import from them.
pub mod aliases;
pub mod decoder_result;
pub mod decoders;
pub mod encoder_result;
pub mod encoders;
pub mod originals_alone;
pub mod rate_object;
pub mod rates;
pub mod split_rounds;
pub mod strip_encoder;
pub mod strips;
pub mod traits;
