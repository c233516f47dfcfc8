//! The rates of the code at their public paths: their traits, encoders, decoders and works.
pub use crate::objects::decoders::{DefaultRateDecoder, HighRateDecoder, LowRateDecoder};
pub use crate::objects::encoders::{DefaultRateEncoder, HighRateEncoder, LowRateEncoder};
pub use crate::objects::rates::{DefaultRate, HighRate, LowRate};
pub use crate::objects::traits::{Rate, RateDecoder, RateEncoder};
pub use crate::objects::{aliases, originals_alone, split_rounds, strip_encoder, strips};
pub use crate::passes::{base_sums, changes, strip_message, sums};
pub use crate::rows::decoder_work::DecoderWork;
pub use crate::rows::encoder_work::EncoderWork;
pub use crate::values::configuration::{check_decoder_rows, check_encoder_rows};
pub use crate::values::frames::{are_sums_cheaper, are_syndromes_cheapest};
pub use crate::values::supported_counts::{DefaultRateCounts, HighRateCounts, LowRateCounts};
