//! Worked examples: what the definitions say at small numbers, as contracts of functions that do nothing.
ghost use Rattle.rs_field.specs.code.Counts.{low_rate, high_rate, default_rate};
ghost use Rattle.rs_field.specs.worked.Numbers.{Products, ColumnsOfShards, Powers, Supported};
ghost use Rattle.rs_field.specs.worked.Numbers.{Unsupported, OfOneRate, Choices};
ghost use Rattle.rs_field.specs.worked.Numbers.{Validated, TooManyBytes, BlockRowsExamples};
ghost use Rattle.rs_field.specs.worked.Numbers.{EncoderRowsExamples, DecoderRowsExamples};
ghost use Rattle.rs_field.specs.worked.Numbers.{TransformOfTwo, StepBounds};
ghost use Rattle.rs_field.specs.worked.Codes.{LowExamples, HighExamples, ShortLineExample, CubicExample, TailExample};
ghost use Rattle.rs_field.specs.worked.Codes.{ChunkAndTailExample, RestoredExample, MixtureExample, SurplusExample};
ghost use Rattle.rs_field.specs.worked.Calls.{EncodeOrder, DecodeOrder, NoRecoveryOrder};
ghost use Rattle.rs_field.specs.worked.Calls.{EncoderRound, DecoderRound, LargestIndex};
ghost use Rattle.rs_field.specs.worked.Calls.{MemoryOrder};

/// Gives examples of products of words, and of columns of shards with and without a tail.
pub fn words()
    ensures products { Products }
    ensures columns { ColumnsOfShards }
{}

/// Gives examples of the counts that each rate supports, of the rate that the default rate chooses, and of the errors
/// of configurations.
pub fn counts()
    ensures powers { Powers }
    ensures supported { Supported }
    ensures unsupported { Unsupported }
    ensures of_one_rate { OfOneRate }
    ensures choices { Choices }
    ensures validated { Validated }
{}

/// Gives examples of the number of rows that encoders and decoders have, and of rows with too many bytes.
pub fn rows()
    ensures blocks { BlockRowsExamples }
    ensures encoders { EncoderRowsExamples }
    ensures decoders { DecoderRowsExamples }
    ensures bytes { TooManyBytes }
{}

/// Gives examples of how many steps calls may count.
pub fn bounds()
    ensures { StepBounds }
{}

/// Gives an example of a transform of two words.
pub fn transforms()
    ensures { TransformOfTwo }
{}

/// Gives examples of recovery shards, with the polynomials that code their messages: at the low rate, at the high rate,
/// and at the default rate. The default rate gives the recovery shards of the low rate if the power of k is below the
/// power of r, and the recovery shards of the high rate otherwise.
pub fn codes()
    ensures low { LowExamples low_rate }
    ensures short_line { ShortLineExample low_rate }
    ensures cubic { CubicExample low_rate }
    ensures high { HighExamples high_rate }
    ensures default_low { LowExamples default_rate }
    ensures tail { TailExample }
    ensures chunk_and_tail { ChunkAndTailExample }
    ensures default_high { HighExamples default_rate }
{}

/// Gives examples of which messages agree with given shards.
pub fn agreement()
    ensures restored { RestoredExample }
    ensures mixture { MixtureExample }
    ensures surplus { SurplusExample }
{}

/// Gives examples of the order of errors, and of the state after a call.
pub fn refusals()
    ensures encode { EncodeOrder }
    ensures decode { DecodeOrder }
    ensures no_recovery { NoRecoveryOrder }
    ensures encoder { EncoderRound }
    ensures decoder { DecoderRound }
    ensures index { LargestIndex }
    ensures memory { MemoryOrder }
{}
