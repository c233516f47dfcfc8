//! The engine of this build, and the width of its vectors. `c/build` changes one of the two types for a build.
use rs_engines::engine_shuffle::ByShuffles;
use std::simd::prelude::*;

/// Vectors of 16 bytes, the width of SSSE3. In the build for AVX2, this type is `u8x32`.
pub type Lanes = u8x16;

/// The engine by shuffles, over tables of type `T`. In the build for processors without shuffles, this type is the
/// engine by bits, `ByBits<T>`.
pub type BuildEngine<T> = ByShuffles<Lanes, T>;
