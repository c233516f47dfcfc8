//! Butterflies of words in lanes, forward and backward: one layer on two words, and two layers on four words.
ghost use Rattle.std.specs.Prelude.{ℕ, ◌<◌};
ghost use Rattle.rs_field.specs.rows.Pairs.{OnTwoWords, IsForwardTwo, IsBackwardTwo};
ghost use Rattle.rs_field.specs.rows.TwoLayers.{OnFourWords, IsForwardFour, IsBackwardFour};
ghost use Rattle.rs_engines.specs.Lanes.{lane};

use crate::byte_vector::ByteVector;
use crate::factors::{Factor, ThreeFactors};
use crate::word_lanes::{Words, add};

/// The butterflies of one direction of a transform. The direction decides the order of the two sums of a butterfly, and
/// the order of two layers.
pub trait Butterflies {
    // The relation between the two old and the two new words of a butterfly, for the logarithm of its factor.
    ghost two: { ℕ → OnTwoWords };

    // The relation between the four old and the four new words of two layers, for the logarithms of three factors: of
    // rows 0 and 2 and of rows 1 and 3, of rows 0 and 1, and of rows 2 and 3.
    ghost four: { ℕ → ℕ → ℕ → OnFourWords };

    /// Returns the results of a butterfly on the words of two rows.
    fn of_two<V: ByteVector, F: Factor>(
        x0: Words<V>,
        x1: Words<V>,
        factor: F,
    ) -> (Words<V>, Words<V>)
        ensures { (i : ℕ) → i < V.LANES
            → two (F.log factor)
            (lane (V.bytes x0.low) (V.bytes x0.high) i) (lane (V.bytes x1.low) (V.bytes x1.high) i)
            (lane (V.bytes result.0.low) (V.bytes result.0.high) i)
            (lane (V.bytes result.1.low) (V.bytes result.1.high) i) };

    /// Returns the results of two layers of butterflies on the words of four rows.
    fn of_four<V: ByteVector, F02: Factor, F01: Factor, F23: Factor>(
        x0: Words<V>,
        x1: Words<V>,
        x2: Words<V>,
        x3: Words<V>,
        factors: ThreeFactors<F02, F01, F23>,
    ) -> (Words<V>, Words<V>, Words<V>, Words<V>)
        ensures { (i : ℕ) → i < V.LANES
            → four (F02.log factors.f02) (F01.log factors.f01) (F23.log factors.f23)
            (lane (V.bytes x0.low) (V.bytes x0.high) i) (lane (V.bytes x1.low) (V.bytes x1.high) i)
            (lane (V.bytes x2.low) (V.bytes x2.high) i) (lane (V.bytes x3.low) (V.bytes x3.high) i)
            (lane (V.bytes result.0.low) (V.bytes result.0.high) i)
            (lane (V.bytes result.1.low) (V.bytes result.1.high) i)
            (lane (V.bytes result.2.low) (V.bytes result.2.high) i)
            (lane (V.bytes result.3.low) (V.bytes result.3.high) i) };
}

/// The forward butterflies. A butterfly adds the second word times the factor to the first word, and then the new first
/// word to the second. Of two layers, the layer of rows 0 and 2 and of rows 1 and 3 comes first.
pub struct Forward;

impl Butterflies for Forward {
    ghost two = { IsForwardTwo };

    ghost four = { IsForwardFour };

    #[inline(always)]
    fn of_two<V: ByteVector, F: Factor>(
        x0: Words<V>,
        x1: Words<V>,
        factor: F,
    ) -> (Words<V>, Words<V>) {
        let y0 = factor.add_product(x0, x1);
        (y0, add(x1, y0))
    }

    #[inline(always)]
    fn of_four<V: ByteVector, F02: Factor, F01: Factor, F23: Factor>(
        x0: Words<V>,
        x1: Words<V>,
        x2: Words<V>,
        x3: Words<V>,
        factors: ThreeFactors<F02, F01, F23>,
    ) -> (Words<V>, Words<V>, Words<V>, Words<V>) {
        let z0 = factors.f02.add_product(x0, x2);
        let z1 = factors.f02.add_product(x1, x3);
        let z2 = add(x2, z0);
        let z3 = add(x3, z1);
        let y0 = factors.f01.add_product(z0, z1);
        let y2 = factors.f23.add_product(z2, z3);
        (y0, add(z1, y0), y2, add(z3, y2))
    }
}

/// The backward butterflies. A butterfly adds the first word to the second word, and then the new second word times the
/// factor to the first. Of two layers, the layer of rows 0 and 1 and of rows 2 and 3 comes first.
pub struct Backward;

impl Butterflies for Backward {
    ghost two = { IsBackwardTwo };

    ghost four = { IsBackwardFour };

    #[inline(always)]
    fn of_two<V: ByteVector, F: Factor>(
        x0: Words<V>,
        x1: Words<V>,
        factor: F,
    ) -> (Words<V>, Words<V>) {
        let y1 = add(x1, x0);
        (factor.add_product(x0, y1), y1)
    }

    #[inline(always)]
    fn of_four<V: ByteVector, F02: Factor, F01: Factor, F23: Factor>(
        x0: Words<V>,
        x1: Words<V>,
        x2: Words<V>,
        x3: Words<V>,
        factors: ThreeFactors<F02, F01, F23>,
    ) -> (Words<V>, Words<V>, Words<V>, Words<V>) {
        let z1 = add(x1, x0);
        let z3 = add(x3, x2);
        let z0 = factors.f01.add_product(x0, z1);
        let z2 = factors.f23.add_product(x2, z3);
        let y2 = add(z2, z0);
        let y3 = add(z3, z1);
        let y0 = factors.f02.add_product(z0, y2);
        let y1 = factors.f02.add_product(z1, y3);
        (y0, y1, y2, y3)
    }
}
