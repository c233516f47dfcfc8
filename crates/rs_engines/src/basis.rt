//! The basis in which words are: that of the field, or the one in which products with small factors take four look-ups.
ghost use Rattle.std.specs.Prelude.{ℕ};

/// The basis in which the words of rows and of chunks are.
pub trait Basis {
    // The word of the field that a word in this basis represents.
    ghost value: { ℕ → ℕ };
}

/// The basis of the field.
pub struct FieldBasis;

impl Basis for FieldBasis {
    ghost value = { λ w. w };
}

/// The other basis, in which products with small factors take four look-ups.
pub struct TwistedBasis;

impl Basis for TwistedBasis {
    ghost use Rattle.rs_engines.specs.Twisted.{twisted};

    ghost value = { twisted };
}
