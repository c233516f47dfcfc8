//! A factor whose class is only known when the program runs: the factor whose logarithm is given.
ghost use Rattle.std.specs.Prelude.{◌≡◌, IfNone, IfSome};
ghost use Rattle.rs_field.specs.words.Field.{power};
ghost use Rattle.rs_field.specs.words.Products.{IsNibbleBytes};
ghost use Rattle.rs_engines.specs.Factors.{log_of, NeedsFourNumbers};

use crate::byte_vector::ByteVector;
use crate::factors::{Bytewise, Factor, General, Small, Zero};
use crate::word_lanes::Words;
use rs_field::engine::tables::Multiply128lutT;
use rs_field::engine::{GF_MODULUS, GfElement};

/// A factor of any of the three classes.
#[derive(Clone, Copy)]
pub enum AnyFactor<'t> {
    /// The factor zero.
    Zero(Zero),
    /// A factor that is not zero, and whose products with low bytes have no high byte.
    Small(Small<'t>),
    /// Any other factor.
    General(General<'t>),
}

impl Factor for AnyFactor<'_> {
    ghost log = { log_of };

    #[inline(always)]
    fn add_product<V: ByteVector>(self, x: Words<V>, y: Words<V>) -> Words<V> {
        match self {
            Self::Zero(factor) => factor.add_product(x, y),
            Self::Small(factor) => factor.add_product(x, y),
            Self::General(factor) => factor.add_product(x, y),
        }
    }
}

/// Returns the factor of a butterfly that has the logarithm `log_m`, where 65535 represents the factor zero. `products`
/// holds the products with the generator to the power `log_m`.
#[inline(always)]
pub fn factor_of<'t>(products: &'t Multiply128lutT, log_m: GfElement) -> AnyFactor<'t>
    requires { IsNibbleBytes (power log_m) products.now }
    ensures { log_of result ≡ log_m }
{
    if log_m == GF_MODULUS {
        return AnyFactor::Zero(Zero);
    }
    if products.hi[0] == 0 && products.hi[1] == 0 {
        AnyFactor::Small(Small { log_m, products })
    } else {
        AnyFactor::General(General { log_m, products })
    }
}

/// Returns the factor if it is small and its six look-ups need only four numbers.
#[inline(always)]
pub fn bytewise(factor: AnyFactor<'_>) -> Option<Bytewise>
    ensures some { IfSome result (λ found. found.log_m ≡ log_of factor.entry) }
    ensures none { IfNone result (NeedsFourNumbers factor.entry → ⊥) }
{
    let AnyFactor::Small(Small { log_m, products }) = factor else {
        return None;
    };
    if products.hi[2] == products.lo[0] && products.hi[3] == products.lo[1] {
        Some(Bytewise {
            log_m,
            numbers: products.lo,
        })
    } else {
        None
    }
}
