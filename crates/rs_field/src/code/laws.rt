//! Laws of the definitions, as contracts of functions that do nothing.
ghost use Rattle.std.specs.Prelude.{◌≡◌, ◌+◌, ◌^◌, length};
ghost use Rattle.rs_field.specs.code.Code.{HasOnePolynomial, HasOneRecovery};
ghost use Rattle.rs_field.specs.code.CodeLaws.{HasRecovery, IsLinear, IsColumnwise};
ghost use Rattle.rs_field.specs.code.CodeLaws.{IsCodedByStrips, CodesWhereStripsDo};
ghost use Rattle.rs_field.specs.code.CodeLaws.{HasOneCodeAtOnePower, IsFixedByPlaces};
ghost use Rattle.rs_field.specs.code.CodeLaws.{HasOneRestoration, NoticesChanges};
ghost use Rattle.rs_field.specs.code.Column.{ColumnsTellShard, IsColumn};
ghost use Rattle.rs_field.specs.code.CountLaws.{SupportsRanges};
ghost use Rattle.rs_field.specs.code.DirectLaws.{HasOneMessage, IsSummedDirectly, IsDecidedByBase};
ghost use Rattle.rs_field.specs.words.Field.{cantor_basis, polynomial};
ghost use Rattle.rs_field.specs.words.Laws.{IsField, IsGenerated, IsProductOfBits};
ghost use Rattle.rs_field.specs.words.Locator.{LocatesByProduct};
ghost use Rattle.rs_field.specs.code.RoundTrip.{RestoresLost, RestoresEncoded, RestoresLeft};
ghost use Rattle.rs_field.specs.code.RoundTrip.{RestoresOnlyMessage};
ghost use Rattle.rs_field.specs.code.RoundTrip.{CodesInOneCall, EncodesInOneCall};
ghost use Rattle.rs_field.specs.code.RoundTrip.{RestoresInOneCall};
ghost use Rattle.rs_field.specs.words.Subspace.{SubspaceIsShift};

use crate::words::{CANTOR_BASIS, GF_BITS, GF_MODULUS, GF_ORDER, GF_POLYNOMIAL};

/// States that the constants of the field are those of the definitions.
#[tactic(auto, unfolding(crate::specs::words::Field::cantor_basis))]
pub fn field_constants()
    ensures basis { CANTOR_BASIS ≡ cantor_basis }
    ensures polynomial { GF_POLYNOMIAL ≡ polynomial }
    ensures bits { GF_BITS ≡ length CANTOR_BASIS }
    ensures order { GF_ORDER ≡ 2 ^ GF_BITS }
    ensures modulus { GF_MODULUS + 1 ≡ GF_ORDER }
{}

/// States that the words are a field: sums and products obey the laws of a field. The product is the reduced carry-less
/// product of the `bits` of the words. The nonzero words are the 65535 powers of the generator, the last of which is 1.
pub fn field_laws()
    ensures field { IsField }
    ensures product { IsProductOfBits }
    ensures generated { IsGenerated }
{}

/// States which counts the default rate supports: any two counts from 1 to 32768, and any two positive counts of which
/// one is at most 2^n and the other at most 65536 - 2^n for some n. The default rate supports no other counts.
pub fn count_laws()
    ensures { SupportsRanges }
{}

/// States that the columns of a shard are its words, chunk by chunk, and that shards with the same columns are equal.
/// At most one polynomial codes given words, and a message has at most one list of recovery shards.
pub fn code_laws()
    ensures column { IsColumn }
    ensures shard { ColumnsTellShard }
    ensures polynomial { HasOnePolynomial }
    ensures recovery { HasOneRecovery }
{}

/// States that every message has recovery shards, and how the recovery shards of related messages are related. The
/// recovery shards of the XOR of two messages are the XOR of their recovery shards. Each column is coded independently.
/// If the two counts have the same power, the low and the high rate are the same code. A message may be coded strip by
/// strip: the recovery shards of a strip are a strip of the recovery shards.
pub fn recovery_laws()
    ensures some { HasRecovery }
    ensures linear { IsLinear }
    ensures columns { IsColumnwise }
    ensures strips { IsCodedByStrips }
    ensures joined { CodesWhereStripsDo }
    ensures one_code { HasOneCodeAtOnePower }
{}

/// States that the shards at any k places of a codeword determine its message. So at most one result restores the
/// missing originals, and a decoder that gets n shards notices up to n - k changed shards.
pub fn codeword_laws()
    ensures places { IsFixedByPlaces }
    ensures restored { HasOneRestoration }
    ensures changes { NoticesChanges }
{}

/// States that any k shards belong to exactly one message, and that each word of any other shard of this message is a
/// sum of their words, each multiplied by a factor. These sums also decide whether further shards belong to the
/// message.
pub fn direct_laws()
    ensures message { HasOneMessage }
    ensures sums { IsSummedDirectly }
    ensures base { IsDecidedByBase }
{}

/// States that a decoder of any rate that gets at least k of the originals and recovery shards of a message returns
/// exactly the lost originals, and never fails. The same holds for an encoder followed by a decoder. It also holds for
/// the functions `encode` and `decode`, except that they may fail with `OutOfMemory`. If `decode` succeeds, the shards
/// that it got belong to exactly one message, and it returns the lost originals of this message.
pub fn round_trip_laws()
    ensures lost { RestoresLost }
    ensures encoded { RestoresEncoded }
    ensures left { RestoresLeft }
    ensures one_encode { CodesInOneCall }
    ensures one_encode_whole { EncodesInOneCall }
    ensures one_call { RestoresInOneCall }
    ensures only { RestoresOnlyMessage }
{}

/// States that the subspace polynomials shift coordinates, and that the sums of logarithms of a locator are logarithms
/// of products.
pub fn point_laws()
    ensures subspace { SubspaceIsShift }
    ensures locator { LocatesByProduct }
{}
