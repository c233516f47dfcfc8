//! Compares the outcome of an action with its expected result.
use crate::cases::{Expected, Given, Shard, Step};
use crate::interpreter::{Returned, named};
use crate::kept::Kept;
use anyhow::Result;
use std::alloc::AllocError;

/// Returns whether the outcome is the expected result, and whether the call has left the expected numbers of shards. If
/// the action returns nothing, no shards may be expected.
///
/// # Errors
///
/// [`AllocError`] if memory cannot be allocated.
pub fn is_expected(
    kept: &Kept,
    outcome: &Result<Returned>,
    step: &Step,
) -> Result<bool, AllocError> {
    let same = match (&step.expected, outcome) {
        (Expected::Text(expected), _) => text_of(kept, outcome)?.as_str() == expected.as_str(),
        (Expected::Shards(expected), Ok(Returned::Nothing)) => expected.is_empty(),
        (Expected::Shards(expected), Ok(Returned::Shards(object))) => {
            are_same(&kept.message, kept.result(*object), expected)
        }
        _ => false,
    };
    Ok(same && kept.left == step.left)
}

// Returns whether the shards are the expected ones, in order. Expected indexes name originals of the message.
fn are_same(message: &[Shard], shards: &[Shard], expected: &[Given]) -> bool {
    let mut rest = shards;
    for (_, part) in expected {
        let after = named(part, message).and_then(|part| rest.strip_prefix(part));
        let Some(after) = after else {
            return false;
        };
        rest = after;
    }
    rest.is_empty()
}

/// Returns the text of an outcome: a space and I=HEX for each shard, a digest, or the text of the error.
///
/// # Errors
///
/// [`AllocError`] if memory cannot be allocated.
pub fn text_of(kept: &Kept, outcome: &Result<Returned>) -> Result<String, AllocError> {
    let mut text = String::new(kept.alloc);
    match outcome {
        Ok(Returned::Nothing) => {}
        Ok(Returned::Shards(object)) => {
            for (index, bytes) in kept.result(*object) {
                let digits = hex::encode(kept.alloc, bytes.as_slice())?;
                write!(text, " {index}={digits}")?;
            }
        }
        Ok(Returned::Digest(digest)) => text.push_str(digest.as_str())?,
        Err(error) => write!(text, "{error}")?,
    }
    Ok(text)
}
