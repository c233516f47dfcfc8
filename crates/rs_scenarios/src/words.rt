//! Reads the words of a line: configurations, counts and shards.
use crate::cases::{Configuration, Given, Role, Shards};
use anyhow::{Context, Result};
use std::alloc::Global;

/// Reads a configuration: the number of originals, the number of recovery shards, and the size of a shard in bytes.
///
/// # Errors
///
/// Fails if a word is not a number.
pub fn configuration(originals: &str, recoveries: &str, size: &str) -> Result<Configuration> {
    Ok((originals.parse()?, recoveries.parse()?, size.parse()?))
}

/// Reads pairs of counts, each of which is written K+R. The results are configurations. A pair has no size, so they get
/// the size 64.
///
/// # Errors
///
/// Fails if a word has no `+`, if a count is not a number, or if memory cannot be allocated.
pub fn pairs(alloc: Global, words: &[&str]) -> Result<Vec<Configuration>> {
    let mut pairs = Vec::new(alloc);
    for word in words {
        let (originals, recoveries) = word.split_once('+').context("a pair is written K+R")?;
        pairs.push((originals.parse()?, recoveries.parse()?, 64))?;
    }
    Ok(pairs)
}

/// Reads words, each of which names shards, or a place at which an iterator ends. A shard that is written without an
/// index gets the position of its word, counted from 0, as its index.
///
/// # Errors
///
/// Fails if the bytes of a shard are not hexadecimal digits, if an index or a number of repetitions is not a number, or
/// if memory cannot be allocated.
pub fn given(alloc: Global, words: &[&str]) -> Result<Vec<Given>> {
    let mut given = Vec::new(alloc);
    for (place, word) in words.iter().enumerate() {
        given.push(given_by(alloc, word, place)?)?;
    }
    Ok(given)
}

// Reads one word, whose position is `place`. The first letter of the word is the role of the shards: `o` for originals
// of the decoder, and `r` for recovery shards of the decoder. A word without such a letter names originals of the
// encoder, or shards of an expected result.
fn given_by(alloc: Global, word: &str, place: usize) -> Result<Given> {
    let (role, rest) = match word.split_at_checked(1) {
        Some(("o", rest)) => (Role::Original, rest),
        Some(("r", rest)) => (Role::Recovery, rest),
        _ => (Role::Next, word),
    };
    Ok((role, shards(alloc, rest, place)?))
}

// Reads a word without the letter of its role: `end`, `@A..B` for the shards with the indexes from A up to, but not
// including, B, `I=SHARD` for one shard with the index I, or `SHARD` for one shard with the index `place`.
fn shards(alloc: Global, word: &str, place: usize) -> Result<Shards> {
    if word == "end" {
        return Ok(Shards::End);
    }
    if let Some(range) = word.strip_prefix('@') {
        let (start, end) = range.split_once("..").context("a range is written A..B")?;
        return Ok(Shards::Range(start.parse()?, end.parse()?));
    }
    let (index, text) = match word.split_once('=') {
        Some((own, text)) => (own.parse()?, text),
        None => (place, word),
    };
    Ok(Shards::Written((index, bytes_of(alloc, text)?)))
}

// Reads the bytes of a shard. They are written as pieces with `+` between them. A piece is HEX, or HEX*N for the bytes
// of HEX repeated N times.
fn bytes_of(alloc: Global, text: &str) -> Result<Vec<u8>> {
    let mut bytes = Vec::new(alloc);
    for piece in text.split('+') {
        let (digits, times) = piece.split_once('*').unwrap_or((piece, "1"));
        let part = hex::decode(alloc, digits)?.repeat(alloc, times.parse()?)?;
        bytes.extend_from_slice(part.as_slice())?;
    }
    Ok(bytes)
}
