//! The reading of a command line: it turns the words into a command.
ghost use Rattle.std.specs.Prelude.{◌≡◌, [], None, Err, map, take, OnOk, IfErr};
ghost use Rattle.std.specs.Option.{option_zip};
ghost use Rattle.std.specs.String.{string_bytes};
ghost use Rattle.rs.specs.Number.{number_of};
ghost use Rattle.rs.specs.CommandLine.{shards_of, indexed_shard_of, item_of, items_of, task_of};
ghost use Rattle.rs.specs.CommandLine.{request_of};
ghost use Rattle.rs.specs.Reading.{Reads, as_shards, as_item, as_item_of_line, given_items, as_task};
ghost use Rattle.rs.specs.Reading.{as_request};

use crate::fault::Fault;
use crate::hexadecimal::word;
use crate::number::number;
use reed_solomon_simd::engine::EngineKind;
use std::alloc::{AllocError, Global};
use std::str::FromStr;

/// The two counts of a message.
#[derive(Clone, Copy)]
pub struct Counts {
    /// The number of originals.
    pub original: usize,
    /// The number of recovery shards.
    pub recovery: usize,
}

/// The index of a shard, and the bytes of the shard.
pub type IndexedShard = (usize, Vec<u8>);

/// The shards that a command passes to a decoder, in the order of the command line.
#[derive(Drop)]
pub struct GivenShards {
    /// The originals, with their indexes.
    pub original: Vec<IndexedShard>,
    /// The recovery shards, with their indexes.
    pub recovery: Vec<IndexedShard>,
}

/// What a command asks for.
#[derive(Drop)]
pub enum Task {
    /// Compute the recovery shards of these originals.
    Encode(Vec<Vec<u8>>),
    /// Restore the originals that are not among these shards.
    Decode(GivenShards),
}

/// A command line that was read.
#[derive(Drop)]
pub struct Command {
    /// The kind of the engine to use.
    pub engine: EngineKind,
    /// The counts of originals and of recovery shards.
    pub counts: Counts,
    /// What the command asks for, with the shards.
    pub task: Task,
}

// A word of a command line that represents a received shard.
#[derive(Drop)]
enum Item {
    // An original: the word oI=HEX.
    Original(IndexedShard),
    // A recovery shard: the word rI=HEX.
    Recovery(IndexedShard),
}

impl GivenShards {
    ghost use Rattle.rs.specs.CommandLine.{GivenItems, with_item};
    ghost use Rattle.rs.specs.Reading.{with_items, given_items, as_item_of_line};

    // Adds an item after the other items of its kind. Fails if memory cannot be allocated.
    fn push(&mut self, item: Item) -> Result<(), AllocError>
        ensures { OnOk result ((left : GivenItems) → with_items (given_items self.new) left
            ≡ with_items (given_items self.old) (with_item (as_item_of_line item) left)) }
    {
        match item {
            Item::Original(indexed) => self.original.push(indexed)?,
            Item::Recovery(indexed) => self.recovery.push(indexed)?,
        }
        Ok(())
    }
}

// Reads the two counts, which must be numbers. Fails with `Usage` if one of them is not.
fn read_counts(original: &str, recovery: &str) -> Result<Counts, Fault>
    ensures read { Reads (λ counts. (counts.original, counts.recovery))
        (option_zip (number_of original.now) (number_of recovery.now)) result }
    ensures usage { IfErr result (λ fault. fault ≡ Fault.Usage) }
{
    let Some(original) = number(original) else {
        return Err(Fault::Usage);
    };
    let Some(recovery) = number(recovery) else {
        return Err(Fault::Usage);
    };
    Ok(Counts { original, recovery })
}

// Reads the shards of words, each of which must be HEX. Fails with `Usage` at the first word that is not, or with
// `OutOfMemory`.
fn read_shards(alloc: Global, words: &[String]) -> Result<Vec<Vec<u8>>, Fault>
    ensures { Reads as_shards (shards_of (map string_bytes words.now)) result }
{
    let mut shards = Vec::new(alloc);
    for text in words {
        let Some(bytes) = word(alloc, text.as_str())? else {
            return Err(Fault::Usage);
        };
        shards.push(bytes)?;
    }
    Ok(shards)
}

// Reads a text I=HEX: an index and a shard. Fails with `Usage` for any other text, or with `OutOfMemory`.
fn read_indexed_shard(alloc: Global, text: &str) -> Result<IndexedShard, Fault>
    ensures { Reads as_item (indexed_shard_of text.now) result }
{
    let Some((index, shard)) = text.split_once('=') else {
        return Err(Fault::Usage);
    };
    let Some(index) = number(index) else {
        return Err(Fault::Usage);
    };
    let Some(shard) = word(alloc, shard)? else {
        return Err(Fault::Usage);
    };
    Ok((index, shard))
}

// Reads a word oI=HEX, which is an original, or rI=HEX, which is a recovery shard. Fails with `Usage` for any other
// word, or with `OutOfMemory`.
fn read_item(alloc: Global, text: &str) -> Result<Item, Fault>
    ensures { Reads as_item_of_line (item_of text.now) result }
{
    if let Some(text) = text.strip_prefix('o') {
        return Ok(Item::Original(read_indexed_shard(alloc, text)?));
    }
    if let Some(text) = text.strip_prefix('r') {
        return Ok(Item::Recovery(read_indexed_shard(alloc, text)?));
    }
    Err(Fault::Usage)
}

// Reads the shards of words, each of which must be an ITEM. Fails with `Usage` at the first word that is not, or with
// `OutOfMemory`.
fn read_items(alloc: Global, words: &[String]) -> Result<GivenShards, Fault>
    ensures { Reads given_items (items_of (map string_bytes words.now)) result }
{
    let mut given = GivenShards {
        original: Vec::new(alloc),
        recovery: Vec::new(alloc),
    };
    for text in words {
        let item = read_item(alloc, text.as_str())?;
        given.push(item)?;
    }
    Ok(given)
}

// Reads the name of a command and the words after its counts. Fails with `Usage` if the name or a word is not valid, or
// with `OutOfMemory`.
fn read_task(alloc: Global, name: &str, words: &[String]) -> Result<Task, Fault>
    ensures read { Reads as_task (task_of name.now (map string_bytes words.now)) result }
    ensures begun { task_of name.now [] ≡ None → result ≡ Err Fault.Usage }
{
    match name {
        "encode" => Ok(Task::Encode(read_shards(alloc, words)?)),
        "decode" => Ok(Task::Decode(read_items(alloc, words)?)),
        _ => Err(Fault::Usage),
    }
}

/// Reads a command line: the name of the command, the engine, the two counts, and the shards.
///
/// # Errors
///
/// The words are read from left to right, and the first error is returned:
///
/// - [`Fault::Usage`] if there are fewer than four words, or if the engine, a count or the name of the command is not
///   valid.
/// - For each further word in order: [`Fault::Usage`] if the word is not valid, or [`Fault::Refused`] with
///   [`Error::OutOfMemory`](reed_solomon_simd::Error::OutOfMemory) if its shard cannot be allocated.
pub fn read_command(alloc: Global, words: &[String]) -> Result<Command, Fault>
    ensures read { Reads as_request (request_of (map string_bytes words.now)) result }
    ensures begun { request_of (take 4 (map string_bytes words.now)) ≡ None
        → result ≡ Err Fault.Usage }
{
    let [name, engine, original, recovery, words @ ..] = words else {
        return Err(Fault::Usage);
    };
    let Ok(engine) = EngineKind::from_str(engine.as_str()) else {
        return Err(Fault::Usage);
    };
    let counts = read_counts(original.as_str(), recovery.as_str())?;
    let task = read_task(alloc, name.as_str(), words)?;
    Ok(Command {
        engine,
        counts,
        task,
    })
}
