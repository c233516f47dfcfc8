//! The execution of a command: the recovery shards or the restored originals that it asks for, as lines of text.
ghost use Rattle.std.specs.Prelude.{◌≡◌, IfOk, MatchResult, map};
ghost use Rattle.reed_solomon_simd.specs.Kind.{kind_of};
ghost use Rattle.reed_solomon_simd.specs.OneCall.{shards_in};
ghost use Rattle.rs.specs.Printed.{concatenation, ListsShards};
ghost use Rattle.rs.specs.Printed.{CodesLines, RestoresLines, OrLacksMemory};
ghost use Rattle.rs.specs.Reading.{given_items};

use crate::command::{Command, Counts, GivenShards, Task};
use crate::hexadecimal::line;
use reed_solomon_simd::engine::{DefaultEngine, EngineKind};
use reed_solomon_simd::{Error, decode, encode};
use std::alloc::Global;
use std::collections::BTreeMap;

/// The lines that a command prints, and the kind of the engine that was passed to [`Lines::new`]. Only this module can
/// make such a value.
#[derive(Drop)]
pub struct Lines {
    // The texts whose concatenation is the output.
    texts: Vec<String>,
    // The kind of the engine.
    engine: EngineKind,
}

impl Lines {
    ghost use Rattle.std.specs.Prelude.{◌≡◌, IfOk};
    ghost use Rattle.reed_solomon_simd.specs.Kind.{kind_of};
    ghost use Rattle.rs.specs.Coding.{AnswersWith};
    ghost use Rattle.rs.specs.Reading.{as_request};

    /// Encodes or decodes as the command says, with this engine, and makes a line of text for each resulting shard. The
    /// result records the kind of the engine.
    ///
    /// # Errors
    ///
    /// The errors of [`encode`] or [`decode`], in the same order, and then [`Error::OutOfMemory`] if a line cannot be
    /// allocated.
    pub fn new(alloc: Global, engine: DefaultEngine<'_>, command: &Command) -> Result<Lines, Error>
        ensures engine { IfOk result (λ lines. lines.engine ≡ kind_of engine.entry) }
        ensures answer { AnswersWith (as_request command.now) result }
    {
        let texts = match &command.task {
            Task::Encode(original) => recovery_lines(alloc, command.counts, original, engine)?,
            Task::Decode(given) => restored_lines(alloc, command.counts, given, engine)?,
        };
        Ok(Lines {
            texts,
            engine: kind(engine),
        })
    }

    /// Returns the texts of all lines, in order. Their concatenation is the output: each line ends with a line end.
    pub fn texts(&self) -> &[String]
        ensures { result.now ≡ self.now.texts.items }
    {
        self.texts.as_slice()
    }
}

fn kind(engine: DefaultEngine<'_>) -> EngineKind
    ensures { result ≡ kind_of engine.entry }
{
    match engine {
        DefaultEngine::Naive(_) => EngineKind::Naive,
        DefaultEngine::NoSimd(_) => EngineKind::NoSimd,
        DefaultEngine::Avx2(_) => EngineKind::Avx2,
        DefaultEngine::Ssse3(_) => EngineKind::Ssse3,
    }
}

// Encodes the originals, and returns a line for each recovery shard. Fails with the errors of `encode`, and then with
// `OutOfMemory`.
fn recovery_lines(
    alloc: Global,
    counts: Counts,
    original: &[Vec<u8>],
    engine: DefaultEngine<'_>,
) -> Result<Vec<String>, Error>
    ensures { let shards = map (λ v. v.items) original.now in
        OrLacksMemory (CodesLines counts.original counts.recovery shards) result }
{
    let shards = original.iter().map(|shard| shard.as_slice());
    let recovery = encode(alloc, counts.original, counts.recovery, shards, engine)?;
    let mut texts = Vec::new(alloc);
    for shard in &recovery {
        texts.push(line(alloc, shard.as_slice())?)?;
    }
    Ok(texts)
}

// Decodes the given shards, and returns a line for each restored original. Fails with the errors of `decode`, and then
// with `OutOfMemory`.
fn restored_lines(
    alloc: Global,
    counts: Counts,
    given: &GivenShards,
    engine: DefaultEngine<'_>,
) -> Result<Vec<String>, Error>
    ensures { OrLacksMemory (RestoresLines counts.original counts.recovery (given_items given.now))
        result }
{
    let original = given
        .original
        .iter()
        .map(|item| (item.0, item.1.as_slice()));
    let recovery = given
        .recovery
        .iter()
        .map(|item| (item.0, item.1.as_slice()));
    let restored = decode(
        alloc,
        counts.original,
        counts.recovery,
        original,
        recovery,
        engine,
    )?;
    indexed_lines(alloc, &restored)
}

// Returns a line for each shard of a map: the index, a blank, and the shard. Fails with `OutOfMemory`.
fn indexed_lines(alloc: Global, shards: &BTreeMap<usize, Vec<u8>>) -> Result<Vec<String>, Error>
    ensures { MatchResult result (λ texts. ListsShards (shards_in shards.now) (concatenation texts))
        (λ e. e ≡ Error.OutOfMemory) }
{
    let mut texts = Vec::new(alloc);
    for (index, shard) in shards {
        texts.push(format!(in alloc; "{index} ")?)?;
        texts.push(line(alloc, shard.as_slice())?)?;
    }
    Ok(texts)
}
