//! The whole program, as a function of the words and of two streams. It reads the words, encodes or decodes, and writes
//! the lines or the message of the fault.
ghost use Rattle.std.specs.Prelude.{◌≡◌, ◌≤◌, ℕ, List, ◌⊎◌, None, Err, IfOk, map, take, MatchResult};
ghost use Rattle.std.specs.Io.KnownBytes.{Appends};
ghost use Rattle.std.specs.String.{string_bytes};
ghost use Rattle.rs.specs.CommandLine.{request_of};
ghost use Rattle.rs.specs.Coding.{CodesAsAsked};
ghost use Rattle.rs.specs.Printed.{concatenation, Prints, Refuses, HasFault};
ghost use Rattle.rs.specs.Reported.{fault_message, Writes, IsCutShort};
ghost use Rattle.rs.specs.declared.fault.Fault.TheVariants.{Usage, Refused};

use crate::coding::Lines;
use crate::command::read_command;
use crate::fault::Fault;
use crate::stream::Stream;
use crate::writing::write_texts;
use reed_solomon_simd::Error;
use reed_solomon_simd::engine::DefaultEngine;
use reed_solomon_simd::engine::tables::Tables;
use std::alloc::Global;
use std::io::Write;

// Reads the words, makes the tables, and encodes or decodes as the words say. Fails with the first fault: of the words,
// then `OutOfMemory` for the tables, then of the shards.
fn answer(alloc: Global, words: &[String]) -> Result<Lines, Fault>
    ensures begun { request_of (take 4 (map string_bytes words.now)) ≡ None → result ≡ Err Usage }
    ensures answer { let given = map string_bytes words.now in
        MatchResult result (λ lines. Prints given (concatenation lines.texts)) (HasFault given) }
    ensures engine { IfOk result (λ lines. CodesAsAsked (map string_bytes words.now) lines.engine) }
{
    let command = read_command(alloc, words)?;
    let tables = Tables::new(alloc)?;
    let engine = DefaultEngine::new(&tables, command.engine);
    Ok(Lines::new(alloc, engine, &command)?)
}

/// Does what the words ask for, and returns the exit status.
///
/// The function reads all words, makes the tables, encodes or decodes in one call, makes every line, and only then
/// writes the first line.
///
/// - Status 0: all lines were written to `out`, and nothing to `err`.
/// - Status 1: the library refused the counts or the shards, or memory could not be allocated. The text of the error
///   was written to `err`, and nothing to `out`. If a write to `out` fails, the status is 1 as well. A failed write to
///   `err` does not change the status.
/// - Status 2: the words are not a valid command line. `usage` was written to `err`, and nothing to `out`.
///
/// If a write to a stream has failed before the call, nothing is stated of what is written to it.
///
/// The command, the engine and the counts are read before anything is allocated. If one of them is wrong, the status is
/// always 2.
pub fn run<O: Write, X: Write>(
    alloc: Global,
    words: &[String],
    out: &mut Stream<O>,
    err: &mut Stream<X>,
) -> u8
    ensures status { result ≤ 2 }
    ensures printed { result ≡ 0
        → (text : List ℕ) × Prints (map string_bytes words.now) text
        × Appends (O.contents out.old.writer) (O.contents out.new.writer) text }
    ensures quiet { result ≡ 0 → err.new ≡ err.old }
    ensures refused { result ≡ 1
        → ((e : Error) × Refuses (map string_bytes words.now) e × (out.new ≡ out.old)
        × Writes X.contents err.old err.new (fault_message (Refused e)))
        ⊎ ((text : List ℕ) × Prints (map string_bytes words.now) text × (err.new ≡ err.old)
        × IsCutShort O.contents out.old out.new text) }
    ensures begun { request_of (take 4 (map string_bytes words.now)) ≡ None → result ≡ 2 }
    ensures usage { result ≡ 2
        → (request_of (map string_bytes words.now) ≡ None) × (out.new ≡ out.old)
        × Writes X.contents err.old err.new (fault_message Usage) }
{
    match answer(alloc, words) {
        Ok(lines) if write_texts(out, lines.texts()) => 0,
        Ok(_) => 1,
        Err(fault) => {
            let _ = fault.report(alloc, err);
            fault.status()
        }
    }
}
