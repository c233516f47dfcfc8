//! Reads data files into cases. A comment at the top of each data file explains the format.
use crate::cases::{
    Action, Case, CaseFile, Expected, LEVELS, Left, Line, Named, Object, Rule, Step, WAYS,
};
use crate::words::{configuration, given, pairs};
use anyhow::{Context, Result, bail};
use std::alloc::Global;

/// Reads the cases of a file. `name` is the name of the file, and `text` is its contents.
///
/// # Errors
///
/// Fails at the first line that cannot be read. The message has the name of the file, the number of the line, and what
/// is wrong. Also fails if memory cannot be allocated.
pub fn read_file(alloc: Global, name: &str, text: &str) -> Result<CaseFile> {
    let mut file = CaseFile {
        ways: entries_named(alloc, &WAYS, "new")?,
        every_engine: false,
        cases: Vec::new(alloc),
    };
    let mut number = 0usize;
    for line in text.lines() {
        number = number.saturating_add(1);
        if let Err(fault) = read_line(alloc, &mut file, number, line.trim()) {
            bail!("{name}:{number}: {fault}");
        }
    }
    Ok(file)
}

// Returns the entries of a table that words name.
fn entries_named<'a, T>(
    alloc: Global,
    table: &'a [Named<T>],
    words: &str,
) -> Result<Vec<&'a Named<T>>> {
    let mut entries: Vec<&'a Named<T>> = Vec::new(alloc);
    for word in words.split_whitespace() {
        let entry = entry_named(table, word)?;
        entries.push(entry)?;
    }
    Ok(entries)
}

// Returns the entry of a table that has this name.
fn entry_named<'a, T>(table: &'a [Named<T>], name: &str) -> Result<&'a Named<T>> {
    for entry in table {
        if entry.0 == name {
            return Ok(entry);
        }
    }
    bail!("there is no such level of use, or no such way")
}

// Reads a line of a file. The line is empty, a comment, a setting of the file, the first line of a case with the levels
// of the case, or a further line of the last case.
fn read_line(alloc: Global, file: &mut CaseFile, number: usize, text: &str) -> Result<()> {
    if text.is_empty() || text.starts_with('#') {
        return Ok(());
    }
    if text == "every engine" {
        file.every_engine = true;
        return Ok(());
    }
    if let Some(ways) = text.strip_prefix("ways ") {
        file.ways = entries_named(alloc, &WAYS, ways)?;
        return Ok(());
    }
    let (levels, line) = text.split_once(" | ").unwrap_or(("", text));
    if !levels.is_empty() {
        file.cases.push(Case {
            levels: entries_named(alloc, &LEVELS, levels)?,
            lines: Vec::new(alloc),
        })?;
    }
    let case = file.cases.last_mut();
    let case = case.context("the action is before the first case")?;
    case.lines.push(read_case_line(alloc, number, line)?)?;
    Ok(())
}

// Reads a line of a case: `by LEVEL`, or an action, which may be after the word `else`, and its expected result after
// an arrow.
fn read_case_line(alloc: Global, line: usize, text: &str) -> Result<Line> {
    if let Some(level) = text.strip_prefix("by ") {
        return Ok(Line::By(entry_named(&LEVELS, level)?));
    }
    let (is_else, rest) = match text.strip_prefix("else ") {
        Some(rest) => (true, rest),
        None => (false, text),
    };
    let (text, result) = rest.split_once("->").unwrap_or((rest, ""));
    let words: Vec<&str> = text.split_whitespace().collect(alloc)?;
    let action = read_action(alloc, &words)?;
    let (result, left) = read_left(result.trim())?;
    Ok(Line::Step(Step {
        line,
        text: String::from_str(alloc, text)?,
        is_else,
        expected: read_expected(alloc, &action, result)?,
        action,
        left,
    }))
}

// Reads the words of an action: its name, and the words after it.
fn read_action(alloc: Global, words: &[&str]) -> Result<Action> {
    let encoder = Object::Encoder;
    let decoder = Object::Decoder;
    Ok(match words {
        ["encoder", k, r, size] => Action::Start(encoder, configuration(k, r, size)?),
        ["decoder", k, r, size] => Action::Start(decoder, configuration(k, r, size)?),
        ["reset-encoder", k, r, size] => Action::Reset(encoder, configuration(k, r, size)?),
        ["reset-decoder", k, r, size] => Action::Reset(decoder, configuration(k, r, size)?),
        ["configure", k, r, size] => Action::Configure(configuration(k, r, size)?),
        ["makes", k, r, size, rule @ ..] => Action::Make(
            configuration(k, r, size)?,
            read_rule(rule)?,
        ),
        ["give", shards @ ..] => Action::Give(given(alloc, shards)?),
        ["encode"] => Action::Round(encoder, Vec::new(alloc)),
        ["decode"] => Action::Round(decoder, Vec::new(alloc)),
        ["code", shards @ ..] => Action::Round(encoder, given(alloc, shards)?),
        ["restore", shards @ ..] => Action::Round(decoder, given(alloc, shards)?),
        ["encodes", k, r, size, shards @ ..] => {
            Action::Rounds(encoder, configuration(k, r, size)?, given(alloc, shards)?)
        }
        ["decodes", k, r, size, shards @ ..] => {
            Action::Rounds(decoder, configuration(k, r, size)?, given(alloc, shards)?)
        }
        ["supports", counts @ ..] => Action::Counts(true, pairs(alloc, counts)?),
        ["excludes", counts @ ..] => Action::Counts(false, pairs(alloc, counts)?),
        ["parts"] => Action::TakeApart,
        ["empty-parts"] => Action::EmptyWorks,
        ["forget"] => Action::Forget,
        ["digest"] => Action::Digest,
        _ => bail!("there is no such action with these words"),
    })
}

// Reads the rule of a message: its name, and then the seed or the first word.
fn read_rule(words: &[&str]) -> Result<Rule> {
    Ok(match words {
        ["counted"] => Rule::Counted,
        ["drawn", seed] => Rule::Drawn(seed.parse()?),
        ["points", from] => Rule::Points(from.parse()?),
        _ => bail!("there is no such rule"),
    })
}

// Splits `, N and N left` off the end of an expected result, and reads the two numbers. Without such an end, nothing is
// left.
fn read_left(text: &str) -> Result<(&str, Left)> {
    let Some(rest) = text.strip_suffix(" left") else {
        return Ok((text, (0, 0)));
    };
    let form = "what is left is written N and N left";
    let (result, counts) = rest.rsplit_once(", ").context(form)?;
    let (originals, recoveries) = counts.split_once(" and ").context(form)?;
    Ok((result, (originals.parse()?, recoveries.parse()?)))
}

// Reads an expected result: the text of an error, a digest, or shards. The text of an error has a letter that is no
// hexadecimal digit.
fn read_expected(alloc: Global, action: &Action, text: &str) -> Result<Expected> {
    let is_message = text
        .bytes()
        .any(|byte| byte.is_ascii_lowercase() && byte > b'f');
    if is_message || matches!(action, Action::Digest) {
        return Ok(Expected::Text(String::from_str(alloc, text)?));
    }
    let words: Vec<&str> = text.split_whitespace().collect(alloc)?;
    Ok(Expected::Shards(given(alloc, &words)?))
}
