//! The interpreter, which runs one action of a case with a level of use.
use crate::cases::{Action, Configuration, Given, Object, Role, Rule, Shard, Shards, Way};
use crate::kept::{Kept, Works};
use crate::level::{Answer, Level};
use crate::message::{digest_of, message};
use anyhow::{Context, Result, bail, ensure};
use reed_solomon_simd::Error;
use reed_solomon_simd::rate::{DecoderWork, EncoderWork};
use std::{mem, slice};

/// The value that an action has returned.
#[derive(Drop)]
pub enum Returned {
    /// The action returns no shards and no digest.
    Nothing,
    /// The shards that are kept as the result of this object.
    Shards(Object),
    /// A digest in hexadecimal digits.
    Digest(String),
}

/// Runs an action with a level of use, and returns what the calls of the action return.
///
/// # Errors
///
/// Fails with the error of the library if a call fails. The action `configure` fails with this error if all its calls
/// fail with the same error. Also fails if a call did something else than the action requires. The text then says what.
pub fn act<C: Level>(level: &mut C, kept: &mut Kept, action: &Action) -> Result<Returned> {
    match action {
        Action::Start(object, configuration) => {
            level.obtain(*object, *configuration, Some(&mut kept.works))?;
        }
        Action::Reset(object, configuration) => level.obtain(*object, *configuration, None)?,
        Action::TakeApart => level.take_works(&mut kept.works)?,
        Action::EmptyWorks => {
            kept.works.encoder = Some(EncoderWork::default());
            kept.works.decoder = Some(DecoderWork::default());
        }
        Action::Give(given) => give_all(level, kept, given)?,
        Action::Round(object, given) => {
            round(level, kept, *object, given)?;
            return Ok(Returned::Shards(*object));
        }
        Action::Rounds(object, configuration, given) => {
            obtain(level, kept, *object, *configuration)?;
            two_rounds(level, kept, *object, given)?;
            return Ok(Returned::Shards(*object));
        }
        Action::Forget => kept.forgets = true,
        Action::Make(configuration, rule) => make(level, kept, *configuration, rule)?,
        Action::Digest => {
            let digest = digest_of(kept.alloc, kept.recovery.as_slice())?;
            return Ok(Returned::Digest(digest));
        }
        Action::Counts(supported, pairs) => check_counts(level, pairs, *supported)?,
        Action::Configure(configuration) => configure(level, *configuration)?,
    }
    Ok(Returned::Nothing)
}

/// Returns the shards that a word names. If the word names indexes, these are indexes of `kept`. Returns `None` if
/// `kept` does not have all of them, or if the word names no shards.
pub fn named<'a>(shards: &'a Shards, kept: &'a [Shard]) -> Option<&'a [Shard]> {
    match shards {
        Shards::Written(shard) => Some(slice::from_ref(shard)),
        Shards::Range(start, end) => kept.get(*start..*end),
        Shards::End => None,
    }
}

// Gives all shards of an action to the level.
fn give_all<C: Level>(level: &mut C, kept: &Kept, given: &[Given]) -> Result<()> {
    for (role, shards) in given {
        give(level, kept, role, shards)?;
    }
    Ok(())
}

// Gives the shards of a word to the level. If the word has a range of indexes, it names originals of the message, or
// recovery shards of the last result.
fn give<C: Level>(level: &mut C, kept: &Kept, role: &Role, shards: &Shards) -> Result<()> {
    if matches!(shards, Shards::End) {
        return Ok(level.give(role, None)?);
    }
    let source = match role {
        Role::Next | Role::Original => kept.message.as_slice(),
        Role::Recovery => kept.recovery.as_slice(),
    };
    for shard in named(shards, source).context("no such shards are kept")? {
        level.give(role, Some(shard))?;
    }
    Ok(())
}

// Gives shards, and encodes or decodes.
fn round<C: Level>(level: &mut C, kept: &mut Kept, object: Object, given: &[Given]) -> Result<()> {
    give_all(level, kept, given)?;
    level.run(object, kept)
}

// Makes or resets the object, in the way in which the case is run.
fn obtain<C: Level>(
    level: &mut C,
    kept: &mut Kept,
    object: Object,
    configuration: Configuration,
) -> Answer {
    match kept.way.1 {
        Way::New => level.obtain(object, configuration, Some(&mut Works::NONE)),
        Way::Reset => level.obtain(object, configuration, None),
        Way::HandedOn => {
            level.take_works(&mut kept.works)?;
            level.obtain(object, configuration, Some(&mut kept.works))
        }
    }
}

// Runs the round twice with an object, and then gives the first shards to the object again. Fails if the two rounds
// return different shards.
fn two_rounds<C: Level>(
    level: &mut C,
    kept: &mut Kept,
    object: Object,
    given: &[Given],
) -> Result<()> {
    round(level, kept, object, given)?;
    let empty = Vec::new(kept.alloc);
    let first = match object {
        Object::Encoder => mem::replace(&mut kept.recovery, empty),
        Object::Decoder => mem::replace(&mut kept.restored, empty),
    };
    round(level, kept, object, given)?;
    ensure!(
        kept.result(object) == first.as_slice(),
        "the second round returns other shards"
    );
    give_all(level, kept, given.get(..1).unwrap_or(given))
}

// Encodes a message that is made by a rule. Keeps the message and its recovery shards.
fn make<C: Level>(
    level: &mut C,
    kept: &mut Kept,
    configuration: Configuration,
    rule: &Rule,
) -> Result<()> {
    let (count, _, size) = configuration;
    kept.message = message(kept.alloc, rule, count, size)?;
    obtain(level, kept, Object::Encoder, configuration)?;
    let all = (Role::Next, Shards::Range(0, count));
    round(level, kept, Object::Encoder, slice::from_ref(&all))
}

// Checks that the counts of all these configurations are supported, or that none of them is.
fn check_counts<C: Level>(
    level: &C,
    configurations: &[Configuration],
    supported: bool,
) -> Result<()> {
    for (original_count, recovery_count, size) in configurations {
        let unsupported = Error::UnsupportedShardCount {
            original_count: *original_count,
            recovery_count: *recovery_count,
        };
        let answer = if supported { Ok(()) } else { Err(unsupported) };
        let tells = level.tells((*original_count, *recovery_count, *size), answer);
        ensure!(tells, "not {original_count}+{recovery_count}");
    }
    Ok(())
}

// Checks that every call that takes a configuration fails with the same error. Then fails with this error itself. The
// calls do not change the objects.
fn configure<C: Level>(level: &mut C, configuration: Configuration) -> Result<()> {
    let answers = [
        level.obtain(Object::Encoder, configuration, Some(&mut Works::NONE)),
        level.obtain(Object::Decoder, configuration, Some(&mut Works::NONE)),
        level.obtain(Object::Encoder, configuration, None),
        level.obtain(Object::Decoder, configuration, None),
    ];
    let Err(error) = answers[0] else {
        bail!("not refused");
    };
    for answer in answers {
        match answer {
            Ok(()) => bail!("not refused"),
            Err(other) => ensure!(other == error, "{error}, and then {other}"),
        }
    }
    ensure!(
        level.tells(configuration, Err(error)),
        "not so by other calls"
    );
    Err(error.into())
}
