//! Reads the command line.
use crate::arguments::{bytes_of, recovery_of};
use crate::forms::{COMMANDS, Choice, Form, Takes};
use crate::settings::{
    Action, MOST_VOLUMES, NO_OUTPUT, ONE_VOLUME, Request, STATUS_FAILED, STATUS_USAGE,
    STATUS_WHOLE, VERSION, WRONG_VOLUMES,
};
use clap::error::ErrorKind;
use clap::{Arg, ArgAction, ArgMatches, Command};
use rs_folders::failure::Result;
use rs_folders::names::front_of_volume;
use rs_volumes::checking::allows_block;
use std::alloc::{AllocError, Global};
use std::env;
use std::env::FillError;
use std::rt::Env;

/// A request, or the status with which the program ends at once.
#[derive(Drop)]
pub enum Parsed {
    /// The request to run.
    Run(Request),
    /// The exit status. The program has already printed the help text or the version.
    Stop(u8),
    /// The exit status of a wrong command line, and what is wrong. The program has already printed this on standard
    /// error.
    Wrong(u8, String),
}

fn command_of<'a>(alloc: Global, form: &Form) -> Result<Command<'a>, AllocError> {
    let (shown, help) = form.paths;
    let paths = Arg::new(alloc, "paths").value_name(shown).help(help);
    let mut args = Vec::new(alloc);
    args.push(paths.required(true).action(ArgAction::Append).num_args(1..))?;
    for choice in form.options {
        let Choice(name, letter, takes, help) = *choice;
        let mut arg = Arg::new(alloc, name).long(name).help(help);
        if let Some(letter) = letter {
            arg = arg.short(letter);
        }
        args.push(match takes {
            Takes::Nothing => arg.action(ArgAction::SetTrue),
            Takes::One(shown) => arg.value_name(shown).action(ArgAction::Set),
            Takes::Needed(shown) => arg.value_name(shown).required(true).action(ArgAction::Set),
            Takes::Many(shown) => arg.value_name(shown).action(ArgAction::Append),
        })?;
    }
    Command::new(alloc, form.name)
        .about(form.about)
        .after_help(form.after)
        .args(args)
}

fn program<'a>(alloc: Global) -> Result<Command<'a>, AllocError> {
    let mut commands = Vec::new(alloc);
    for form in COMMANDS {
        commands.push(command_of(alloc, &form)?)?;
    }
    let top = Command::new(alloc, "rs_files")
        .version(VERSION)
        .about("Protects files against damage, and spreads them over places")
        .subcommand_required(true)
        .arg_required_else_help(true);
    top.subcommands(commands)
}

/// Reads the words of the command line. `terminal` says whether standard error is a terminal.
///
/// # Errors
///
/// Fails if the words cannot be read, if a message cannot be printed, or if memory cannot be allocated.
pub fn read_words<R: Env + Print + Eprint + AllocGlobal>(rt: &R, terminal: bool) -> Result<Parsed> {
    let alloc = rt.alloc();
    let words: Vec<String> = env::args(rt)?.collect(alloc)?;
    match program(alloc)?.try_get_matches_from(words.as_slice()) {
        Ok(matches) => read_matches(rt, alloc, &matches, terminal),
        Err(error) => {
            error.print(rt)?;
            // The help text and the version are no error, and a lack of memory is no wrong command line.
            let status = match error.kind() {
                ErrorKind::OutOfMemory => STATUS_FAILED,
                _ if error.use_stderr() => STATUS_USAGE,
                _ => return Ok(Parsed::Stop(STATUS_WHOLE)),
            };
            let text = format!(in alloc; "{error}")?;
            Ok(Parsed::Wrong(status, String::from_str(alloc, text.as_str().trim_end())?))
        }
    }
}

/// Returns whether a word of the command line before `--` is `--json`. The command line may be wrong, and its words
/// need not be UTF-8.
pub fn wants_json<R: Env>(rt: &R) -> bool {
    let mut word = [0u8; 7];
    for index in 1..usize::MAX {
        match rt.arg(index, &mut word) {
            Ok(6) if word.starts_with(b"--json") => return true,
            Ok(2) if word.starts_with(b"--") => return false,
            Err(FillError::NotPresent) => return false,
            _ => {}
        }
    }
    false
}

fn read_matches<R: Eprint>(
    rt: &R,
    alloc: Global,
    matches: &ArgMatches<'_>,
    terminal: bool,
) -> Result<Parsed> {
    let fault = match matches.subcommand() {
        Some((name, inner)) => {
            let mut request = plain_request(alloc, name, inner, terminal)?;
            match set_values(&mut request, inner) {
                Ok(()) => return Ok(Parsed::Run(request)),
                Err(fault) => fault,
            }
        }
        None => "no command is given",
    };
    eprintln!(rt; "rs_files: {fault}")?;
    Ok(Parsed::Wrong(STATUS_USAGE, String::from_str(alloc, fault)?))
}

fn texts_of(
    alloc: Global,
    matches: &ArgMatches<'_>,
    name: &str,
) -> Result<Vec<String>, AllocError> {
    let mut copies = Vec::new(alloc);
    if let Some(texts) = matches.get_strs(name) {
        for text in texts {
            copies.push(String::from_str(alloc, text)?)?;
        }
    }
    Ok(copies)
}

// Returns a request in which the options that `set_values` reads have their defaults.
fn plain_request(
    alloc: Global,
    name: &str,
    matches: &ArgMatches<'_>,
    terminal: bool,
) -> Result<Request, AllocError> {
    let quiet = matches.get_flag("quiet");
    let action = match name {
        "create" => Action::Create,
        "split" => Action::Split,
        "update" => Action::Update,
        "verify" => Action::Verify,
        "repair" => Action::Repair,
        "restore" => Action::Restore,
        _ => Action::Info,
    };
    Ok(Request {
        action,
        paths: texts_of(alloc, matches, "paths")?,
        output: texts_of(alloc, matches, "output")?.pop(),
        to: texts_of(alloc, matches, "to")?.pop(),
        folder: texts_of(alloc, matches, "folder")?.pop(),
        search: texts_of(alloc, matches, "search")?,
        only: texts_of(alloc, matches, "only")?,
        accept: texts_of(alloc, matches, "accept")?,
        recovery: None,
        block_bytes: None,
        memory: 1 << 30,
        volumes: 0,
        lose: 1,
        quick: matches.get_flag("quick"),
        skip_names: matches.get_flag("skip-names"),
        json: matches.get_flag("json"),
        quiet,
        force: matches.get_flag("force") || name == "update",
        progress: terminal && !quiet,
    })
}

// Reads the options with numbers and `--progress`, and checks the request. The error says what is wrong.
fn set_values(request: &mut Request, matches: &ArgMatches<'_>) -> Result<(), &'static str> {
    if let Some(text) = matches.get_str("recovery") {
        let fault =
            "--recovery: write a percentage up to 10000%, as 10%, or a number of blocks above 0";
        request.recovery = Some(recovery_of(text).ok_or(fault)?);
    }
    if let Some(text) = matches.get_str("block") {
        match bytes_of(text) {
            Some(bytes) if allows_block(bytes) => request.block_bytes = Some(bytes),
            _ => {
                return Err("--block: write an even number of bytes from 2 to 2^40, as 4096 or 64K");
            }
        }
    }
    if let Some(text) = matches.get_str("memory") {
        let fault = "--memory: write a number of bytes, as 64M or 2G";
        request.memory = bytes_of(text).ok_or(fault)?;
    }
    match matches.get_str("progress") {
        None | Some("auto") => {}
        Some("always") => request.progress = true,
        Some("never") => request.progress = false,
        Some(_) => return Err("--progress: write auto, always or never"),
    }
    if let Some(text) = matches.get_str("volumes") {
        let count = text.parse::<u32>().unwrap_or(0);
        if count < 2 || count > MOST_VOLUMES {
            return Err(WRONG_VOLUMES);
        }
        request.volumes = count;
    }
    if let Some(text) = matches.get_str("lose") {
        let count = text.parse::<u32>().ok();
        request.lose = count.ok_or("--lose: write how many volumes may be lost")?;
    }
    check(request)
}

// Checks that the options fit each other, and that no path is empty. A shell gives an empty path if a variable is not
// set.
fn check(request: &Request) -> Result<(), &'static str> {
    if request.output.as_deref() == Some("") {
        return Err("--output: the path is empty");
    }
    if request.to.as_deref() == Some("") {
        return Err("--to: the path is empty");
    }
    if request.folder.as_deref() == Some("") {
        return Err("--folder: the path is empty");
    }
    for path in request.search.iter().chain(request.only.iter()) {
        if path.as_str().is_empty() {
            return Err("--search and --only: an empty text names nothing");
        }
    }
    match request.action {
        Action::Create
            if request.output.is_none() && front_of_volume(request.paths.as_slice()).is_none() => {
            Err(NO_OUTPUT)
        }
        Action::Split if request.lose == 0 || request.lose >= request.volumes => {
            Err("split: --lose must be at least 1, and below the number of volumes")
        }
        Action::Update if request.paths.len() > 1 => Err(ONE_VOLUME),
        Action::Verify if request.quick && !request.search.is_empty() => {
            Err("verify: --quick reads no file, so it looks for none with --search")
        }
        _ => Ok(()),
    }
}
