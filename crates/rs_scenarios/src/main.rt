//! Runs the cases of data files with each level of use. The words of the command line are the names of the files. A
//! comment at the top of each file explains the format.
//!
//! The program prints a line for each file and engine. It also prints a line for each action whose result is not the
//! expected one, with the file and the line of the action. If there is such an action, the exit status is 1.
#![tactic(auto)]

mod cases;
mod comparison;
mod further;
mod interpreter;
mod kept;
mod lending;
mod level;
mod levels;
mod message;
mod one_call;
mod plain;
mod rated;
mod reading;
mod report;
mod rooms;
mod watch;
mod words;

use anyhow::{Result, ensure};
use cases::{CaseFile, LEVELS, LevelName, Named, RATES};
use levels::Levels;
use reading::read_file;
use reed_solomon_simd::engine::tables::Tables;
use reed_solomon_simd::engine::{Avx2, DefaultEngine, Engine, EngineKind, Naive, NoSimd, Ssse3};
use report::Report;
use std::alloc::Global;
use std::{env, fs};
use watch::Watch;

// Runs a file's cases with levels of use. The levels of the rates work with `engine`, and the others with `chosen`.
fn run_over<E: Engine + Copy>(
    alloc: Global,
    file: &CaseFile,
    (engine, chosen, name): (E, DefaultEngine<'_>, &str),
    levels: &'static [Named<LevelName>],
    report: &mut Report,
) -> Result<()> {
    Ok(Levels::new(alloc, engine, chosen, levels)?.run(file, name, report)?)
}

// Runs a file's cases with each engine that can be chosen by name, or only with `ssse3`.
fn run_over_kinds(
    alloc: Global,
    file: &CaseFile,
    tables: &Tables,
    report: &mut Report,
) -> Result<()> {
    for (kind, name) in [
        (EngineKind::Naive, "naive"),
        (EngineKind::NoSimd, "nosimd"),
        (EngineKind::Avx2, "avx2"),
        (EngineKind::Ssse3, "ssse3"),
    ] {
        if file.every_engine || kind == EngineKind::Ssse3 {
            let engine = DefaultEngine::new(tables, kind);
            run_over(alloc, file, (engine, engine, name), &LEVELS, report)?;
        }
    }
    Ok(())
}

// Runs a file's cases with the objects of the rates over the type of each engine.
fn run_over_types(alloc: Global, file: &CaseFile, t: &Tables, report: &mut Report) -> Result<()> {
    let idle = DefaultEngine::new(t, EngineKind::Naive);
    run_over(alloc, file, (Naive::new(t), idle, "Naive"), &RATES, report)?;
    run_over(
        alloc,
        file,
        (NoSimd::new(t), idle, "NoSimd"),
        &RATES,
        report,
    )?;
    run_over(alloc, file, (Avx2::new(t), idle, "Avx2"), &RATES, report)?;
    run_over(alloc, file, (Ssse3::new(t), idle, "Ssse3"), &RATES, report)
}

// Runs the cases of a file with this name and these contents with each of its engines, and returns the report.
fn run_file(alloc: Global, name: String, text: &str, tables: &Tables) -> Result<Report> {
    let file = read_file(alloc, name.as_str(), text)?;
    let mut report = Report {
        file: name,
        text: String::new(alloc),
        differing: 0,
    };
    run_over_kinds(alloc, &file, tables, &mut report)?;
    if file.every_engine {
        run_over_types(alloc, &file, tables, &mut report)?;
    }
    Ok(report)
}

fn main(rt: HostRuntime) -> Result<()> {
    let alloc = rt.alloc();
    let watch = Watch::new(alloc);
    let tables = Tables::new(alloc)?;
    drop(watch);
    let mut differing = 0u64;
    let mut names = env::args(&rt)?;
    let _program = names.next();
    for name in names {
        let text = fs::read_to_string(&rt, name.as_str())?;
        let report = run_file(alloc, name, text.as_str(), &tables)?;
        rt.print(report.text.as_str())?;
        differing = differing.saturating_add(report.differing);
    }
    ensure!(differing == 0, "{differing} actions differ");
    Ok(())
}
