//! The levels of use over one engine. They run the cases of a file.
use crate::cases::{Action, Case, CaseFile, LevelName, Line, Named, Step, Way};
use crate::comparison::{is_expected, text_of};
use crate::interpreter::{Returned, act};
use crate::kept::Kept;
use crate::one_call::OneCall;
use crate::plain::Plain;
use crate::rated::Rated;
use crate::report::Report;
use anyhow::Result;
use reed_solomon_simd::engine::{DefaultEngine, Engine};
use reed_solomon_simd::rate::{DefaultRate, HighRate, LowRate};
use std::alloc::{AllocError, Global};

/// All levels of use. The levels of the rates work with any engine. The other levels work with an engine that is chosen
/// by name.
#[derive(Drop)]
pub struct Levels<'t, E: Engine> {
    /// The levels that are run.
    levels: &'static [Named<LevelName>],
    alloc: Global,
    one_call: OneCall<'t>,
    plain: Plain<'t>,
    low: Rated<E, LowRate<E>>,
    high: Rated<E, HighRate<E>>,
    default: Rated<E, DefaultRate<E>>,
}

impl<'t, E: Engine + Copy> Levels<'t, E> {
    /// Makes all levels. `levels` are those that run cases.
    ///
    /// # Errors
    ///
    /// [`Error::OutOfMemory`](reed_solomon_simd::Error::OutOfMemory) if the objects of a level cannot be allocated.
    pub fn new(
        alloc: Global,
        engine: E,
        chosen: DefaultEngine<'t>,
        levels: &'static [Named<LevelName>],
    ) -> Result<Levels<'t, E>> {
        Ok(Levels {
            levels,
            alloc,
            one_call: OneCall::new(alloc, chosen),
            plain: Plain::new(alloc, chosen)?,
            low: Rated::new(alloc, engine)?,
            high: Rated::new(alloc, engine)?,
            default: Rated::new(alloc, engine)?,
        })
    }

    /// Runs the cases of a file in each way of the file. Then writes into the report how many cases each level has run.
    ///
    /// # Errors
    ///
    /// [`AllocError`] if memory for the report cannot be allocated.
    pub fn run(
        &mut self,
        file: &CaseFile,
        engine: &str,
        report: &mut Report,
    ) -> Result<(), AllocError> {
        for way in &file.ways {
            self.run_in(way, file, report)?;
        }
        report.summarize(file, engine, self.levels)
    }

    // Runs the cases of a file in one way.
    fn run_in(
        &mut self,
        way: &'static Named<Way>,
        file: &CaseFile,
        report: &mut Report,
    ) -> Result<(), AllocError> {
        for case in &file.cases {
            self.run_case(way, case, report)?;
        }
        Ok(())
    }

    // Runs a case with each of its levels that is in `levels`.
    fn run_case(
        &mut self,
        way: &'static Named<Way>,
        case: &Case,
        report: &mut Report,
    ) -> Result<(), AllocError> {
        for level in self.levels {
            if case.is_by(level) {
                self.run_by(level, way, case, report)?;
            }
        }
        Ok(())
    }

    // Runs the lines of a case with a level. After a line `by LEVEL`, the next actions are run with that level. If an
    // action unexpectedly fails with `OutOfMemory`, only the `else` actions directly after this action are run.
    // Otherwise the `else` actions are left out.
    fn run_by(
        &mut self,
        first: &'static Named<LevelName>,
        way: &'static Named<Way>,
        case: &Case,
        report: &mut Report,
    ) -> Result<(), AllocError> {
        let mut kept = Kept::new(self.alloc, way);
        let mut level = first;
        let mut lacking = false;
        for line in &case.lines {
            match line {
                Line::By(next) => level = *next,
                Line::Step(step) if lacking && !step.is_else => break,
                Line::Step(step) if !lacking && step.is_else => {}
                Line::Step(step) => {
                    let lacks = self.run_step(level, &mut kept, step, report)?;
                    lacking = lacking || lacks;
                }
            }
        }
        Ok(())
    }

    // Runs an action with a level, and writes into the report if its outcome is not the expected one. Returns whether
    // the action failed with `OutOfMemory` although this was not expected.
    fn run_step(
        &mut self,
        level: &'static Named<LevelName>,
        kept: &mut Kept,
        step: &Step,
        report: &mut Report,
    ) -> Result<bool, AllocError> {
        kept.left = (0, 0);
        let outcome = self.act_by(&level.1, kept, &step.action);
        if is_expected(kept, &outcome, step)? {
            return Ok(false);
        }
        let text = text_of(kept, &outcome)?;
        report.differ(level, kept, step, text.as_str())?;
        Ok(outcome.is_err() && text.as_str() == "out of memory")
    }

    // Runs an action with a level.
    fn act_by(
        &mut self,
        level: &'static LevelName,
        kept: &mut Kept,
        action: &Action,
    ) -> Result<Returned> {
        match level {
            LevelName::OneCall(form) => {
                self.one_call.form = form;
                act(&mut self.one_call, kept, action)
            }
            LevelName::Plain => act(&mut self.plain, kept, action),
            LevelName::Low => act(&mut self.low, kept, action),
            LevelName::High => act(&mut self.high, kept, action),
            LevelName::Default => act(&mut self.default, kept, action),
        }
    }
}
