//! Runs the worked cases: those of the crates below the tool, and then the tool over files and streams in memory:
//! applications that `synth` refuses, by their fault; expressions, by what a template holds for them and by what that comes
//! to; and whole runs of both commands. It prints each case that comes out otherwise, and how many there were.
#![tactic(auto)]

mod applications;
mod content;
mod expressions;
mod members;
mod outcome;
mod runs;
mod words;
mod world;

use crate::applications::Applications;
use crate::expressions::Expressions;
use crate::runs::try_runs;
use cdk_outside::{DiskFiles, Files, StdSink};
use cdk_pass_cases::try_pass_cases;
use cdk_tally::{Tally, Trouble, print, try_group};
use std::alloc::Global;
use std::process::ExitCode;

// Tries the rows of expressions, each in the application of `data/`.
fn try_expressions<F: Files>(
    alloc: Global,
    source: &mut F,
    tally: &mut Tally,
) -> Result<(), Trouble> {
    let expressions = Expressions::new(alloc, source)?;
    try_group(alloc, source, &expressions, tally)
}

fn try_groups<F: Files>(alloc: Global, source: &mut F, tally: &mut Tally) -> Result<(), Trouble> {
    try_pass_cases(alloc, source, tally)?;
    try_group(alloc, source, &Applications, tally)?;
    try_expressions(alloc, source, tally)?;
    try_runs(alloc, source, tally)
}

// The lines of all cases' outcomes.
fn outcomes<F: Files>(alloc: Global, source: &mut F) -> Result<String, Trouble> {
    let mut tally = Tally::new(alloc);
    try_groups(alloc, source, &mut tally)?;
    Ok(tally.into_text())
}

fn main(rt: HostRuntime) -> ExitCode {
    let alloc = rt.alloc();
    let mut out = StdSink::new(rt.stdout());
    let outcomes = outcomes(alloc, &mut DiskFiles::new(rt));
    print(&mut out, &outcomes)
}
