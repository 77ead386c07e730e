//! Worked cases of the crates below the tool: documents and trees by their first fault, applications by what each pass over
//! their tree tells, and single calls. A program runs them, whose folder has the files of their rows.
#![tactic(auto)]

mod calls;
mod chains;
mod checking;
mod faults;
mod lazies;
mod look_ups;
mod markers;
mod names;
mod outside;
mod passes;
mod rendering;
mod settings;
mod spellings;
mod streams;
mod texts;
mod tokens;

use crate::calls::try_calls;
use crate::passes::Pass;
use cdk_outside::Files;
use cdk_tally::{Tally, Trouble, try_group};
use std::alloc::Global;

// The groups of rows, in their order.
const PASSES: [Pass; 7] = [
    Pass::Reading,
    Pass::Targets,
    Pass::Marking,
    Pass::Ordering,
    Pass::Sizing,
    Pass::Rendering,
    Pass::Keeping,
];

/// Tries each group of rows whose file the source has, and then the single calls. `Memory` where no memory is found,
/// `Data` where a file can't be read or a row misses its form.
pub fn try_pass_cases<F: Files>(
    alloc: Global,
    source: &mut F,
    tally: &mut Tally,
) -> Result<(), Trouble> {
    for pass in &PASSES {
        try_group(alloc, source, pass, tally)?;
    }
    Ok(try_calls(alloc, tally)?)
}
