// A step of writing, with its line.
ghost use Rattle.std.specs.Prelude.{◌≡◌, IfOk};
ghost use Rattle.cdk_write.specs.Lines.{write_line};

use crate::lines::write_text;
use cdk_base::Text;
use std::alloc::{AllocError, Global};

/// What a step does to its path.
#[derive(Drop)]
pub enum Action<'a> {
    /// Makes the directory, or leaves the one that is there.
    MakeDirectory,
    /// Takes the file out, if it is there.
    Remove,
    /// Sets the file to the bytes.
    Put(&'a [u8]),
}

/// One call that writing makes, with the line that is said where the call fails.
#[derive(Drop)]
pub struct Step<'a> {
    pub action: Action<'a>,
    pub path: Text,
    pub line: Text,
    ghost line_is: { line ≡ write_line path },
}

impl<'a> Step<'a> {
    ghost use Rattle.cdk_write.specs.Steps.{step_of, step_view};

    /// The step, with its line. Only memory can be wanting.
    pub fn new(alloc: Global, action: Action<'a>, path: Text) -> Result<Step<'a>, AllocError>
        ensures { IfOk result (λ step. step_view step ≡ step_of action.entry path) }
    {
        let line = write_text(alloc, path.as_str())?;
        Ok(Step { action, path, line })
    }
}
