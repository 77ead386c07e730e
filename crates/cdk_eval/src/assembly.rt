// Assemblies that are evaluated, and why one can't be read.
ghost use Rattle.std.specs.Prelude.{◌≡◌};

use cdk_base::{List, Text, Value};
use thiserror::Error;

/// A stack's name and its template.
#[derive(Drop)]
pub struct StackIn {
    pub name: Text,
    pub template: Value,
}

/// The stacks of an assembly in evaluation order, those of its nested assemblies included.
#[derive(Drop)]
pub struct Assembly {
    stacks: List<StackIn>,
}

impl Assembly {
    /// The assembly of these stacks, evaluated in this order. What a template lacks of its form gives nothing: a section
    /// that is no object is empty.
    pub fn of_stacks(stacks: List<StackIn>) -> Assembly
        ensures { result.stacks ≡ stacks }
    {
        Assembly { stacks }
    }

    /// The names and templates in evaluation order. It takes no memory.
    pub fn stacks(&self) -> &[StackIn]
        ensures { result.now ≡ self.now.stacks }
    {
        self.stacks.as_slice()
    }
}

/// Why an assembly can't be read. `file` is the file as it is named to the reader, or a stack's name where templates
/// are given.
#[derive(Debug, Drop, Error)]
pub enum AsmError {
    /// A call to read the file failed.
    #[error("cannot read a file of the assembly")]
    ReadFault { file: Text },
    /// The file has over 268,435,456 bytes.
    #[error("a file of the assembly is too long")]
    TooLong { file: Text },
    /// The file's bytes are no JSON text.
    #[error("a file of the assembly is no JSON text")]
    NotJson { file: Text },
    /// The file misses its form at the JSON Pointer.
    #[error("a file of the assembly misses its form")]
    Shape { file: Text, pointer: Text },
    /// Stacks of the manifest depend on each other; the least artifact id that reaches itself.
    #[error("stacks of the assembly depend on each other")]
    Cycle { file: Text, artifact: Text },
    /// No memory was found.
    #[error("out of memory")]
    Memory,
}
