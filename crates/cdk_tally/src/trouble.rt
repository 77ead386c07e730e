// Why no case can be run.
use cdk_outside::ReadError;
use std::alloc::AllocError;

/// What keeps the cases from being run.
#[derive(Drop)]
pub enum Trouble {
    /// No memory was found.
    Memory,
    /// A file of `data/` can't be read or misses its form.
    Data,
}

impl Trouble {
    /// The line that tells it.
    pub fn text(&self) -> &'static str {
        match self {
            Trouble::Memory => "out of memory\n",
            Trouble::Data => "a file of the cases misses its form\n",
        }
    }
}

impl From<AllocError> for Trouble {
    fn from(_: AllocError) -> Self {
        Trouble::Memory
    }
}

impl From<ReadError> for Trouble {
    fn from(error: ReadError) -> Self {
        match error {
            ReadError::Memory => Trouble::Memory,
            ReadError::TooLong | ReadError::Failed => Trouble::Data,
        }
    }
}
