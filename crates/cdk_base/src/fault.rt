ghost use Rattle.std.specs.Prelude.{◌≡◌};
ghost use Rattle.cdk_base.specs.Faults.{fault_code};

use crate::{Code, Text};

/// Why a synthesis was refused.
#[derive(Drop)]
pub enum Fault {
    /// No memory was found.
    Memory,
    /// A fault of the application at a place: a JSON pointer or a construct's path.
    App { code: Code, place: Text },
    /// An aspect's refusal at a construct's path, with the aspect's name and its text.
    Refused { place: Text, name: Text, text: Text },
}

impl Fault {
    /// 0 for want of memory, 15 for an aspect's refusal, else the code's number.
    pub fn code(&self) -> u8
        ensures { result ≡ fault_code self.now }
    {
        match self {
            Fault::Memory => 0,
            Fault::App { code, .. } => code.number(),
            Fault::Refused { .. } => 15,
        }
    }
}
