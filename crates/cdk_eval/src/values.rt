// The values that templates are evaluated under.
ghost use Rattle.std.specs.Prelude.{◌≡◌, codes, option_map};
ghost use Rattle.serde_json.specs.View.{view};
ghost use Rattle.cdk_eval.specs.ValuesFile.{entry_of, values_of};
ghost use Rattle.cdk_eval.specs.Views.{values_view};

use cdk_base::{Text, Value};
use thiserror::Error;

/// Physical names, attributes, parameters, pseudo parameters and exports from outside, as a values file gives them.
#[derive(Drop)]
pub struct Values {
    document: Value,
}

/// Why a values file can't be used.
#[derive(Debug, Drop, Error)]
pub enum ValuesError {
    /// The bytes are no JSON text.
    #[error("the values are no JSON text")]
    NotJson,
    /// The values miss their form at the JSON Pointer.
    #[error("the values miss their form")]
    Shape { pointer: Text },
    /// No memory was found.
    #[error("out of memory")]
    Memory,
}

/// The entry of a stack's logical name.
fn entry_of<'a>(document: &'a Value, member: &str, stack: &str, logical: &str) -> Option<&'a Value>
    ensures { option_map (λ v. view v.now) result ≡ entry_of member.now (view document.now) stack.now logical.now }
{
    let stacks = document.get(member)?;
    let names = stacks.get(stack)?;
    names.get(logical)
}

impl Values {
    /// The values that a document gives. What it lacks of a values file's form gives no values.
    pub fn of_document(document: Value) -> Values
        ensures { values_view result ≡ values_of (view document) }
    {
        Values { document }
    }

    /// What `Ref` of a resource gives, by stack name and logical name.
    pub fn physical(&self, stack: &str, logical: &str) -> Option<&str>
        ensures { option_map (λ s. s.now) result ≡ (values_view self.now).physical stack.now logical.now }
    {
        let entry = entry_of(&self.document, "physical", stack, logical)?;
        entry.get("Ref")?.as_str()
    }

    /// What `Fn::GetAtt` of a resource gives, by stack name, logical name and attribute.
    pub fn attribute(&self, stack: &str, logical: &str, attribute: &str) -> Option<&str>
        ensures { option_map (λ s. s.now) result ≡ (values_view self.now).attribute stack.now logical.now attribute.now }
    {
        let entry = entry_of(&self.document, "physical", stack, logical)?;
        entry.get("GetAtt")?.get(attribute)?.as_str()
    }

    /// A parameter's value, by stack name and logical name.
    pub fn parameter(&self, stack: &str, logical: &str) -> Option<&str>
        ensures { option_map (λ s. s.now) result ≡ (values_view self.now).parameter stack.now logical.now }
    {
        entry_of(&self.document, "parameters", stack, logical)?.as_str()
    }

    /// A pseudo parameter's value, by its whole name.
    pub fn pseudo(&self, name: &str) -> Option<&str>
        ensures { option_map (λ s. s.now) result ≡ (values_view self.now).pseudo name.now }
    {
        self.document.get("pseudo")?.get(name)?.as_str()
    }

    /// An export from outside the assembly, by its name.
    pub fn export(&self, name: &str) -> Option<&str>
        ensures { option_map (λ s. s.now) result ≡ (values_view self.now).export name.now }
    {
        self.document.get("exports")?.get(name)?.as_str()
    }
}
