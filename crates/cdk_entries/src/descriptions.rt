// The description of a template.
ghost use Rattle.std.specs.Prelude.{◌≡◌, codes, OnOk};
ghost use Rattle.serde_json.specs.View.{members_view};
ghost use Rattle.cdk_language.specs.Construct.{kind_view};
ghost use Rattle.cdk_entries.specs.Entries.{description_of};
ghost use Rattle.cdk_entries.specs.Members.{non_empty, put_given};

use crate::members::put_text_unless_empty;
use cdk_base::Map;
use cdk_language::Kind;
use std::alloc::{AllocError, Global};

/// Puts the description of a stack in, where it isn't empty.
pub fn put_description(sections: &mut Map, alloc: Global, kind: &Kind) -> Result<(), AllocError>
    ensures { OnOk result (members_view sections.new.entries ≡ put_given (codes "Description") (non_empty (description_of (kind_view kind.now))) (members_view sections.old.entries)) }
{
    match kind {
        Kind::Stack {
            description: Some(text),
        } => put_text_unless_empty(sections, alloc, "Description", text.as_str()),
        _ => Ok(()),
    }
}
