// The template of a stack.
ghost use Rattle.std.specs.Prelude.{◌≡◌, ◌<◌, length, IfOk, OnOk};
ghost use Rattle.serde_json.specs.Data.{no_members, object};
ghost use Rattle.serde_json.specs.View.{members_view, view};
ghost use Rattle.cdk_template.specs.Markers.{IsTemplate};
ghost use Rattle.cdk_template.specs.Own.{spelling_of};
ghost use Rattle.cdk_template.specs.Sources.{AreSources, RendersOwn, SpellsOwn, constructs_in, scope_in};
ghost use Rattle.cdk_template.specs.Template.{template_of};

use crate::section::Section;
use crate::sections::put_section;
use crate::sources::{Sources, kept_for};
use cdk_base::{Code, Map, Value};
use cdk_entries::{holds_marker, put_description};
use cdk_resolve::Kept;
use cdk_tree::{Found, NodeId, PassError};
use std::alloc::AllocError;

fn put_sections(
    sections: &mut Map,
    sources: &Sources<'_>,
    kept: &mut Kept<'_>,
    stack: NodeId,
) -> Result<(), AllocError>
    requires within { stack < length (constructs_in sources.now) }
    requires sources { AreSources sources.now }
    requires kept { RendersOwn (constructs_in sources.now) kept.old }
    requires empty { members_view sections.old.entries ≡ no_members }
    ensures { OnOk result (object (members_view sections.new.entries) ≡ template_of (constructs_in sources.now) (spelling_of (constructs_in sources.now)) stack) }
{
    put_section(sections, sources, kept, stack, Section::Resources)?;
    put_section(sections, sources, kept, stack, Section::Parameters)?;
    put_section(sections, sources, kept, stack, Section::Outputs)?;
    put_section(sections, sources, kept, stack, Section::Mappings)?;
    put_description(sections, sources.alloc, &sources.tree.node(stack).kind)?;
    put_section(sections, sources, kept, stack, Section::Conditions)
}

fn sections_of(sources: &Sources<'_>, stack: NodeId) -> Result<Value, AllocError>
    requires within { stack < length (constructs_in sources.now) }
    requires sources { AreSources sources.now }
    requires own { SpellsOwn (constructs_in sources.now) (scope_in sources.now stack) }
    ensures { IfOk result (λ v. view v ≡ template_of (constructs_in sources.now) (spelling_of (constructs_in sources.now)) stack) }
{
    let mut kept = kept_for(sources, stack);
    let mut sections = Map::new(sources.alloc);
    put_sections(&mut sections, sources, &mut kept, stack)?;
    Ok(Value::Object(sections))
}

/// The CloudFormation template of a stack: its description where it isn't empty, and its conditions, mappings, outputs, parameters
/// and resources, each section where there are any, by their logical names. A resource has the path of its construct (AWS CDK's
/// metadata). References stand in it as the stack spells them, and each value is rendered once.
///
/// - `MarkerLeft` at the stack: the beginning of a token's marker stands in a text or a key of the template (own, after AWS CDK's
///   check of unresolved tokens).
/// - `Memory` where none is found.
///
/// It takes one pass over the tree for each section.
pub fn template(sources: &Sources<'_>, stack: NodeId) -> Result<Value, PassError>
    requires within { stack < length (constructs_in sources.now) }
    requires sources { AreSources sources.now }
    requires own { SpellsOwn (constructs_in sources.now) (scope_in sources.now stack) }
    ensures { IsTemplate result (constructs_in sources.now) stack }
{
    let template = match sections_of(sources, stack) {
        Ok(template) => template,
        Err(_) => return Err(PassError::Memory),
    };
    if holds_marker(&template) {
        return Err(PassError::Fault(Found {
            code: Code::MarkerLeft,
            at: stack,
        }));
    }
    Ok(template)
}
