// The sections of a stack's template that hold constructs.
ghost use Rattle.std.specs.Prelude.{◌≡◌, ◌<◌, length, OnOk};
ghost use Rattle.serde_json.specs.Data.{no_members};
ghost use Rattle.serde_json.specs.View.{members_view};
ghost use Rattle.cdk_template.specs.Entries.{has_kind, with_entry, with_section};
ghost use Rattle.cdk_template.specs.Own.{spelling_of};
ghost use Rattle.cdk_template.specs.Sources.{AreSources, RendersOwn, constructs_in};
ghost use Rattle.cdk_template.specs.Template.{section_of};

use crate::counts::is_in;
use crate::entries::entry;
use crate::section::Section;
use crate::sources::Sources;
use cdk_base::Map;
use cdk_entries::{put_named, put_object_unless_empty};
use cdk_resolve::Kept;
use cdk_tree::NodeId;
use std::alloc::AllocError;

/// Puts the entry of the construct in where the section holds it.
fn put_entry(
    sources: &Sources<'_>,
    kept: &mut Kept<'_>,
    stack: NodeId,
    section: Section,
    at: NodeId,
    entries: &mut Map,
) -> Result<(), AllocError>
    requires within { at < length (constructs_in sources.now) }
    requires sources { AreSources sources.now }
    requires kept { RendersOwn (constructs_in sources.now) kept.old }
    ensures entries { OnOk result (members_view entries.new.entries ≡ with_entry (constructs_in sources.now) (spelling_of (constructs_in sources.now)) stack (has_kind section) at (members_view entries.old.entries)) }
    ensures kept { RendersOwn (constructs_in sources.now) kept.new }
{
    if !is_in(sources.tree, at, stack) || !section.holds(&sources.tree.node(at).kind) {
        return Ok(());
    }
    let entry = entry(sources, kept, at)?;
    put_named(entries, &sources.named(), at, entry)
}

fn put_entries(
    entries: &mut Map,
    sources: &Sources<'_>,
    kept: &mut Kept<'_>,
    stack: NodeId,
    section: Section,
) -> Result<(), AllocError>
    requires sources { AreSources sources.now }
    requires kept { RendersOwn (constructs_in sources.now) kept.old }
    requires empty { members_view entries.old.entries ≡ no_members }
    ensures entries { OnOk result (members_view entries.new.entries ≡ section_of (constructs_in sources.now) (spelling_of (constructs_in sources.now)) stack (has_kind section)) }
    ensures kept { OnOk result (RendersOwn (constructs_in sources.now) kept.new) }
{
    for number in 0..sources.tree.len() {
        let Some(at) = sources.tree.id(number) else {
            unreachable!()
        };
        put_entry(sources, kept, stack, section, at, entries)?;
    }
    Ok(())
}

/// Puts a section of the stack's template in, where the stack has constructs for it.
pub(crate) fn put_section(
    sections: &mut Map,
    sources: &Sources<'_>,
    kept: &mut Kept<'_>,
    stack: NodeId,
    section: Section,
) -> Result<(), AllocError>
    requires sources { AreSources sources.now }
    requires kept { RendersOwn (constructs_in sources.now) kept.old }
    ensures sections { OnOk result (members_view sections.new.entries ≡ with_section (constructs_in sources.now) (spelling_of (constructs_in sources.now)) stack section (members_view sections.old.entries)) }
    ensures kept { OnOk result (RendersOwn (constructs_in sources.now) kept.new) }
{
    let mut entries = Map::new(sources.alloc);
    put_entries(&mut entries, sources, kept, stack, section)?;
    put_object_unless_empty(sections, sources.alloc, section.key(), entries)
}
