// Names of elements, exports and stacks.
use cdk_names::{export_name, is_logical, is_stack_name, unique_id};
use cdk_tally::{Tally, texts_of};
use std::alloc::{AllocError, Global};

const COMPONENTS: [&str; 2] = ["MyBucket", "Resource"];

/// Tries a name of each kind.
pub fn try_names(alloc: Global, tally: &mut Tally) -> Result<(), AllocError> {
    let components = texts_of(alloc, &COMPONENTS)?;
    let id = unique_id(components.as_slice());
    drop(components);
    let id = match &id {
        Some(id) => id.as_str(),
        None => "no name",
    };
    tally.compare("a unique id", "MyBucketF68F3FF0", id)?;
    let export = export_name("Data", "ExportsOutputRefQ");
    tally.compare("an export", "Data:ExportsOutputRefQ", export.as_str())?;
    let logical = is_logical("MyBucketF68F3FF0") && !is_logical("1A");
    let stack = is_stack_name("Prod-Api") && !is_stack_name("-Api");
    tally.note_each(&[("logical names", logical), ("stack names", stack)])
}
