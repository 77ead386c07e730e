// What came of a run, beside what its case says.
use crate::content::content;
use crate::members::{number_member, object_member};
use crate::world::World;
use cdk_base::{Map, Value};
use cdk_memory::MemFiles;
use cdk_outside::Files;
use cdk_tally::Trouble;
use cdk_words::Status;
use std::alloc::Global;

// Whether a stream holds the text that the case has by the key.
fn has_written<F: Files>(
    alloc: Global,
    source: &mut F,
    case: &Value,
    key: &str,
    bytes: &[u8],
) -> Result<bool, Trouble> {
    let rule = case.get(key).unwrap_or(&Value::Null);
    let want = content(alloc, source, rule)?;
    Ok(want.as_bytes() == bytes)
}

// Whether a file stands so, or is absent where the rule is null.
fn file_holds<F: Files>(
    alloc: Global,
    source: &mut F,
    rule: &Value,
    stands: Option<&[u8]>,
) -> Result<bool, Trouble> {
    if rule.is_null() {
        return Ok(stands.is_none());
    }
    let want = content(alloc, source, rule)?;
    Ok(stands == Some(want.as_bytes()))
}

// Whether each file of the rules stands so.
fn files_hold<F: Files>(
    alloc: Global,
    source: &mut F,
    rules: &Map,
    files: &MemFiles,
) -> Result<bool, Trouble> {
    for (name, rule) in rules {
        if !file_holds(alloc, source, rule, files.get(name.as_str()))? {
            return Ok(false);
        }
    }
    Ok(true)
}

// Whether the directory stands where the case says so.
fn directory_holds(case: &Value, files: &MemFiles) -> bool {
    match case.get("directory").and_then(Value::as_bool) {
        Some(directory) => files.has_dir("out") == directory,
        None => true,
    }
}

// What is wrong with the streams, or an empty text.
fn streams_miss<F: Files>(
    alloc: Global,
    source: &mut F,
    case: &Value,
    world: &World,
) -> Result<&'static str, Trouble> {
    if !has_written(alloc, source, case, "out", world.out.bytes())? {
        return Ok("another output");
    }
    if !has_written(alloc, source, case, "err", world.err.bytes())? {
        return Ok("another line of errors");
    }
    Ok("")
}

// What is wrong with the files, or an empty text.
fn files_miss<F: Files>(
    alloc: Global,
    source: &mut F,
    case: &Value,
    files: &MemFiles,
) -> Result<&'static str, Trouble> {
    let rules = object_member(case, "then")?;
    if !files_hold(alloc, source, rules, files)? {
        return Ok("other files");
    }
    if !directory_holds(case, files) {
        return Ok("another directory");
    }
    Ok("")
}

/// What is wrong after the run of a case, or an empty text.
pub fn miss<F: Files>(
    alloc: Global,
    source: &mut F,
    case: &Value,
    world: &World,
    status: Status,
) -> Result<&'static str, Trouble> {
    if status.number() as u64 != number_member(case, "status")? {
        return Ok("another status");
    }
    let missed = streams_miss(alloc, source, case, world)?;
    if !missed.is_empty() {
        return Ok(missed);
    }
    files_miss(alloc, source, case, &world.files)
}
