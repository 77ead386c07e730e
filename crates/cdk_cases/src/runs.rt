// Whole runs of the tool: the status, both streams, and what stands afterwards.
use crate::content::content;
use crate::members::{items_of, member, object_member, parsed, text_member};
use crate::outcome::miss;
use crate::words::words_of;
use crate::world::World;
use cdk_base::Value;
use cdk_memory::MemFiles;
use cdk_outside::Files;
use cdk_tally::{Tally, Trouble, text_of_file};
use cdk_words::Status;
use std::alloc::Global;

// Which file of a case is cut, and how many bytes are left of it.
#[derive(Clone, Copy)]
struct Cut<'a> {
    file: &'a str,
    length: usize,
}

// The bytes of a file's text, those that are left where it is the one that is cut.
fn bytes_left<'a>(text: &'a str, name: &str, cut: Option<Cut>) -> Result<&'a [u8], Trouble> {
    let bytes = text.as_bytes();
    match cut {
        Some(cut) if cut.file == name => bytes.get(..cut.length).ok_or(Trouble::Data),
        _ => Ok(bytes),
    }
}

fn add_file<F: Files>(
    alloc: Global,
    source: &mut F,
    files: &mut MemFiles,
    name: &str,
    rule: &Value,
    cut: Option<Cut>,
) -> Result<(), Trouble> {
    let text = content(alloc, source, rule)?;
    let bytes = bytes_left(text.as_str(), name, cut)?;
    Ok(files.add(name, bytes)?)
}

// Adds the files of a case, one of them cut if it is one that cuts.
fn add_files<F: Files>(
    alloc: Global,
    source: &mut F,
    files: &mut MemFiles,
    case: &Value,
    cut: Option<Cut>,
) -> Result<(), Trouble> {
    for (name, rule) in object_member(case, "files")? {
        add_file(alloc, source, files, name.as_str(), rule, cut)?;
    }
    Ok(())
}

// Runs the words that a case has by the key.
fn run_words(alloc: Global, case: &Value, key: &str, world: &mut World) -> Result<Status, Trouble> {
    let words = words_of(alloc, case, key)?;
    Ok(world.run(alloc, words.as_slice()))
}

// Runs the words of a case, and first those that come before them, where it has any.
fn run_case(alloc: Global, case: &Value, world: &mut World) -> Result<Status, Trouble> {
    if case.get("before").is_some() {
        run_words(alloc, case, "before", world)?;
    }
    run_words(alloc, case, "words", world)
}

// What is wrong with a run of the case where no file is yet, or an empty text.
fn told_in<F: Files>(
    alloc: Global,
    source: &mut F,
    world: &mut World,
    case: &Value,
    cut: Option<Cut>,
) -> Result<&'static str, Trouble> {
    add_files(alloc, source, &mut world.files, case, cut)?;
    let status = run_case(alloc, case, world)?;
    miss(alloc, source, case, world, status)
}

fn try_run<F: Files>(
    alloc: Global,
    source: &mut F,
    case: &Value,
    cut: Option<Cut>,
    name: &str,
    tally: &mut Tally,
) -> Result<(), Trouble> {
    let mut world = World::new(alloc, case)?;
    let told = told_in(alloc, source, &mut world, case, cut);
    drop(world);
    let told = told?;
    Ok(tally.note(told.is_empty(), name, told)?)
}

// The length of the text of a case's file.
fn file_len<F: Files>(
    alloc: Global,
    source: &mut F,
    case: &Value,
    file: &str,
) -> Result<usize, Trouble> {
    let rule = member(member(case, "files")?, file)?;
    Ok(content(alloc, source, rule)?.len())
}

// The case for each proper prefix of a file's text.
fn try_prefixes<F: Files>(
    alloc: Global,
    source: &mut F,
    case: &Value,
    file: &str,
    tally: &mut Tally,
) -> Result<(), Trouble> {
    for length in 0..file_len(alloc, source, case, file)? {
        let cut = Some(Cut { file, length });
        try_run(alloc, source, case, cut, file, tally)?;
    }
    Ok(())
}

fn try_case<F: Files>(
    alloc: Global,
    source: &mut F,
    case: &Value,
    tally: &mut Tally,
) -> Result<(), Trouble> {
    if let Some(file) = case.get("prefixesOf").and_then(Value::as_str) {
        return try_prefixes(alloc, source, case, file, tally);
    }
    let name = text_member(case, "name")?;
    try_run(alloc, source, case, None, name, tally)
}

// Tries each case, and ends the group.
fn try_cases<F: Files>(
    alloc: Global,
    source: &mut F,
    cases: &Value,
    tally: &mut Tally,
) -> Result<(), Trouble> {
    for case in items_of(cases)? {
        try_case(alloc, source, case, tally)?;
    }
    Ok(tally.end("runs")?)
}

fn cases_of<F: Files>(alloc: Global, source: &mut F) -> Result<Value, Trouble> {
    let text = text_of_file(alloc, source, "runs.json")?;
    parsed(alloc, text.as_str())
}

/// Tries each case of `runs.json`, and ends the group. A case is an object with `name`, `words`, `files`, `status`, `out`,
/// `err` (empty where absent), `then` (files that stand afterwards, null for absent ones), and where it says so
/// `before` (the words of a run before it), `directory` (whether `out` stands), `room`, `failingFiles`, `failingOut`,
/// `failingErr` (numbers of calls), and `prefixesOf` (a file to cut at each place).
pub fn try_runs<F: Files>(alloc: Global, source: &mut F, tally: &mut Tally) -> Result<(), Trouble> {
    let cases = cases_of(alloc, source)?;
    let tried = try_cases(alloc, source, &cases, tally);
    drop(cases);
    tried
}
