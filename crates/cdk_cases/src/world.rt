// Files and streams in memory for one run.
use crate::members::items_of;
use cdk_base::{List, Text, Value};
use cdk_memory::{MemFiles, MemSink};
use cdk_tally::{Trouble, texts_of};
use cdk_tool::run;
use cdk_words::Status;
use std::alloc::{AllocError, Global};

// Room for the directories and the bytes that a run writes, where its case gives none.
const DIRECTORIES: usize = 10;

const ROOM: usize = 20_000;

/// The words that synthesize the application in `app.json`.
pub const SYNTH: [&str; 3] = ["synth", "app.json", "out"];

/// The words that evaluate what came of it under the values in `v.json`.
pub const EVAL: [&str; 3] = ["eval", "out", "v.json"];

/// The files and both streams of one run.
#[derive(Drop)]
pub struct World {
    pub files: MemFiles,
    pub out: MemSink,
    pub err: MemSink,
}

fn push_numbers(list: &mut List<u64>, numbers: &Value) -> Result<(), Trouble> {
    for number in items_of(numbers)? {
        list.push(number.as_u64().ok_or(Trouble::Data)?)?;
    }
    Ok(())
}

// The numbers of the calls that fail, by the case's key.
fn calls(alloc: Global, case: &Value, key: &str) -> Result<List<u64>, Trouble> {
    let mut list = List::new(alloc);
    if let Some(numbers) = case.get(key) {
        push_numbers(&mut list, numbers)?;
    }
    Ok(list)
}

fn room_of(case: &Value) -> usize {
    match case.get("room").and_then(Value::as_u64) {
        Some(room) => room as usize,
        None => ROOM,
    }
}

fn sink(alloc: Global, case: &Value, key: &str) -> Result<MemSink, Trouble> {
    let failing = calls(alloc, case, key)?;
    Ok(MemSink::new(alloc, failing, ROOM)?)
}

fn files(alloc: Global, case: &Value) -> Result<MemFiles, Trouble> {
    let failing = calls(alloc, case, "failingFiles")?;
    Ok(MemFiles::new(alloc, failing, DIRECTORIES, room_of(case))?)
}

// The fault in the one line of errors.
fn fault_in(line: &[u8]) -> Option<&str> {
    let line = str::from_utf8(line).ok()?;
    let fault = line.strip_prefix("cdkcore: error ")?;
    fault.strip_suffix('\n')
}

impl World {
    /// No files yet, with the room and the failing calls that a case gives. Null gives ample room and no failing call.
    pub fn new(alloc: Global, case: &Value) -> Result<Self, Trouble> {
        let out = sink(alloc, case, "failingOut")?;
        let err = sink(alloc, case, "failingErr")?;
        let files = files(alloc, case)?;
        Ok(World { files, out, err })
    }

    /// Sets the application in `app.json`.
    pub fn set_application(&mut self, application: &str) -> Result<(), AllocError> {
        self.files.add("app.json", application.as_bytes())
    }

    /// Runs the tool over it with these words.
    pub fn run(&mut self, alloc: Global, words: &[Text]) -> Status {
        run(alloc, words, &mut self.files, &mut self.out, &mut self.err)
    }

    /// Runs it with copies of these words.
    pub fn run_words(&mut self, alloc: Global, words: &[&str]) -> Result<Status, Trouble> {
        let words = texts_of(alloc, words)?;
        Ok(self.run(alloc, words.as_slice()))
    }

    /// The fault that a run of `synth` with this status was refused with, nothing being written.
    pub fn refusal(&self, status: Status) -> &str {
        if status.number() != 1 || self.files.has_dir("out") {
            return "no refusal";
        }
        fault_in(self.err.bytes()).unwrap_or("another line")
    }
}
