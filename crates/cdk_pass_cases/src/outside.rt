// Files and streams in memory.
use cdk_base::List;
use cdk_memory::{MemFiles, MemSink};
use cdk_outside::{Files, ReadError, Sink};
use cdk_tally::Tally;
use std::alloc::{AllocError, Global};

// The number of the one call that fails.
fn failing(alloc: Global, number: u64) -> Result<List<u64>, AllocError> {
    let mut list = List::new(alloc);
    list.push(number)?;
    Ok(list)
}

fn refuses_long(alloc: Global, files: &mut MemFiles) -> bool {
    matches!(files.read(alloc, "out/x", 2), Err(ReadError::TooLong))
}

// Tries files whose fourth call fails, with room for three entries and 20 bytes.
fn try_files_in(alloc: Global, files: &mut MemFiles, tally: &mut Tally) -> Result<(), AllocError> {
    files.add("app.json", b"{}")?;
    let made = files.make_dir("out").is_ok() && files.has_dir("out");
    let put = files.put("out/x", b"abc").is_ok();
    let long = refuses_long(alloc, files);
    let failed = files.put("out/x", b"12").is_err();
    let half = files.get("out/x") == Some(b"1".as_slice());
    let full = files.make_dir("out/y").is_err();
    let absent = files.remove("out/y").is_ok();
    let removed = files.remove("out/x").is_ok() && files.get("out/x").is_none();
    tally.note_each(&[
        ("a file put", made && put),
        ("a file that is too long", long),
        ("a put that fails", failed && half),
        ("no room for a directory", full),
        ("a file removed", absent && removed),
    ])
}

fn try_files(alloc: Global, tally: &mut Tally) -> Result<(), AllocError> {
    let mut files = MemFiles::new(alloc, failing(alloc, 4)?, 3, 20)?;
    let tried = try_files_in(alloc, &mut files, tally);
    drop(files);
    tried
}

// Tries a stream of eight bytes whose second write fails.
fn try_stream_in(sink: &mut MemSink, tally: &mut Tally) -> Result<(), AllocError> {
    let first = sink.write(b"abc").is_ok();
    let second = sink.write(b"12345").is_err();
    let third = sink.write(b"wxyz").is_err();
    let holds = first && second && third && sink.bytes() == b"abc12".as_slice();
    tally.note(holds, "a stream", "otherwise")
}

/// Tries files and a stream in memory.
pub fn try_outside(alloc: Global, tally: &mut Tally) -> Result<(), AllocError> {
    try_files(alloc, tally)?;
    let mut sink = MemSink::new(alloc, failing(alloc, 2)?, 8)?;
    let tried = try_stream_in(&mut sink, tally);
    drop(sink);
    tried
}
