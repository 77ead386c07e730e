//! The program: words in, files out, and the status as the exit status.
#![tactic(auto)]

use cdk_base::{List, Text};
use cdk_outside::{DiskFiles, StdSink};
use cdk_tool::run;
use cdk_words::Status;
use cdk_write::{OUT_OF_MEMORY, tell};
use std::alloc::{AllocError, Global};
use std::env;
use std::io::ErrorKind;
use std::process::ExitCode;

// The words behind the program's name. Words of which one is no text count as none: they are no command.
fn words_of(rt: &HostRuntime, alloc: Global) -> Result<List<Text>, AllocError> {
    let mut words = List::new(alloc);
    match env::args(rt) {
        Ok(args) => {
            for word in args.skip(1) {
                words.push(Text::from_string(word))?;
            }
        }
        Err(error) => {
            if error.kind() == ErrorKind::OutOfMemory {
                return Err(AllocError);
            }
        }
    }
    Ok(words)
}

fn start(rt: HostRuntime) -> Status {
    let alloc = rt.alloc();
    let mut out = StdSink::new(rt.stdout());
    let mut err = StdSink::new(rt.stderr());
    let Ok(words) = words_of(&rt, alloc) else {
        tell(&mut err, OUT_OF_MEMORY);
        return Status::NoMemory;
    };
    let mut files = DiskFiles::new(rt);
    run(alloc, words.as_slice(), &mut files, &mut out, &mut err)
}

fn main(rt: HostRuntime) -> ExitCode {
    let status = start(rt);
    ExitCode::from(status.code())
}
