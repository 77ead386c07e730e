// A reader and a writer that move few bytes at a time.
use cdk_outside::{ReadError, Sink, StdSink, read_up_to};
use cdk_tally::Tally;
use std::alloc::{AllocError, Global};
use std::io::{self, Read, Write};

// A reader and writer that moves at most three bytes at a time, and so many times. It keeps no bytes that are written.
#[derive(Drop)]
struct Slow<'a> {
    rest: &'a [u8],
    times: usize,
}

impl Read for Slow<'_> {
    fn read(&mut self, buf: &mut [u8]) -> io::Result<usize> {
        if self.times == 0 {
            return Err(io::Error::from(io::ErrorKind::Interrupted));
        }
        self.times -= 1;
        let most = buf.len().min(3);
        self.rest.read(&mut buf[..most])
    }
}

impl Write for Slow<'_> {
    fn write(&mut self, buf: &[u8]) -> io::Result<usize> {
        if self.times == 0 {
            return Ok(0);
        }
        self.times -= 1;
        Ok(buf.len().min(3))
    }

    fn flush(&mut self) -> io::Result<()> {
        Ok(())
    }
}

const TEN_BYTES: &[u8] = b"ten bytes.";

// What comes of reading ten bytes so many times, up to a limit.
fn read_slowly(alloc: Global, times: usize, limit: usize) -> &'static str {
    let mut stream = Slow {
        rest: TEN_BYTES,
        times,
    };
    let read = read_up_to(alloc, &mut stream, limit);
    let told = match &read {
        Ok(read) if read.as_slice() == TEN_BYTES => "all",
        Ok(_) => "other bytes",
        Err(ReadError::TooLong) => "too long",
        Err(ReadError::Failed) => "a failure",
        Err(ReadError::Memory) => "no memory",
    };
    drop(read);
    told
}

// Whether ten bytes are written in four times, and no more.
fn writes_all() -> bool {
    let mut sink = StdSink::new(Slow {
        rest: &[],
        times: 4,
    });
    sink.write(TEN_BYTES).is_ok() && sink.write(b"more").is_err()
}

/// Tries slow streams.
pub fn try_streams(alloc: Global, tally: &mut Tally) -> Result<(), AllocError> {
    tally.compare("a slow read", "all", read_slowly(alloc, 5, 10))?;
    tally.compare(
        "a read past the limit",
        "too long",
        read_slowly(alloc, 5, 9),
    )?;
    tally.compare("a read that fails", "a failure", read_slowly(alloc, 3, 10))?;
    tally.note(writes_all(), "slow writes", "otherwise")
}
