// The files of the disk: the trusted edge to the system's files.
ghost use Rattle.std.specs.Prelude.{◌≡◌, ◌≤◌, ◌+◌, None, IfOk, IsErrOf, vec_len};
ghost use Rattle.cdk_outside.specs.declared.traits.ReadError.TheVariants.{TooLong};
ghost use Rattle.cdk_outside.specs.Streams.{AreAll, IsOver, TakesAtMost};

use crate::stream::write_whole;
use crate::{Failed, Files, ReadError};
use std::alloc::Global;
use std::fs;
use std::io::{ErrorKind, Read};
use std::marker::Model;

/// The files of the disk. It counts failed calls from 0, and tells no contents and no names. An interrupted read or
/// write is a failure: nothing is tried twice.
#[derive(Drop)]
pub struct DiskFiles<R: std::rt::Files + Drop> {
    rt: R,
    read_faults: u64,
    write_faults: u64,
}

impl<R: std::rt::Files + Drop> Model for DiskFiles<R> {
    ghost use Rattle.cdk_outside.specs.DiskCounts.{DiskCounts};

    ghost Value = { DiskCounts };

    ghost view = { λ d. record { read_faults = d.read_faults; write_faults = d.write_faults } };
}

impl<R: std::rt::Files + Drop> DiskFiles<R> {
    /// Takes the runtime, through which std reaches the disk.
    pub fn new(rt: R) -> Self
        ensures { result ≡ record { read_faults = 0; write_faults = 0 } }
    {
        DiskFiles {
            rt,
            read_faults: 0,
            write_faults: 0,
        }
    }
}

const PIECE: usize = 4096;

/// All the bytes of a reader, at most `limit`: it reads to the end, which is a read that gives nothing, or to one byte
/// past the limit. `TooLong` comes where there are more, `Failed` at the first read that fails, `Memory` where there is
/// no room for the bytes.
pub fn read_up_to<R: Read>(alloc: Global, file: &mut R, limit: usize) -> Result<Vec<u8>, ReadError>
    ensures short { IfOk result (λ v. vec_len v ≤ limit) }
    ensures all { IfOk result (λ v. AreAll (R.remaining file.old) v.items) }
    ensures too_long { IsErrOf result TooLong → IsOver (R.remaining file.old) limit }
    ensures takes { TakesAtMost (limit + 1) (R.remaining file.old) (R.remaining file.new) }
{
    let mut all = Vec::new(alloc);
    let mut piece = [0u8; PIECE];
    loop {
        let most = (limit - all.len()).saturating_add(1).min(PIECE);
        let Ok(n) = file.read(&mut piece[..most]) else {
            return Err(ReadError::Failed);
        };
        if n == 0 {
            return Ok(all);
        }
        if n > limit - all.len() {
            return Err(ReadError::TooLong);
        }
        all.extend_from_slice(&piece[..n])?;
    }
}

// The bytes of a file of at most the limit's bytes.
fn read_file<R: std::rt::Files>(
    rt: &R,
    alloc: Global,
    name: &str,
    limit: usize,
) -> Result<Vec<u8>, ReadError>
    ensures { IfOk result (λ v. vec_len v ≤ limit) }
{
    let Ok(mut file) = fs::open(rt, name) else {
        return Err(ReadError::Failed);
    };
    read_up_to(alloc, &mut file, limit)
}

// Makes the file, or empties the one that is there, and writes all the bytes.
fn write_file<R: std::rt::Files>(rt: &R, name: &str, bytes: &[u8]) -> Result<(), Failed> {
    let Ok(mut file) = fs::create(rt, name) else {
        return Err(Failed);
    };
    write_whole(&mut file, bytes)
}

// Makes one directory, or finds it there.
fn make_directory<R: std::rt::Files>(rt: &R, name: &str) -> Result<(), Failed> {
    if fs::create_dir(rt, name).is_ok() {
        return Ok(());
    }
    match fs::metadata(rt, name) {
        Ok(metadata) if metadata.is_dir() => Ok(()),
        _ => Err(Failed),
    }
}

// Takes a file out, or finds it absent.
fn remove_file<R: std::rt::Files>(rt: &R, name: &str) -> Result<(), Failed> {
    match fs::remove_file(rt, name) {
        Ok(()) => Ok(()),
        Err(e) if e.kind() == ErrorKind::NotFound => Ok(()),
        Err(_) => Err(Failed),
    }
}

impl<R: std::rt::Files + Drop> Files for DiskFiles<R> {
    ghost files = { λ _. None };

    ghost directories = { λ _. None };

    ghost read_faults = { λ d. d.read_faults };

    ghost write_faults = { λ d. d.write_faults };

    ghost failed_read = { λ _. None };

    ghost failed_write = { λ _. None };

    fn read(&mut self, alloc: Global, name: &str, limit: usize) -> Result<Vec<u8>, ReadError> {
        let bytes = read_file(&self.rt, alloc, name, limit);
        if let Err(ReadError::Failed) = &bytes {
            self.read_faults = self.read_faults.saturating_add(1);
        }
        bytes
    }

    fn put(&mut self, name: &str, bytes: &[u8]) -> Result<(), Failed> {
        let done = write_file(&self.rt, name, bytes);
        if done.is_err() {
            self.write_faults = self.write_faults.saturating_add(1);
        }
        done
    }

    fn make_dir(&mut self, name: &str) -> Result<(), Failed> {
        let done = make_directory(&self.rt, name);
        if done.is_err() {
            self.write_faults = self.write_faults.saturating_add(1);
        }
        done
    }

    fn remove(&mut self, name: &str) -> Result<(), Failed> {
        let done = remove_file(&self.rt, name);
        if done.is_err() {
            self.write_faults = self.write_faults.saturating_add(1);
        }
        done
    }
}
