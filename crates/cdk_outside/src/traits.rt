// What a tool may do to files and streams, what it learns, and what a failure leaves (own).
ghost use Rattle.std.specs.Prelude.{◌≡◌, ◌≤◌, ℕ, List, Option, vec_len, IfOk, OnOk, OnErr, IsErrOf};
ghost use Rattle.cdk_outside.specs.declared.traits.ReadError.TheVariants.{TooLong, Memory};
ghost use Rattle.cdk_outside.specs.Outside.{Contents, Directories, Holds, HoldsOver, with_file, without_file, with_directory, LeavesPart, with_bytes, AppendsPart, CallNoted, ReadNoted, Rose};

use std::alloc::{AllocError, Global};
use thiserror::Error;

/// A `put`, `make_dir`, `remove` or `write` that failed. The object has counted it.
#[derive(Debug, Drop, Error)]
#[error("the call failed")]
pub struct Failed;

/// Why a `read` answers no bytes. In each case the files and directories are as before.
#[derive(Debug, Drop, Error)]
pub enum ReadError {
    /// The file has more bytes than the limit. This is no failed call.
    #[error("the file is too long")]
    TooLong,
    /// The call failed, or the file is missing. The object has counted it.
    #[error("the file cannot be read")]
    Failed,
    /// No memory was found for the bytes. This is no failed call.
    #[error("out of memory")]
    Memory,
}

impl From<AllocError> for ReadError {
    ghost from_gives = { λ _ e. e ≡ Memory };

    fn from(_: AllocError) -> Self {
        ReadError::Memory
    }
}

/// Files and directories by name: on a disk, or in memory. What an object doesn't tell is `None`.
pub trait Files {
    /// The files by name, where told.
    ghost files: { Self → Contents };

    /// The directories, where told.
    ghost directories: { Self → Directories };

    /// How many reads have failed, up to a counter's last value.
    ghost read_faults: { Self → ℕ };

    /// How many of the other three calls have failed, up to a counter's last value.
    ghost write_faults: { Self → ℕ };

    /// The name of the last failed read, where told.
    ghost failed_read: { Self → Option (List ℕ) };

    /// The name of the last failed call of the other three, where told.
    ghost failed_write: { Self → Option (List ℕ) };

    /// The bytes of a file of at most `limit` bytes. `TooLong` comes exactly where it has more, in a call that
    /// doesn't fail. A missing file is a failed call.
    fn read(&mut self, alloc: Global, name: &str, limit: usize) -> Result<Vec<u8>, ReadError>
        ensures bytes { IfOk result (λ v. Holds (files self.old) name.now v.items) }
        ensures short { IfOk result (λ v. vec_len v ≤ limit) }
        ensures too_long { IsErrOf result TooLong → HoldsOver (files self.old) name.now limit }
        ensures never_falls { read_faults self.old ≤ read_faults self.new }
        ensures noted { ReadNoted result (read_faults self.old) (read_faults self.new)
            (failed_read self.old) (failed_read self.new) name.now }
        ensures files { files self.new ≡ files self.old }
        ensures directories { directories self.new ≡ directories self.old }
        ensures write_faults { write_faults self.new ≡ write_faults self.old }
        ensures failed_write { failed_write self.new ≡ failed_write self.old };

    /// Sets a file's bytes. A failed call leaves the file as before or with fewer than all the bytes, in order from
    /// the first, and leaves all other files.
    fn put(&mut self, name: &str, bytes: &[u8]) -> Result<(), Failed>
        ensures ok { OnOk result (files self.new ≡ with_file name.now bytes.now (files self.old)) }
        ensures err { OnErr result (LeavesPart (files self.old) (files self.new) name.now
            bytes.now) }
        ensures never_falls { write_faults self.old ≤ write_faults self.new }
        ensures noted { CallNoted result (write_faults self.old) (write_faults self.new)
            (failed_write self.old) (failed_write self.new) name.now }
        ensures directories { directories self.new ≡ directories self.old }
        ensures read_faults { read_faults self.new ≡ read_faults self.old }
        ensures failed_read { failed_read self.new ≡ failed_read self.old };

    /// Makes one directory, or leaves the one that is there. A failed call adds nothing.
    fn make_dir(&mut self, name: &str) -> Result<(), Failed>
        ensures ok { OnOk result (directories self.new ≡ with_directory name.now
            (directories self.old)) }
        ensures err { OnErr result (directories self.new ≡ directories self.old) }
        ensures never_falls { write_faults self.old ≤ write_faults self.new }
        ensures noted { CallNoted result (write_faults self.old) (write_faults self.new)
            (failed_write self.old) (failed_write self.new) name.now }
        ensures files { files self.new ≡ files self.old }
        ensures read_faults { read_faults self.new ≡ read_faults self.old }
        ensures failed_read { failed_read self.new ≡ failed_read self.old };

    /// Takes a file out. A missing one is Ok. A failed call changes nothing.
    fn remove(&mut self, name: &str) -> Result<(), Failed>
        ensures ok { OnOk result (files self.new ≡ without_file name.now (files self.old)) }
        ensures err { OnErr result (files self.new ≡ files self.old) }
        ensures never_falls { write_faults self.old ≤ write_faults self.new }
        ensures noted { CallNoted result (write_faults self.old) (write_faults self.new)
            (failed_write self.old) (failed_write self.new) name.now }
        ensures directories { directories self.new ≡ directories self.old }
        ensures read_faults { read_faults self.new ≡ read_faults self.old }
        ensures failed_read { failed_read self.new ≡ failed_read self.old };
}

/// A stream that bytes are appended to: a standard stream, or one in memory. What it doesn't tell is `None`.
pub trait Sink {
    /// The bytes so far, where told.
    ghost written: { Self → Option (List ℕ) };

    /// How many writes have failed, up to a counter's last value.
    ghost faults: { Self → ℕ };

    /// Appends the bytes. A failed call appends some of them, in order from the first, or none.
    fn write(&mut self, bytes: &[u8]) -> Result<(), Failed>
        ensures ok { OnOk result (written self.new ≡ with_bytes bytes.now (written self.old)) }
        ensures err { OnErr result (AppendsPart (written self.old) (written self.new) bytes.now) }
        ensures never_falls { faults self.old ≤ faults self.new }
        ensures failed { OnErr result (Rose (faults self.old) (faults self.new)) };
}
