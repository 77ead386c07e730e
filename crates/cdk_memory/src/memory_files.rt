// Files in memory, whose room is taken when they are made. A list says which calls are to fail.
ghost use Rattle.std.specs.Prelude.{◌≡◌, ◌≤◌, ◌+◌, ◌&&◌, nat_lt, nat_le, Some, IfSome, vec_len, IfOk, OnOk, OnErr, IsErrOf, is_ok, length};
ghost use Rattle.std.specs.Option.{option_copied};
ghost use Rattle.std.specs.FinMap as map;
ghost use Rattle.std.specs.FinSet as set;
ghost use Rattle.cdk_outside.specs.declared.traits.ReadError.TheVariants.{TooLong};
ghost use Rattle.cdk_outside.specs.Calls.{next_count, is_listed};
ghost use Rattle.cdk_outside.specs.Outside.{Holds, HoldsOver, with_file, without_file, with_directory, LeavesPart, CallNoted, ReadNoted};
ghost use Rattle.cdk_memory.specs.FilesState.{new_state, with_added, IsAnswer, read_answer, after_read, put_succeeds, after_put, make_dir_succeeds, after_make_dir, remove_succeeds, after_remove};

use crate::memory_sink::has_call;
use crate::stored::{Change, Part, add_directory, find, has_directory, remove_file, set_file};
use cdk_base::{List, Text};
use cdk_outside::{Failed, Files, ReadError};
use std::alloc::{AllocError, Global};
use std::marker::Model;

/// Files and directories in memory, for tests. They tell what they hold, and all that they fail on is known:
/// calls of the methods of `Files` on one object are numbered from 1, all methods together (all calls past the greatest
/// u64 have that number), and a list gives the numbers of the calls that fail. The room for what they will hold is
/// taken when they are made, so no call but `read` and `add` wants memory.
#[derive(Drop)]
pub struct MemFiles {
    alloc: Global,
    store: Vec<u8>,
    log: Vec<Change>,
    directory_store: Vec<u8>,
    directories: Vec<Part>,
    entries: usize,
    room: usize,
    listed: List<u64>,
    calls: u64,
    read_faults: u64,
    write_faults: u64,
    failed_read: Option<Text>,
    failed_write: Option<Text>,
}

impl Model for MemFiles {
    ghost use Rattle.cdk_memory.specs.FilesState.{FilesView, view_code};

    ghost Value = { FilesView };

    ghost coded = { view_code };

    ghost use Rattle.cdk_memory.specs.Kept.{view_of, IsKept};

    ghost view = { view_of };

    ghost invariant = { IsKept };
}

// Counts a call, and says whether it is to fail.
fn count_call(calls: &mut u64, listed: &List<u64>) -> bool
    ensures calls { calls.new ≡ next_count calls.old }
    ensures listed { result ≡ is_listed listed.now (next_count calls.old) }
{
    *calls = calls.saturating_add(1);
    has_call(listed.as_slice(), *calls)
}

// Counts a failed call, and keeps its name where memory for it is found.
fn count_fault(faults: &mut u64, failed: &mut Option<Text>, alloc: Global, name: &str)
    ensures faults { faults.new ≡ next_count faults.old }
    ensures failed { IfSome failed.new (λ n. n ≡ name.now) }
{
    *faults = faults.saturating_add(1);
    *failed = Text::new(alloc, name).ok();
}

// An entry is left, and the bytes of a file's name and contents are.
fn has_room(entries: usize, room: usize, name: &str, bytes: &[u8]) -> bool
    ensures { result ≡ (nat_lt 0 entries && nat_le (length name.now + length bytes.now) room) }
{
    entries > 0 && name.len() <= room && bytes.len() <= room - name.len()
}

impl MemFiles {
    /// No files and no directories, with room for so many entries and bytes. Each `put` and `make_dir` that is Ok uses
    /// one entry and the bytes of its name and contents, and none come back. `fail` has the numbers of the calls that
    /// fail.
    pub fn new(
        alloc: Global,
        fail: List<u64>,
        entries: usize,
        room: usize,
    ) -> Result<MemFiles, AllocError>
        ensures { IfOk result (λ m. m.state ≡ new_state fail entries room) }
    {
        if entries > usize::MAX / 2 {
            return Err(AllocError);
        }
        Ok(MemFiles {
            alloc,
            store: Vec::with_capacity(alloc, room)?,
            log: Vec::with_capacity(alloc, 2 * entries)?,
            directory_store: Vec::with_capacity(alloc, room)?,
            directories: Vec::with_capacity(alloc, entries)?,
            entries,
            room,
            listed: fail,
            calls: 0,
            read_faults: 0,
            write_faults: 0,
            failed_read: None,
            failed_write: None,
        })
    }

    /// Sets a file, and leaves the entries and bytes left as they are. This is no numbered call. After an error nothing
    /// is changed.
    pub fn add(&mut self, name: &str, bytes: &[u8]) -> Result<(), AllocError>
        ensures ok { OnOk result (self.new.state ≡ with_added name.now bytes.now self.old.state) }
        ensures err { OnErr result (self.new.state ≡ self.old.state) }
        ensures failed_read { self.new.failed_read ≡ self.old.failed_read }
        ensures failed_write { self.new.failed_write ≡ self.old.failed_write }
    {
        let Some(more) = name.len().checked_add(bytes.len()) else {
            return Err(AllocError);
        };
        let Some(total) = more.checked_add(self.room) else {
            return Err(AllocError);
        };
        let Some(changes) = self.log.as_slice().len().checked_add(2) else {
            return Err(AllocError);
        };
        let Some(twice) = self.entries.checked_mul(2) else {
            return Err(AllocError);
        };
        let Some(all) = changes.checked_add(twice) else {
            return Err(AllocError);
        };
        self.store.reserve(total)?;
        self.log.reserve(all)?;
        set_file(&mut self.store, &mut self.log, name, bytes);
        Ok(())
    }

    /// The bytes of a file, `None` exactly where it is absent. This is no numbered call.
    pub fn get(&self, name: &str) -> Option<&[u8]>
        ensures { option_copied result ≡ map.get self.now.state.files name.now }
    {
        find(self.store.as_slice(), self.log.as_slice(), name)
    }

    /// Whether the directories have the name. This is no numbered call.
    pub fn has_dir(&self, name: &str) -> bool
        ensures { result ≡ set.contains self.now.state.directories name.now }
    {
        has_directory(
            self.directory_store.as_slice(),
            self.directories.as_slice(),
            name,
        )
    }
}

impl Files for MemFiles {
    ghost files = { λ m. Some m.state.files };

    ghost directories = { λ m. Some m.state.directories };

    ghost read_faults = { λ m. m.state.read_faults };

    ghost write_faults = { λ m. m.state.write_faults };

    ghost failed_read = { λ m. m.failed_read };

    ghost failed_write = { λ m. m.failed_write };

    /// Fails exactly where it is listed or the file is absent.
    fn read(&mut self, alloc: Global, name: &str, limit: usize) -> Result<Vec<u8>, ReadError>
        ensures bytes { IfOk result (λ v. Holds (Some self.old.state.files) name.now v.items) }
        ensures short { IfOk result (λ v. vec_len v ≤ limit) }
        ensures too_long { IsErrOf result TooLong → HoldsOver (Some self.old.state.files) name.now
            limit }
        ensures never_falls { self.old.state.read_faults ≤ self.new.state.read_faults }
        ensures noted { ReadNoted result self.old.state.read_faults self.new.state.read_faults
            self.old.failed_read self.new.failed_read name.now }
        ensures files { Some self.new.state.files ≡ Some self.old.state.files }
        ensures directories { Some self.new.state.directories ≡ Some self.old.state.directories }
        ensures write_faults { self.new.state.write_faults ≡ self.old.state.write_faults }
        ensures failed_write { self.new.failed_write ≡ self.old.failed_write }
        ensures answer { IsAnswer (λ v. v.items) result (read_answer self.old.state name.now limit) }
        ensures after { self.new.state ≡ after_read self.old.state name.now }
    {
        let listed = count_call(&mut self.calls, &self.listed);
        match find(self.store.as_slice(), self.log.as_slice(), name) {
            Some(bytes) if !listed => {
                if bytes.len() > limit {
                    Err(ReadError::TooLong)
                } else {
                    Ok(bytes.to_vec(alloc)?)
                }
            }
            _ => {
                count_fault(
                    &mut self.read_faults,
                    &mut self.failed_read,
                    self.alloc,
                    name,
                );
                Err(ReadError::Failed)
            }
        }
    }

    /// Fails exactly where it is listed or too few entries or bytes are left. Where too few are left for all that is
    /// asked, listed or not, the file stays as before. Else a listed call leaves the first half of the bytes, rounded
    /// down, and uses an entry and the bytes of the name and of that half; with no bytes it leaves the file as before.
    fn put(&mut self, name: &str, bytes: &[u8]) -> Result<(), Failed>
        ensures ok { OnOk result (Some self.new.state.files ≡ with_file name.now bytes.now
            (Some self.old.state.files)) }
        ensures err { OnErr result (LeavesPart (Some self.old.state.files)
            (Some self.new.state.files) name.now bytes.now) }
        ensures never_falls { self.old.state.write_faults ≤ self.new.state.write_faults }
        ensures noted { CallNoted result self.old.state.write_faults self.new.state.write_faults
            self.old.failed_write self.new.failed_write name.now }
        ensures directories { Some self.new.state.directories ≡ Some self.old.state.directories }
        ensures read_faults { self.new.state.read_faults ≡ self.old.state.read_faults }
        ensures failed_read { self.new.failed_read ≡ self.old.failed_read }
        ensures exact { is_ok result ≡ put_succeeds self.old.state name.now bytes.now }
        ensures after { self.new.state ≡ after_put self.old.state name.now bytes.now }
    {
        let listed = count_call(&mut self.calls, &self.listed);
        if !has_room(self.entries, self.room, name, bytes) {
            count_fault(
                &mut self.write_faults,
                &mut self.failed_write,
                self.alloc,
                name,
            );
            return Err(Failed);
        }
        if !listed {
            set_file(&mut self.store, &mut self.log, name, bytes);
            self.entries -= 1;
            self.room -= name.len() + bytes.len();
            return Ok(());
        }
        count_fault(
            &mut self.write_faults,
            &mut self.failed_write,
            self.alloc,
            name,
        );
        if bytes.is_empty() {
            return Err(Failed);
        }
        let half = &bytes[..bytes.len() / 2];
        set_file(&mut self.store, &mut self.log, name, half);
        self.entries -= 1;
        self.room -= name.len() + half.len();
        Err(Failed)
    }

    /// Fails exactly where it is listed or too few entries or bytes are left.
    fn make_dir(&mut self, name: &str) -> Result<(), Failed>
        ensures ok { OnOk result (Some self.new.state.directories ≡ with_directory name.now
            (Some self.old.state.directories)) }
        ensures err { OnErr result (Some self.new.state.directories ≡ Some
            self.old.state.directories) }
        ensures never_falls { self.old.state.write_faults ≤ self.new.state.write_faults }
        ensures noted { CallNoted result self.old.state.write_faults self.new.state.write_faults
            self.old.failed_write self.new.failed_write name.now }
        ensures files { Some self.new.state.files ≡ Some self.old.state.files }
        ensures read_faults { self.new.state.read_faults ≡ self.old.state.read_faults }
        ensures failed_read { self.new.failed_read ≡ self.old.failed_read }
        ensures exact { is_ok result ≡ make_dir_succeeds self.old.state name.now }
        ensures after { self.new.state ≡ after_make_dir self.old.state name.now }
    {
        let listed = count_call(&mut self.calls, &self.listed);
        if !listed && self.entries > 0 && name.len() <= self.room {
            add_directory(&mut self.directory_store, &mut self.directories, name);
            self.entries -= 1;
            self.room -= name.len();
            return Ok(());
        }
        count_fault(
            &mut self.write_faults,
            &mut self.failed_write,
            self.alloc,
            name,
        );
        Err(Failed)
    }

    /// Fails exactly where it is listed.
    fn remove(&mut self, name: &str) -> Result<(), Failed>
        ensures ok { OnOk result (Some self.new.state.files ≡ without_file name.now
            (Some self.old.state.files)) }
        ensures err { OnErr result (Some self.new.state.files ≡ Some self.old.state.files) }
        ensures never_falls { self.old.state.write_faults ≤ self.new.state.write_faults }
        ensures noted { CallNoted result self.old.state.write_faults self.new.state.write_faults
            self.old.failed_write self.new.failed_write name.now }
        ensures directories { Some self.new.state.directories ≡ Some self.old.state.directories }
        ensures read_faults { self.new.state.read_faults ≡ self.old.state.read_faults }
        ensures failed_read { self.new.failed_read ≡ self.old.failed_read }
        ensures exact { is_ok result ≡ remove_succeeds self.old.state }
        ensures after { self.new.state ≡ after_remove self.old.state name.now }
    {
        if count_call(&mut self.calls, &self.listed) {
            count_fault(
                &mut self.write_faults,
                &mut self.failed_write,
                self.alloc,
                name,
            );
            return Err(Failed);
        }
        remove_file(self.store.as_slice(), &mut self.log, name);
        Ok(())
    }
}
