// The parts of files in memory: a store of bytes that only grows, and logs that name ranges of it.
ghost use Rattle.std.specs.Prelude.{◌≡◌, ◌≤◌, ◌<◌, ◌+◌, true, false, ◌||◌, ◌∷◌, [], ◌++◌, length, IfSome, None, Some, vec_len, vec_capacity, if◌then◌else◌};
ghost use Rattle.std.specs.Str.{bytes_eq};
ghost use Rattle.std.specs.Option.{option_copied, option_map, is_some};
ghost use Rattle.std.specs.FinMap as map;
ghost use Rattle.std.specs.FinSet as set;
ghost use Rattle.cdk_memory.specs.Stored.{part_of, lies_in, files_of, log_lies_in, GivesName, directories_of, names_lie_in};

#[derive(Clone, Copy)]
pub struct Part {
    pub from: usize,
    pub to: usize,
}

#[derive(Clone, Copy)]
pub struct Change {
    pub name: Part,
    pub bytes: Part,
    pub is_removal: bool,
}

// Appends bytes for which there is room.
fn append(store: &mut Vec<u8>, bytes: &[u8]) -> Part
    requires { vec_len store.old + length bytes.now ≤ vec_capacity store.old }
    ensures items { store.new.items ≡ store.old.items ++ bytes.now }
    ensures part { part_of store.new.items result ≡ bytes.now }
    ensures lies { lies_in (length store.new.items) result ≡ true }
    ensures len { vec_len store.new ≡ vec_len store.old + length bytes.now }
    ensures capacity { vec_capacity store.old ≤ vec_capacity store.new }
{
    let from = store.len();
    match store.extend_from_slice(bytes) {
        Ok(()) => {}
        Err(_) => unreachable!(),
    }
    Part {
        from,
        to: store.len(),
    }
}

// Sets a file, where there is room.
pub(crate) fn set_file(store: &mut Vec<u8>, log: &mut Vec<Change>, name: &str, bytes: &[u8])
    requires store { vec_len store.old + length name.now + length bytes.now ≤ vec_capacity
        store.old }
    requires log { vec_len log.old < vec_capacity log.old }
    requires lies { log_lies_in (length store.old.items) log.old.items ≡ true }
    ensures files { files_of store.new.items log.new.items ≡ map.insert
        (files_of store.old.items log.old.items) name.now bytes.now }
    ensures lies { log_lies_in (length store.new.items) log.new.items ≡ true }
    ensures items { store.new.items ≡ store.old.items ++ (name.now ++ bytes.now) }
    ensures len { vec_len store.new ≡ vec_len store.old + length name.now + length bytes.now }
    ensures log_len { vec_len log.new ≡ vec_len log.old + 1 }
    ensures live { map.len (files_of store.new.items log.new.items) ≤ map.len
        (files_of store.old.items log.old.items) + 1 }
    ensures capacity { vec_capacity store.old ≤ vec_capacity store.new }
    ensures log_capacity { vec_capacity log.old ≤ vec_capacity log.new }
{
    let name = append(store, name.as_bytes());
    let bytes = append(store, bytes);
    match log.push(Change {
        name,
        bytes,
        is_removal: false,
    }) {
        Ok(()) => {}
        Err(_) => unreachable!(),
    }
}

// The change that gives a file, after one more change.
fn updated(store: &[u8], change: &Change, name: &[u8], found: Option<Change>) -> Option<Change>
    requires { lies_in (length store.now) change.now.name ≡ true }
    ensures { result ≡ (if bytes_eq name.now (part_of store.now change.now.name) then
        (if change.now.is_removal then None else Some change.now) else found) }
{
    let part = change.name;
    if name == &store[part.from..part.to] {
        if change.is_removal {
            None
        } else {
            Some(*change)
        }
    } else {
        found
    }
}

// The change that gives a file, if it is there.
fn find_change(store: &[u8], log: &[Change], name: &str) -> Option<Change>
    requires { log_lies_in (length store.now) log.now ≡ true }
    ensures bytes { option_map (λ c. part_of store.now c.bytes) result ≡ map.get
        (files_of store.now log.now) name.now }
    ensures fits { IfSome result (λ c. GivesName store.now name.now c) }
{
    let mut found: Option<Change> = None;
    for change in log {
        found = updated(store, change, name.as_bytes(), found);
    }
    found
}

// The bytes of a file, if it is there.
pub(crate) fn find<'a>(store: &'a [u8], log: &[Change], name: &str) -> Option<&'a [u8]>
    requires { log_lies_in (length store.now) log.now ≡ true }
    ensures { option_copied result ≡ map.get (files_of store.now log.now) name.now }
{
    match find_change(store, log, name) {
        None => None,
        Some(change) => Some(&store[change.bytes.from..change.bytes.to]),
    }
}

// Takes a file out, if it is there.
pub(crate) fn remove_file(store: &[u8], log: &mut Vec<Change>, name: &str)
    requires lies { log_lies_in (length store.now) log.old.items ≡ true }
    requires room { vec_len log.old + map.len (files_of store.now log.old.items) ≤ vec_capacity
        log.old }
    ensures files { files_of store.now log.new.items ≡ map.remove
        (files_of store.now log.old.items) name.now }
    ensures lies { log_lies_in (length store.now) log.new.items ≡ true }
    ensures room { vec_len log.new + map.len (files_of store.now log.new.items) ≤ vec_len log.old +
        map.len (files_of store.now log.old.items) }
    ensures capacity { vec_capacity log.old ≤ vec_capacity log.new }
{
    match find_change(store, log.as_slice(), name) {
        None => {}
        Some(change) => match log.push(Change {
            name: change.name,
            bytes: change.name,
            is_removal: true,
        }) {
            Ok(()) => {}
            Err(_) => unreachable!(),
        },
    }
}

// Adds a directory, where there is room.
pub(crate) fn add_directory(store: &mut Vec<u8>, names: &mut Vec<Part>, name: &str)
    requires store { vec_len store.old + length name.now ≤ vec_capacity store.old }
    requires names { vec_len names.old < vec_capacity names.old }
    requires lies { names_lie_in (length store.old.items) names.old.items ≡ true }
    ensures directories { directories_of store.new.items names.new.items ≡ set.insert
        (directories_of store.old.items names.old.items) name.now }
    ensures lies { names_lie_in (length store.new.items) names.new.items ≡ true }
    ensures len { vec_len store.new ≡ vec_len store.old + length name.now }
    ensures names_len { vec_len names.new ≡ vec_len names.old + 1 }
    ensures capacity { vec_capacity store.old ≤ vec_capacity store.new }
    ensures names_capacity { vec_capacity names.old ≤ vec_capacity names.new }
{
    let part = append(store, name.as_bytes());
    match names.push(part) {
        Ok(()) => {}
        Err(_) => unreachable!(),
    }
}

// The directories have the name, with one more of them.
fn seen(store: &[u8], part: Part, name: &[u8], found: bool) -> bool
    requires { lies_in (length store.now) part ≡ true }
    ensures { result ≡ (bytes_eq name.now (part_of store.now part) || found) }
{
    name == &store[part.from..part.to] || found
}

// The directories have the name.
pub(crate) fn has_directory(store: &[u8], names: &[Part], name: &str) -> bool
    requires { names_lie_in (length store.now) names.now ≡ true }
    ensures { result ≡ set.contains (directories_of store.now names.now) name.now }
{
    let mut found = false;
    for part in names {
        found = seen(store, *part, name.as_bytes(), found);
    }
    found
}
