// The lines on the error stream. Each is made whole before its one write.
ghost use Rattle.std.specs.Prelude.{◌≡◌, IfOk};
ghost use Rattle.cdk_write.specs.Lines.{read_line, write_line, error_line, input_line, Says};

use cdk_base::{Code, Text, json_text};
use cdk_outside::Sink;
use std::alloc::{AllocError, Global};

/// What is said of words that are no command.
pub const BAD_WORDS: &str = "cdkcore: bad words\n";

/// What is said where no memory is found.
pub const OUT_OF_MEMORY: &str = "cdkcore: out of memory\n";

/// Writes a line by one call. Where that fails, a part of the line may stand and nothing else is done.
pub fn tell<E: Sink>(err: &mut E, line: &str)
    ensures { Says (E.written err.old) (E.written err.new) (E.faults err.old) (E.faults err.new) line.now }
{
    match err.write(line.as_bytes()) {
        Ok(()) => {}
        Err(_) => {}
    }
}

#[tactic(auto, unfolding(crate::specs::Lines::read_line))]
/// The line that names a file that cannot be read.
pub fn read_text(alloc: Global, name: &str) -> Result<Text, AllocError>
    ensures { IfOk result (λ line. line ≡ read_line name.now) }
{
    let name = json_text(alloc, name)?;
    let name = name.as_str();
    let line = format!(in alloc; "cdkcore: cannot read {name}\n")?;
    Ok(Text::from_string(line))
}

#[tactic(auto, unfolding(crate::specs::Lines::write_line))]
/// The line that names a file or directory that cannot be written.
pub fn write_text(alloc: Global, name: &str) -> Result<Text, AllocError>
    ensures { IfOk result (λ line. line ≡ write_line name.now) }
{
    let name = json_text(alloc, name)?;
    let name = name.as_str();
    let line = format!(in alloc; "cdkcore: cannot write {name}\n")?;
    Ok(Text::from_string(line))
}

#[tactic(auto, unfolding(crate::specs::Lines::error_line))]
/// The line that names a fault of the application and its place.
pub fn error_text(alloc: Global, code: Code, place: &str) -> Result<Text, AllocError>
    ensures { IfOk result (λ line. line ≡ error_line code place.now) }
{
    let number = code.number();
    let name = code.name();
    let place = json_text(alloc, place)?;
    let place = place.as_str();
    let line = format!(in alloc; "cdkcore: error {number} {name} {place}\n")?;
    Ok(Text::from_string(line))
}

#[tactic(auto, unfolding(crate::specs::Lines::input_line))]
/// The line that names what is wrong with a file of an assembly or a values file, and the place in it.
pub fn input_text(alloc: Global, kind: &str, file: &str, place: &str) -> Result<Text, AllocError>
    ensures { IfOk result (λ line. line ≡ input_line kind.now file.now place.now) }
{
    let file = json_text(alloc, file)?;
    let file = file.as_str();
    let place = json_text(alloc, place)?;
    let place = place.as_str();
    let line = format!(in alloc; "cdkcore: input {kind} {file} {place}\n")?;
    Ok(Text::from_string(line))
}
