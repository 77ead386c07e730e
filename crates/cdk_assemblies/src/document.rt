// One document: its file's bytes, the JSON value, its form.
ghost use Rattle.std.specs.Prelude.{◌≡◌, ◌≤◌, IfOk, IfErr};
ghost use Rattle.serde_json.specs.View.{view};
ghost use Rattle.cdk_base.specs.Json.{parsed};
ghost use Rattle.cdk_eval.specs.declared.assembly.AsmError.TheVariants.{Memory};
ghost use Rattle.cdk_eval.specs.Form.{first_miss as spec_first_miss};
ghost use Rattle.cdk_eval.specs.Reading.{at_file, formed, in_form, path_in as spec_path_in};
ghost use Rattle.cdk_assemblies.specs.Answers.{Reads, FaultNoted, document_in, Refuses, Gives};

use cdk_base::{Text, Value, parse};
use cdk_eval::{AsmError, Role};
use cdk_form::first_miss;
use cdk_outside::{Files, ReadError};
use std::alloc::Global;

/// The most bytes that a file of an assembly may have (own).
pub const MOST_BYTES: usize = 268_435_456;

/// A copy of a text.
pub fn copied(alloc: Global, text: &str) -> Result<Text, AsmError>
    ensures ok { IfOk result (λ t. t ≡ text.now) }
    ensures err { IfErr result (λ e. e ≡ Memory) }
{
    match Text::new(alloc, text) {
        Ok(text) => Ok(text),
        Err(_) => Err(AsmError::Memory),
    }
}

/// The path of a name in a directory: the two with a slash between.
pub fn path_in(alloc: Global, directory: &str, name: &str) -> Result<Text, AsmError>
    ensures ok { IfOk result (λ path. path ≡ spec_path_in directory.now name.now) }
    ensures err { IfErr result (λ e. e ≡ Memory) }
{
    match format!(in alloc; "{directory}/{name}") {
        Ok(path) => Ok(Text::from_string(path)),
        Err(_) => Err(AsmError::Memory),
    }
}

// A read that gave no bytes, told of its file.
fn refusal(alloc: Global, error: ReadError, path: &str) -> AsmError
    ensures { Refuses result error path.now }
{
    let Ok(file) = Text::new(alloc, path) else {
        return AsmError::Memory;
    };
    match error {
        ReadError::TooLong => AsmError::TooLong { file },
        ReadError::Failed => AsmError::ReadFault { file },
        ReadError::Memory => AsmError::Memory,
    }
}

// A document that misses its form, or none.
fn misshapen(alloc: Global, role: Role, document: &Value, path: &str) -> Result<(), AsmError>
    ensures { Gives (λ _. view document.now) result (at_file path.now (formed (view document.now) (spec_first_miss role (view document.now)))) }
{
    match first_miss(alloc, role, document) {
        Ok(None) => Ok(()),
        Ok(Some(pointer)) => Err(AsmError::Shape {
            file: copied(alloc, path)?,
            pointer,
        }),
        Err(_) => Err(AsmError::Memory),
    }
}

// The document of a file's bytes.
fn document_of(alloc: Global, role: Role, bytes: &[u8], path: &str) -> Result<Value, AsmError>
    ensures { Gives view result (at_file path.now (in_form role (parsed bytes.now))) }
{
    let document = match parse(alloc, bytes) {
        Ok(Some(document)) => document,
        Ok(None) => {
            return Err(AsmError::NotJson {
                file: copied(alloc, path)?,
            });
        }
        Err(_) => return Err(AsmError::Memory),
    };
    misshapen(alloc, role, &document, path)?;
    Ok(document)
}

/// The document at a path, in the form of its role.
pub fn read_document<F: Files>(
    alloc: Global,
    files: &mut F,
    role: Role,
    path: &str,
) -> Result<Value, AsmError>
    ensures reads { Reads view result (F.files files.old) (document_in role path.now) }
    ensures noted { FaultNoted result (F.read_faults files.old) (F.read_faults files.new) (F.failed_read files.old) (F.failed_read files.new) }
    ensures never_falls { F.read_faults files.old ≤ F.read_faults files.new }
    ensures files { F.files files.new ≡ F.files files.old }
    ensures directories { F.directories files.new ≡ F.directories files.old }
    ensures write_faults { F.write_faults files.new ≡ F.write_faults files.old }
    ensures failed_write { F.failed_write files.new ≡ F.failed_write files.old }
{
    match files.read(alloc, path, MOST_BYTES) {
        Ok(bytes) => document_of(alloc, role, bytes.as_slice(), path),
        Err(error) => Err(refusal(alloc, error, path)),
    }
}
