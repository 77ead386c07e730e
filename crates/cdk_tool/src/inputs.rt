// The inputs of an evaluation: the assembly, then the values.
ghost use Rattle.std.specs.Prelude.{◌≡◌, ◌≤◌, ◌++◌, None, Some, IfOk, IfErr};
ghost use Rattle.std.specs.FinMap.{get};
ghost use Rattle.cdk_eval.specs.Assembly.{assembly_outcome};
ghost use Rattle.cdk_eval.specs.Reading.{read_within, values_read};
ghost use Rattle.cdk_eval.specs.Views.{assembly_view, values_view, report_view};
ghost use Rattle.cdk_tool.specs.Evaluation.{as_input, values_at, evaluated, input_name, misread_name, misread_place, OfAssembly, OfValues};
ghost use Rattle.cdk_printing.specs.Printable.{IsPrintable};
ghost use Rattle.cdk_tool.specs.EvalCauses.{input_of, misread_of, unusable_of as spec_unusable_of, IsOr, IsValuesOf, ReadsInput, ReadsNoted};
ghost use Rattle.cdk_tool.specs.declared.inputs.Source.TheVariants as sources;
ghost use Rattle.cdk_tool.specs.declared.inputs.Unusable.TheVariants.{Unread, Bad, NoRoom};

use cdk_assemblies::read_assembly;
use cdk_base::Text;
use cdk_eval::{AsmError, Assembly, Report, Values, ValuesError};
use cdk_evaluator::eval;
use cdk_outside::{Files, ReadError};
use cdk_reading::read_values;
use std::alloc::Global;

// The most bytes of a values file: 16 MiB.
const MOST_BYTES: usize = 16_777_216;

// What a file is read for.
#[derive(Clone, Copy)]
pub(crate) enum Source {
    Assembly,
    Values,
}

// What is wrong with a file.
#[derive(Drop)]
pub(crate) enum Defect {
    TooLong,
    NotJson,
    Shape { pointer: Text },
    Cycle { artifact: Text },
}

impl Defect {
    // The place in the file: a JSON Pointer, or of a cycle an artifact id.
    pub(crate) fn place(&self) -> &str
        ensures { result.now ≡ misread_place (misread_of self.now) }
    {
        match self {
            Defect::TooLong | Defect::NotJson => "",
            Defect::Shape { pointer } => pointer.as_str(),
            Defect::Cycle { artifact } => artifact.as_str(),
        }
    }

    // The name of the defect in a file that is read for this.
    pub(crate) fn name(&self, source: Source) -> &str
        ensures { result.now ≡ input_name (input_of source) ++ misread_name (misread_of self.now) }
    {
        match (source, self) {
            (Source::Assembly, Defect::TooLong) => "AsmTooLong",
            (Source::Assembly, Defect::NotJson) => "AsmNotJson",
            (Source::Assembly, Defect::Shape { .. }) => "AsmShape",
            (Source::Assembly, Defect::Cycle { .. }) => "AsmCycle",
            (Source::Values, Defect::TooLong) => "ValuesTooLong",
            (Source::Values, Defect::NotJson) => "ValuesNotJson",
            (Source::Values, Defect::Shape { .. }) => "ValuesShape",
            (Source::Values, Defect::Cycle { .. }) => "ValuesCycle",
        }
    }
}

// Why the inputs can't be used.
#[derive(Drop)]
pub(crate) enum Unusable {
    // A read of the file has failed.
    Unread {
        file: Text,
    },
    // The file misses its form.
    Bad {
        source: Source,
        file: Text,
        defect: Defect,
    },
    // No memory was found.
    NoRoom,
}

fn unusable_of(error: AsmError) -> Unusable
    ensures { result ≡ spec_unusable_of error }
{
    match error {
        AsmError::ReadFault { file } => Unusable::Unread { file },
        AsmError::TooLong { file } => bad_assembly(file, Defect::TooLong),
        AsmError::NotJson { file } => bad_assembly(file, Defect::NotJson),
        AsmError::Shape { file, pointer } => bad_assembly(file, Defect::Shape { pointer }),
        AsmError::Cycle { file, artifact } => bad_assembly(file, Defect::Cycle { artifact }),
        AsmError::Memory => Unusable::NoRoom,
    }
}

fn bad_assembly(file: Text, defect: Defect) -> Unusable
    ensures { result ≡ Bad sources.Assembly file defect }
{
    Unusable::Bad {
        source: Source::Assembly,
        file,
        defect,
    }
}

// The values file misses its form.
fn bad_values(alloc: Global, file: &str, defect: Defect) -> Unusable
    ensures { IsOr NoRoom (Bad sources.Values file.now defect) result }
{
    match Text::new(alloc, file) {
        Ok(file) => Unusable::Bad {
            source: Source::Values,
            file,
            defect,
        },
        Err(_) => Unusable::NoRoom,
    }
}

fn unread(alloc: Global, file: &str) -> Unusable
    ensures { IsOr NoRoom (Unread file.now) result }
{
    match Text::new(alloc, file) {
        Ok(file) => Unusable::Unread { file },
        Err(_) => Unusable::NoRoom,
    }
}

fn values_of(alloc: Global, file: &str, bytes: &[u8]) -> Result<Values, Unusable>
    ensures { IsValuesOf result file.now (values_read None bytes.now) }
{
    match read_values(alloc, bytes) {
        Ok(values) => Ok(values),
        Err(ValuesError::NotJson) => Err(bad_values(alloc, file, Defect::NotJson)),
        Err(ValuesError::Shape { pointer }) => {
            Err(bad_values(alloc, file, Defect::Shape { pointer }))
        }
        Err(ValuesError::Memory) => Err(Unusable::NoRoom),
    }
}

fn values_in<F: Files>(alloc: Global, file: &str, files: &mut F) -> Result<Values, Unusable>
    ensures answer { ReadsInput values_view result (F.files files.old) (λ m. as_input OfValues (values_at (get m) file.now)) }
    ensures noted { ReadsNoted result (F.read_faults files.old) (F.read_faults files.new) (F.failed_read files.new) }
    ensures files { F.files files.new ≡ F.files files.old }
    ensures directories { F.directories files.new ≡ F.directories files.old }
    ensures never_falls { F.read_faults files.old ≤ F.read_faults files.new }
    ensures write_faults { F.write_faults files.new ≡ F.write_faults files.old }
    ensures failed_write { F.failed_write files.new ≡ F.failed_write files.old }
{
    match files.read(alloc, file, MOST_BYTES) {
        Ok(bytes) => values_of(alloc, file, bytes.as_slice()),
        Err(ReadError::TooLong) => Err(bad_values(alloc, file, Defect::TooLong)),
        Err(ReadError::Failed) => Err(unread(alloc, file)),
        Err(ReadError::Memory) => Err(Unusable::NoRoom),
    }
}

fn assembly_in<F: Files>(
    alloc: Global,
    directory: &str,
    files: &mut F,
) -> Result<Assembly, Unusable>
    ensures answer { ReadsInput assembly_view result (F.files files.old) (λ m. as_input OfAssembly (read_within (Some 268435456) (get m) directory.now)) }
    ensures noted { ReadsNoted result (F.read_faults files.old) (F.read_faults files.new) (F.failed_read files.new) }
    ensures files { F.files files.new ≡ F.files files.old }
    ensures directories { F.directories files.new ≡ F.directories files.old }
    ensures never_falls { F.read_faults files.old ≤ F.read_faults files.new }
    ensures write_faults { F.write_faults files.new ≡ F.write_faults files.old }
    ensures failed_write { F.failed_write files.new ≡ F.failed_write files.old }
{
    match read_assembly(alloc, files, directory) {
        Ok(assembly) => Ok(assembly),
        Err(error) => Err(unusable_of(error)),
    }
}

fn report_of(alloc: Global, assembly: &Assembly, values: &Values) -> Result<Report, Unusable>
    ensures report { IfOk result (λ report. report_view report ≡ assembly_outcome (values_view values.now) (assembly_view assembly.now)) }
    ensures printable { IfOk result (λ report. IsPrintable (report_view report)) }
    ensures refused { IfErr result (λ unusable. unusable ≡ NoRoom) }
{
    match eval(alloc, assembly, values) {
        Ok(report) => Ok(report),
        Err(_) => Err(Unusable::NoRoom),
    }
}

// What the assembly in a directory comes to under the values of a file. The assembly is read first.
pub(crate) fn report_in<F: Files>(
    alloc: Global,
    directory: &str,
    values: &str,
    files: &mut F,
) -> Result<Report, Unusable>
    ensures answer { ReadsInput report_view result (F.files files.old) (λ m. evaluated (get m) directory.now values.now) }
    ensures printable { IfOk result (λ report. IsPrintable (report_view report)) }
    ensures noted { ReadsNoted result (F.read_faults files.old) (F.read_faults files.new) (F.failed_read files.new) }
    ensures files { F.files files.new ≡ F.files files.old }
    ensures directories { F.directories files.new ≡ F.directories files.old }
    ensures never_falls { F.read_faults files.old ≤ F.read_faults files.new }
    ensures write_faults { F.write_faults files.new ≡ F.write_faults files.old }
    ensures failed_write { F.failed_write files.new ≡ F.failed_write files.old }
{
    let assembly = assembly_in(alloc, directory, files)?;
    let values = match values_in(alloc, values, files) {
        Ok(values) => values,
        Err(unusable) => return Err(unusable),
    };
    report_of(alloc, &assembly, &values)
}
