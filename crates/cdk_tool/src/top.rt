// The top call: the order of refusals, of the memory that is taken and of the writes.
ghost use Rattle.std.specs.Prelude.{◌≡◌, ◌≤◌, ℕ, List, true, false, [], ◌∷◌, IfOk, IfErr, IfSome, OnSome, OnErr, None, Some, MatchOption, map, codes};
ghost use Rattle.cdk_base.specs.declared.Setting.{Setting};
ghost use Rattle.cdk_outside.specs.Outside.{Holds, Rose};
ghost use Rattle.cdk_write.specs.Lines.{read_line, write_line, error_line, bad_words_line, memory_line, Says};
ghost use Rattle.cdk_write.specs.Steps.{step_view, step_path, files_after_all, directories_after_all, StoppedAt, put, path_in as path_in_directory};
ghost use Rattle.cdk_synthesis.specs.Assembly.{assembly_of, tree_of, AllUtf8};
ghost use Rattle.cdk_synthesis.specs.Checks.{AreCounted};
ghost use Rattle.cdk_synthesis.specs.Passes.{first_fault};
ghost use Rattle.cdk_tool.specs.Assembly.{steps_of as steps_of_writing};
ghost use Rattle.cdk_tool.specs.Headline.{MeaningIsKept};
ghost use Rattle.cdk_tool.specs.EvalCauses.{is_reported, IsReported, IsPartlyReported, IsBadInput, IsUnread};
ghost use Rattle.cdk_words.specs.Settings.{settings_in};
ghost use Rattle.cdk_words.specs.Words.{command_of, OnSynth, OnEval};
ghost use Rattle.cdk_words.specs.Status.{is_of_synth, is_of_writing, may_answer, may_have_written, may_have_printed, IsComplete, IsCompleteEval};
ghost use Rattle.cdk_tool.specs.Causes.{IsCause, IsUnsynthesised, IsDone, IsCut, IsReadFault, IsAppFault, IsToldFault, IsToldRefusal};

use crate::evaluation::eval_command;
use cdk_base::{Code, Fault, List, Setting, Text};
use cdk_outside::{Files, ReadError, Sink};
use cdk_passes::fault_at_root;
use cdk_synthesis::{File, MOST_BYTES, files_keep_meaning, synth};
use cdk_words::{Command, Status, plain, settings_of};
use cdk_write::{
    Action, BAD_WORDS, OUT_OF_MEMORY, Step, error_text, path_in, read_text, tell, write_steps,
};
use std::alloc::{AllocError, Global};

// Why nothing is written.
#[derive(Drop)]
enum Refusal {
    // A read of the application has failed.
    Unread,
    // The application has a fault, or no memory was found for telling it.
    Faulty(Fault),
    // No memory was found.
    NoRoom,
}

// The files of the application's assembly, with the settings of these words laid over its context.
fn synthesised(alloc: Global, bytes: &[u8], settings: &[Text]) -> Result<List<File>, Refusal>
    ensures ok { IfOk result (λ list. (first_fault bytes.now (settings_in settings.now) ≡ None) × (list ≡ assembly_of bytes.now (settings_in settings.now)) × AreCounted (tree_of bytes.now (settings_in settings.now)) × AllUtf8 list) }
    ensures refused { IfErr result (IsUnsynthesised bytes.now (settings_in settings.now)) }
{
    let Ok(settings) = settings_of(alloc, settings) else {
        return Err(Refusal::NoRoom);
    };
    match synth(alloc, bytes, settings.as_slice()) {
        Ok(list) => Ok(list),
        Err(fault) => Err(Refusal::Faulty(fault)),
    }
}

// The files of the assembly of the application in the file. It is read first, and then the settings.
fn gather<F: Files>(
    alloc: Global,
    app: &str,
    settings: &[Text],
    files: &mut F,
) -> Result<List<File>, Refusal>
    ensures ok { IfOk result (λ list. (bytes : List ℕ) × Holds (F.files files.old) app.now bytes × (first_fault bytes (settings_in settings.now) ≡ None) × (list ≡ assembly_of bytes (settings_in settings.now)) × AreCounted (tree_of bytes (settings_in settings.now)) × AllUtf8 list) }
    ensures refused { IfErr result (λ refusal. IsCause refusal (F.files files.old) app.now (settings_in settings.now) (F.read_faults files.old) (F.read_faults files.new) (F.failed_read files.new)) }
    ensures files { F.files files.new ≡ F.files files.old }
    ensures directories { F.directories files.new ≡ F.directories files.old }
    ensures never_falls { F.read_faults files.old ≤ F.read_faults files.new }
    ensures write_faults { F.write_faults files.new ≡ F.write_faults files.old }
    ensures failed_write { F.failed_write files.new ≡ F.failed_write files.old }
{
    match files.read(alloc, app, MOST_BYTES) {
        Ok(bytes) => synthesised(alloc, bytes.as_slice(), settings),
        Err(ReadError::TooLong) => Err(Refusal::Faulty(fault_at_root(alloc, Code::TooLong))),
        Err(ReadError::Failed) => Err(Refusal::Unread),
        Err(ReadError::Memory) => Err(Refusal::NoRoom),
    }
}

// The steps before the first file: the directory is made, and the manifest of before is taken out.
fn first_steps<'a>(alloc: Global, directory: &str) -> Result<Vec<Step<'a>>, AllocError>
    ensures { IfOk result (λ steps. map step_view steps.items ≡ steps_of_writing directory.now []) }
{
    let path = Text::new(alloc, directory)?;
    let make = Step::new(alloc, Action::MakeDirectory, path)?;
    let path = path_in(alloc, directory, "manifest.json")?;
    let remove = Step::new(alloc, Action::Remove, path)?;
    let mut steps = Vec::new(alloc);
    steps.push(make)?;
    steps.push(remove)?;
    Ok(steps)
}

fn step_of<'a>(alloc: Global, directory: &str, file: &'a File) -> Result<Step<'a>, AllocError>
    ensures { IfOk result (λ step. step_view step ≡ put (path_in_directory directory.now file.now.name) file.now.bytes) }
{
    let path = path_in(alloc, directory, file.name.as_str())?;
    Step::new(alloc, Action::Put(file.bytes.as_slice()), path)
}

// The steps of writing the files, each with its path and its line.
fn steps_of<'a>(
    alloc: Global,
    directory: &str,
    list: &'a [File],
) -> Result<Vec<Step<'a>>, AllocError>
    ensures { IfOk result (λ steps. map step_view steps.items ≡ steps_of_writing directory.now list.now) }
{
    let mut steps = first_steps(alloc, directory)?;
    for file in list {
        steps.push(step_of(alloc, directory, file)?)?;
    }
    Ok(steps)
}

// Performs the steps. Where one fails, its line is said. No memory is asked for.
fn perform<F: Files, E: Sink>(steps: &[Step<'_>], files: &mut F, err: &mut E) -> Status
    ensures kind { is_of_writing result ≡ true }
    ensures done { result ≡ Status.Done → F.files files.new ≡ files_after_all (map step_view steps.now) (F.files files.old) }
    ensures done_directories { result ≡ Status.Done → F.directories files.new ≡ directories_after_all (map step_view steps.now) (F.directories files.old) }
    ensures done_err { result ≡ Status.Done → E.written err.new ≡ E.written err.old }
    ensures cut { result ≡ Status.WriteFault → (k : ℕ) × (stop : StoppedAt (map step_view steps.now) k (F.files files.old) (F.files files.new) (F.directories files.old) (F.directories files.new) (F.failed_write files.new))
        × Says (E.written err.old) (E.written err.new) (E.faults err.old) (E.faults err.new) (write_line (step_path stop.step)) }
    ensures rose { result ≡ Status.WriteFault → Rose (F.write_faults files.old) (F.write_faults files.new) }
    ensures never_falls { F.write_faults files.old ≤ F.write_faults files.new }
    ensures read_faults { F.read_faults files.new ≡ F.read_faults files.old }
    ensures failed_read { F.failed_read files.new ≡ F.failed_read files.old }
{
    match write_steps(files, steps) {
        Ok(()) => Status::Done,
        Err(k) => {
            tell(err, steps[k].line.as_str());
            Status::WriteFault
        }
    }
}

#[tactic(auto, unfolding(cdk_write::specs::Lines::memory_line))]
pub(crate) fn out_of_memory<E: Sink>(err: &mut E) -> Status
    ensures status { result ≡ Status.NoMemory }
    ensures said { Says (E.written err.old) (E.written err.new) (E.faults err.old) (E.faults err.new) memory_line }
{
    tell(err, OUT_OF_MEMORY);
    Status::NoMemory
}

fn tell_fault<E: Sink>(alloc: Global, fault: Fault, err: &mut E) -> Status
    ensures { IsToldFault fault result (E.written err.old) (E.written err.new) (E.faults err.old) (E.faults err.new) }
{
    match fault {
        Fault::App { code, place } => match error_text(alloc, code, place.as_str()) {
            Ok(line) => {
                tell(err, line.as_str());
                Status::AppFault
            }
            Err(_) => out_of_memory(err),
        },
        _ => out_of_memory(err),
    }
}

// What is said of a refusal, and its status.
fn refuse<E: Sink>(alloc: Global, app: &str, refusal: Refusal, err: &mut E) -> Status
    ensures { IsToldRefusal refusal result app.now (E.written err.old) (E.written err.new) (E.faults err.old) (E.faults err.new) }
{
    match refusal {
        Refusal::Unread => match read_text(alloc, app) {
            Ok(line) => {
                tell(err, line.as_str());
                Status::ReadFault
            }
            Err(_) => out_of_memory(err),
        },
        Refusal::Faulty(fault) => tell_fault(alloc, fault, err),
        Refusal::NoRoom => out_of_memory(err),
    }
}

fn synth_command<F: Files, E: Sink>(
    alloc: Global,
    app: &str,
    directory: &str,
    settings: &[Text],
    files: &mut F,
    err: &mut E,
) -> Status
    ensures kind { is_of_synth result ≡ true }
    ensures read { result ≡ Status.ReadFault → IsReadFault app.now (F.read_faults files.old) (F.read_faults files.new) (F.failed_read files.new) (E.written err.old) (E.written err.new) (E.faults err.old) (E.faults err.new) }
    ensures fault { result ≡ Status.AppFault → IsAppFault (F.files files.old) app.now (settings_in settings.now) (E.written err.old) (E.written err.new) (E.faults err.old) (E.faults err.new) }
    ensures done { result ≡ Status.Done → IsDone app.now directory.now (settings_in settings.now) (F.files files.old) (F.files files.new) (F.directories files.old) (F.directories files.new) }
    ensures meaning { result ≡ Status.Done → MeaningIsKept app.now directory.now (settings_in settings.now) (F.files files.old) (F.files files.new) }
    ensures done_err { result ≡ Status.Done → E.written err.new ≡ E.written err.old }
    ensures cut { result ≡ Status.WriteFault → IsCut app.now directory.now (settings_in settings.now) (F.files files.old) (F.files files.new) (F.directories files.old) (F.directories files.new) (F.failed_write files.new) (E.written err.old) (E.written err.new) (E.faults err.old) (E.faults err.new) }
    ensures rose { result ≡ Status.WriteFault → Rose (F.write_faults files.old) (F.write_faults files.new) }
    ensures kept_files { is_of_writing result ≡ false → F.files files.new ≡ F.files files.old }
    ensures kept_directories { is_of_writing result ≡ false → F.directories files.new ≡ F.directories files.old }
    ensures memory { result ≡ Status.NoMemory → Says (E.written err.old) (E.written err.new) (E.faults err.old) (E.faults err.new) memory_line }
{
    // What is written means what the application means.
    files_keep_meaning();
    match gather(alloc, app, settings, files) {
        Ok(list) => match steps_of(alloc, directory, list.as_slice()) {
            Ok(steps) => perform(steps.as_slice(), files, err),
            Err(_) => out_of_memory(err),
        },
        Err(refusal) => refuse(alloc, app, refusal, err),
    }
}

#[tactic(auto, unfolding(cdk_write::specs::Lines::bad_words_line))]
fn bad_words<E: Sink>(err: &mut E) -> Status
    ensures status { result ≡ Status.BadWords }
    ensures said { Says (E.written err.old) (E.written err.new) (E.faults err.old) (E.faults err.new) bad_words_line }
{
    tell(err, BAD_WORDS);
    Status::BadWords
}

/// Carries out the command that the words name, and answers how it ended. Words that aren't plain are refused.
///
/// `synth APP OUTDIR [KEY=VALUE]...` reads APP, lays the settings over the context of its root, and makes the whole assembly
/// in memory, with all names and lines; only then it makes the directory OUTDIR, takes `OUTDIR/manifest.json` out and writes
/// the files in order, the manifest last. It writes nothing to `out`.
///
/// `eval DIR VALUES` reads the assembly in DIR and then the file VALUES, evaluates each stack under the exports of those
/// before it, makes the whole report and its line in memory, and only then prints it to `out`. It writes no file. Its
/// status is `EvalFaults` exactly where a part of the report is a fault.
///
/// Each answer but `Done` and `EvalFaults` has its one line on `err`; a failed write of the line changes nothing else.
pub fn run<F: Files, O: Sink, E: Sink>(
    alloc: Global,
    words: &[Text],
    files: &mut F,
    out: &mut O,
    err: &mut E,
) -> Status
    // Bad words exactly where the words aren't plain.
    ensures bad_words { MatchOption (command_of words.now) (result ≡ Status.BadWords) (λ c. may_answer c result ≡ true) }
    ensures bad_words_line { result ≡ Status.BadWords → Says (E.written err.old) (E.written err.new) (E.faults err.old) (E.faults err.new) bad_words_line }
    // A read fault only where the count of failed reads rose and the kept name is the application's.
    ensures read { result ≡ Status.ReadFault → OnSynth (command_of words.now) (λ app _ _. IsReadFault app (F.read_faults files.old) (F.read_faults files.new) (F.failed_read files.new) (E.written err.old) (E.written err.new) (E.faults err.old) (E.faults err.new)) }
    // A fault that the application that is held has with the settings of the words, and the line names it.
    ensures fault { result ≡ Status.AppFault → OnSynth (command_of words.now) (λ app _ settings. IsAppFault (F.files files.old) app settings (E.written err.old) (E.written err.new) (E.faults err.old) (E.faults err.new)) }
    // An application without fault with these settings, and its assembly is written whole.
    ensures done { result ≡ Status.Done → OnSynth (command_of words.now) (λ app directory settings. IsDone app directory settings (F.files files.old) (F.files files.new) (F.directories files.old) (F.directories files.new)) }
    // Evaluating the written files gives each resource its presence, each property and each output its meaning in the construct
    // tree, under all values, and no text or key of a template has the beginning of a token's marker.
    ensures meaning { result ≡ Status.Done → OnSynth (command_of words.now) (λ app directory settings. MeaningIsKept app directory settings (F.files files.old) (F.files files.new)) }
    ensures done_err { is_reported result ≡ true → E.written err.new ≡ E.written err.old }
    // An application without fault whose writing stopped at a call that failed; what stands, and the name in the line.
    ensures cut { result ≡ Status.WriteFault → OnSynth (command_of words.now) (λ app directory settings. IsCut app directory settings (F.files files.old) (F.files files.new) (F.directories files.old) (F.directories files.new) (F.failed_write files.new) (E.written err.old) (E.written err.new) (E.faults err.old) (E.faults err.new)) }
    ensures rose { result ≡ Status.WriteFault → OnSynth (command_of words.now) (λ _ _ _. Rose (F.write_faults files.old) (F.write_faults files.new)) }
    // An assembly and values that can be used: the whole report is printed, with a fault in it or without.
    ensures eval_done { result ≡ Status.Done → OnEval (command_of words.now) (λ directory values. IsReported false (F.files files.old) directory values (O.written out.old) (O.written out.new)) }
    ensures eval_faults { result ≡ Status.EvalFaults → OnEval (command_of words.now) (λ directory values. IsReported true (F.files files.old) directory values (O.written out.old) (O.written out.new)) }
    // A file that can't be used, all before it being without fault; the line says which, why and where.
    ensures eval_bad { result ≡ Status.BadInput → OnEval (command_of words.now) (λ directory values. IsBadInput (F.files files.old) directory values (E.written err.old) (E.written err.new) (E.faults err.old) (E.faults err.new)) }
    // A read fault only where the count of failed reads rose; the file is the next to be read, and the kept name.
    ensures eval_read { result ≡ Status.ReadFault → OnEval (command_of words.now) (λ directory values. IsUnread (F.files files.old) directory values (F.read_faults files.old) (F.read_faults files.new) (F.failed_read files.new) (E.written err.old) (E.written err.new) (E.faults err.old) (E.faults err.new)) }
    // A write fault only where the count of the stream rose, and it holds a part of the report, from its beginning.
    ensures eval_part { result ≡ Status.WriteFault → OnEval (command_of words.now) (λ directory values. IsPartlyReported (F.files files.old) directory values (O.written out.old) (O.written out.new)) }
    ensures eval_rose { result ≡ Status.WriteFault → OnEval (command_of words.now) (λ _ _. Rose (O.faults out.old) (O.faults out.new)) }
    ensures eval_line { result ≡ Status.WriteFault → OnEval (command_of words.now) (λ _ _. Says (E.written err.old) (E.written err.new) (E.faults err.old) (E.faults err.new) (write_line (codes "-"))) }
    // All other answers leave files, directories and the stream as they were.
    ensures kept_files { may_have_written (command_of words.now) result ≡ false → F.files files.new ≡ F.files files.old }
    ensures kept_directories { may_have_written (command_of words.now) result ≡ false → F.directories files.new ≡ F.directories files.old }
    ensures out { may_have_printed (command_of words.now) result ≡ false → O.written out.new ≡ O.written out.old }
    ensures memory { result ≡ Status.NoMemory → Says (E.written err.old) (E.written err.new) (E.faults err.old) (E.faults err.new) memory_line }
    // Where no call of the outside fails, plain words are carried out, unless the input has a fault or memory is wanting.
    ensures complete { OnSynth (command_of words.now) (λ _ _ _. ¬ (Rose (F.read_faults files.old) (F.read_faults files.new)) → ¬ (Rose (F.write_faults files.old) (F.write_faults files.new)) → IsComplete result) }
    ensures eval_complete { OnEval (command_of words.now) (λ _ _. ¬ (Rose (F.read_faults files.old) (F.read_faults files.new)) → ¬ (Rose (O.faults out.old) (O.faults out.new)) → IsCompleteEval result) }
{
    match plain(words) {
        None => bad_words(err),
        Some(Command::Synth { app, dir, settings }) => {
            synth_command(alloc, app, dir, settings, files, err)
        }
        Some(Command::Eval { dir, values }) => eval_command(alloc, dir, values, files, out, err),
    }
}
