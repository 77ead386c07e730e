// The command `eval`: what an assembly comes to under given values is printed.
ghost use Rattle.std.specs.Prelude.{◌≡◌, true, false, codes, IfOk, OnOk, OnErr};
ghost use Rattle.cdk_eval.specs.Views.{report_view};
ghost use Rattle.cdk_outside.specs.Outside.{Rose, AppendsPart, with_bytes};
ghost use Rattle.cdk_printing.specs.Lines.{report_text as text_of_report};
ghost use Rattle.cdk_printing.specs.Printable.{IsPrintable};
ghost use Rattle.cdk_write.specs.Lines.{write_line, memory_line, Says};
ghost use Rattle.cdk_tool.specs.EvalCauses.{reported_status, is_reported, IsPrinted, IsShown, IsReported, IsPartlyReported, IsBadInput, IsUnread, IsToldUnusable};
ghost use Rattle.cdk_words.specs.Status.{is_of_eval, is_of_printing};

use crate::inputs::{Unusable, report_in};
use crate::top::out_of_memory;
use cdk_base::Text;
use cdk_eval::Report;
use cdk_outside::{Failed, Files, Sink};
use cdk_printing::{has_fault, report_text};
use cdk_words::Status;
use cdk_write::{input_text, read_text, tell, write_text};
use std::alloc::{AllocError, Global};

// A text that is to be printed, and the line that is said where that fails: all the memory that printing takes.
#[derive(Drop)]
struct Page {
    text: Text,
    line: Text,
}

fn page_of(alloc: Global, report: &Report) -> Result<Page, AllocError>
    requires { IsPrintable (report_view report.now) }
    ensures text { IfOk result (λ page. page.text ≡ text_of_report (report_view report.now)) }
    ensures line { IfOk result (λ page. page.line ≡ write_line (codes "-")) }
{
    let text = report_text(alloc, report)?;
    let line = write_text(alloc, "-")?;
    Ok(Page { text, line })
}

// Writes the text by one call, or by none where it is empty.
fn write_text_to<O: Sink>(text: &str, out: &mut O) -> Result<(), Failed>
    ensures ok { OnOk result (O.written out.new ≡ with_bytes text.now (O.written out.old)) }
    ensures err { OnErr result (AppendsPart (O.written out.old) (O.written out.new) text.now) }
    ensures failed { OnErr result (Rose (O.faults out.old) (O.faults out.new)) }
{
    if text == "" {
        return Ok(());
    }
    out.write(text.as_bytes())
}

// Prints a page, and answers the status or that the printing failed, which is said. No memory is asked for.
fn print<O: Sink, E: Sink>(page: &Page, status: Status, out: &mut O, err: &mut E) -> Status
    requires { page.now.line ≡ write_line (codes "-") }
    ensures { IsPrinted page.now.text status result (O.written out.old) (O.written out.new) (O.faults out.old) (O.faults out.new) (E.written err.old) (E.written err.new) (E.faults err.old) (E.faults err.new) }
{
    match write_text_to(page.text.as_str(), out) {
        Ok(()) => status,
        Err(_) => {
            tell(err, page.line.as_str());
            Status::WriteFault
        }
    }
}

fn status_of(faulty: bool) -> Status
    ensures { result ≡ reported_status faulty }
{
    if faulty {
        Status::EvalFaults
    } else {
        Status::Done
    }
}

fn show<O: Sink, E: Sink>(alloc: Global, report: &Report, out: &mut O, err: &mut E) -> Status
    requires { IsPrintable (report_view report.now) }
    ensures { IsShown (report_view report.now) result (O.written out.old) (O.written out.new) (O.faults out.old) (O.faults out.new) (E.written err.old) (E.written err.new) (E.faults err.old) (E.faults err.new) }
{
    let status = status_of(has_fault(report));
    match page_of(alloc, report) {
        Ok(page) => print(&page, status, out, err),
        Err(_) => out_of_memory(err),
    }
}

// What is said of inputs that can't be used, and the status.
fn refuse<E: Sink>(alloc: Global, unusable: Unusable, err: &mut E) -> Status
    ensures { IsToldUnusable unusable result (E.written err.old) (E.written err.new) (E.faults err.old) (E.faults err.new) }
{
    match unusable {
        Unusable::Unread { file } => match read_text(alloc, file.as_str()) {
            Ok(line) => {
                tell(err, line.as_str());
                Status::ReadFault
            }
            Err(_) => out_of_memory(err),
        },
        Unusable::Bad {
            source,
            file,
            defect,
        } => match input_text(alloc, defect.name(source), file.as_str(), defect.place()) {
            Ok(line) => {
                tell(err, line.as_str());
                Status::BadInput
            }
            Err(_) => out_of_memory(err),
        },
        Unusable::NoRoom => out_of_memory(err),
    }
}

/// Reads the assembly in the directory and the values, evaluates, and prints the whole report.
pub(crate) fn eval_command<F: Files, O: Sink, E: Sink>(
    alloc: Global,
    directory: &str,
    values: &str,
    files: &mut F,
    out: &mut O,
    err: &mut E,
) -> Status
    ensures kind { is_of_eval result ≡ true }
    ensures done { result ≡ Status.Done → IsReported false (F.files files.old) directory.now values.now (O.written out.old) (O.written out.new) }
    ensures faults { result ≡ Status.EvalFaults → IsReported true (F.files files.old) directory.now values.now (O.written out.old) (O.written out.new) }
    ensures done_err { is_reported result ≡ true → E.written err.new ≡ E.written err.old }
    ensures read { result ≡ Status.ReadFault → IsUnread (F.files files.old) directory.now values.now (F.read_faults files.old) (F.read_faults files.new) (F.failed_read files.new) (E.written err.old) (E.written err.new) (E.faults err.old) (E.faults err.new) }
    ensures bad { result ≡ Status.BadInput → IsBadInput (F.files files.old) directory.now values.now (E.written err.old) (E.written err.new) (E.faults err.old) (E.faults err.new) }
    ensures part { result ≡ Status.WriteFault → IsPartlyReported (F.files files.old) directory.now values.now (O.written out.old) (O.written out.new) }
    ensures rose { result ≡ Status.WriteFault → Rose (O.faults out.old) (O.faults out.new) }
    ensures write_line { result ≡ Status.WriteFault → Says (E.written err.old) (E.written err.new) (E.faults err.old) (E.faults err.new) (write_line (codes "-")) }
    ensures kept_out { is_of_printing result ≡ false → O.written out.new ≡ O.written out.old }
    ensures files { F.files files.new ≡ F.files files.old }
    ensures directories { F.directories files.new ≡ F.directories files.old }
    ensures write_faults { F.write_faults files.new ≡ F.write_faults files.old }
    ensures failed_write { F.failed_write files.new ≡ F.failed_write files.old }
    ensures memory { result ≡ Status.NoMemory → Says (E.written err.old) (E.written err.new) (E.faults err.old) (E.faults err.new) memory_line }
{
    match report_in(alloc, directory, values, files) {
        Ok(report) => show(alloc, &report, out, err),
        Err(unusable) => refuse(alloc, unusable, err),
    }
}
