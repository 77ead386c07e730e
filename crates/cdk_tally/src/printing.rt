// The end of a program of cases.
use crate::Trouble;
use cdk_outside::Sink;
use std::process::ExitCode;

fn print_text<S: Sink>(out: &mut S, text: &str) -> bool {
    out.write(text.as_bytes()).is_ok()
}

/// Prints the text of all outcomes, or why the cases weren't run. It is a failure where they weren't, or where the text
/// isn't printed; cases that came out otherwise are none.
pub fn print<S: Sink>(out: &mut S, outcomes: &Result<String, Trouble>) -> ExitCode {
    let (text, ran) = match outcomes {
        Ok(text) => (text.as_str(), true),
        Err(trouble) => (trouble.text(), false),
    };
    if print_text(out, text) && ran {
        ExitCode::SUCCESS
    } else {
        ExitCode::FAILURE
    }
}
