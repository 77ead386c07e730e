// The application that bytes are, or exactly the first fault.
ghost use Rattle.serde_json.specs.View.{view};
ghost use Rattle.cdk_doc.specs.Answers.{ReadAnswer, DocumentAnswer, ParseAnswer, IsNotJsonFault};

use cdk_base::{Code, Fault, Text, Value, parse};
use cdk_constructs::application_of;
use cdk_findings::first_finding;
use cdk_language::App;
use cdk_members::ReadError;
use cdk_settings::fault_of;
use std::alloc::Global;

fn not_json(alloc: Global) -> Fault
    ensures { IsNotJsonFault result }
{
    match Text::new(alloc, "") {
        Ok(place) => Fault::App {
            code: Code::NotJson,
            place,
        },
        Err(_) => Fault::Memory,
    }
}

fn parsed(alloc: Global, bytes: &[u8]) -> Result<Value, Fault>
    ensures { ParseAnswer result bytes.now }
{
    match parse(alloc, bytes) {
        Ok(Some(value)) => Ok(value),
        Ok(None) => Err(not_json(alloc)),
        Err(_) => Err(Fault::Memory),
    }
}

/// The application of a document, or the first finding.
fn read_document(alloc: Global, value: &Value) -> Result<App, Fault>
    ensures { DocumentAnswer result (view value.now) }
{
    match first_finding(alloc, value) {
        Err(_) => Err(Fault::Memory),
        Ok(Some(finding)) => Err(fault_of(finding)),
        Ok(None) => match application_of(alloc, value) {
            Ok(app) => Ok(app),
            Err(ReadError::Memory) => Err(Fault::Memory),
            Err(ReadError::Shape) => unreachable!(),
        },
    }
}

/// The application that the bytes are. Its faults are `NotJson` at the empty place exactly where the bytes are no JSON
/// text, else exactly the first of the document's findings (`Shape`, `Number` or `LiteralMarker` at its JSON Pointer),
/// and want of memory, which texts with variables that put in more than 16,000,000 expressions are answered with too.
pub fn read_app(alloc: Global, bytes: &[u8]) -> Result<App, Fault>
    ensures { ReadAnswer result bytes.now }
{
    let value = parsed(alloc, bytes)?;
    read_document(alloc, &value)
}
