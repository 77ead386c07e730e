// Settings of the command line.
use crate::faults::{NO_FAULT, fault_text};
use crate::texts::compare;
use cdk_base::{Fault, List, Setting, Text, Value};
use cdk_doc::{read_app, with_settings};
use cdk_settings::{fault_of, first_setting_finding};
use cdk_tally::Tally;
use cdk_tree::{Tree, build};
use std::alloc::{AllocError, Global};

const NEW: [(&str, &str); 1] = [("k", "new")];

const MARKED: [(&str, &str); 2] = [("a", "b"), ("k", "x#{Token[")];

fn push_setting(
    alloc: Global,
    settings: &mut List<Setting>,
    key: &str,
    value: &str,
) -> Result<(), AllocError> {
    let key = Text::new(alloc, key)?;
    let value = Text::new(alloc, value)?;
    settings.push(Setting { key, value })?;
    Ok(())
}

// The settings of keys and values.
fn settings_of(alloc: Global, pairs: &[(&str, &str)]) -> Result<List<Setting>, AllocError> {
    let mut settings = List::new(alloc);
    for (key, value) in pairs {
        push_setting(alloc, &mut settings, key, value)?;
    }
    Ok(settings)
}

// The tree of an application with the settings laid over its context.
fn tree_with(alloc: Global, settings: &[Setting]) -> Result<Tree, Fault> {
    let document = b"{\"app\":\"2\",\"context\":{\"k\":1},\"children\":[]}";
    let app = match read_app(alloc, document) {
        Ok(app) => app,
        Err(fault) => return Err(fault),
    };
    match with_settings(alloc, app, settings) {
        Ok(app) => build(alloc, app),
        Err(fault) => Err(fault),
    }
}

fn root_context(tree: &Tree) -> Option<&str> {
    let root = tree.find("")?;
    tree.context(root, "k").and_then(Value::as_str)
}

// The text that the root's context has under the settings, or the fault.
fn context_text(alloc: Global, settings: &[Setting]) -> Result<String, AllocError> {
    match tree_with(alloc, settings) {
        Ok(tree) => {
            let told = String::from_str(alloc, root_context(&tree).unwrap_or("no text"));
            drop(tree);
            told
        }
        Err(fault) => fault_text(alloc, fault),
    }
}

// The first fault of the settings themselves.
fn first_fault(alloc: Global, settings: &[Setting]) -> Result<String, AllocError> {
    match first_setting_finding(alloc, settings) {
        Ok(Some(finding)) => fault_text(alloc, fault_of(finding)),
        Ok(None) => String::from_str(alloc, NO_FAULT),
        Err(error) => Err(error),
    }
}

/// Tries a setting over a context, and one that holds a marker's beginning.
pub fn try_settings(alloc: Global, tally: &mut Tally) -> Result<(), AllocError> {
    let settings = settings_of(alloc, &NEW)?;
    let told = context_text(alloc, settings.as_slice());
    drop(settings);
    compare(tally, "a setting over a context", "new", told?)?;
    let settings = settings_of(alloc, &MARKED)?;
    let told = first_fault(alloc, settings.as_slice());
    drop(settings);
    compare(tally, "a marker in a setting", "5 ==k", told?)
}
