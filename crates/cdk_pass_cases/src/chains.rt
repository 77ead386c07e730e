// A long chain of lazies: each has that of the next one, and the last has the value 7.
use crate::passes::Pass;
use crate::texts::compare;
use cdk_tally::Tally;
use std::alloc::{AllocError, Global};

// The number of the last lazy.
const LAST: usize = 4_999;

const BEFORE: &str =
    "{\"app\":\"1\",\"children\":[{\"kind\":\"stack\",\"id\":\"S\",\"children\":[{\"kind\":\"resource\",\"id\":\"R\",\"type\":\"T\",\"properties\":{\"P\":{\"CDK::Lazy\":\"S/L0\"}}}";

// A lazy up to its value, that value with the end of the lazy, and what is kept of a lazy, each with `@` for a number.
const HEAD: &str = ",{\"kind\":\"lazy\",\"id\":\"L@\",\"value\":";

const MENTION: &str = "{\"CDK::Lazy\":\"S/L@\"}}";

const KEPT: &str = "(S/L@ 7)";

// A text with the number for each `@`.
fn numbered(alloc: Global, text: &str, number: usize) -> Result<String, AllocError> {
    let digits = number.to_string(alloc)?;
    let piece = text.replace(alloc, "@", digits.as_str());
    drop(digits);
    piece
}

fn push_numbered(
    alloc: Global,
    all: &mut String,
    text: &str,
    number: usize,
) -> Result<(), AllocError> {
    let piece = numbered(alloc, text, number)?;
    let pushed = all.push_str(piece.as_str());
    drop(piece);
    pushed
}

fn push_chain(alloc: Global, document: &mut String) -> Result<(), AllocError> {
    document.push_str(BEFORE)?;
    for n in 0..LAST {
        push_numbered(alloc, document, HEAD, n)?;
        push_numbered(alloc, document, MENTION, n + 1)?;
    }
    push_numbered(alloc, document, HEAD, LAST)?;
    document.push_str("7}]}]}")
}

// What is kept: 7 of each, the last lazy first.
fn all_kept(alloc: Global) -> Result<String, AllocError> {
    let mut wanted = String::new(alloc);
    for before in 0..=LAST {
        push_numbered(alloc, &mut wanted, KEPT, LAST - before)?;
    }
    Ok(wanted)
}

fn try_told(
    alloc: Global,
    document: &str,
    tally: &mut Tally,
    pass: Pass,
    case: &str,
    want: &str,
) -> Result<(), AllocError> {
    let told = pass.told_at(alloc, document, "S/R")?;
    compare(tally, case, want, told)
}

fn try_document(alloc: Global, document: &str, tally: &mut Tally) -> Result<(), AllocError> {
    let (json, kept) = ("a chain of lazies", "results of a chain of lazies");
    try_told(alloc, document, tally, Pass::Rendering, json, "{\"P\":7}")?;
    let want = all_kept(alloc)?;
    let tried = try_told(alloc, document, tally, Pass::Keeping, kept, want.as_str());
    drop(want);
    tried
}

/// Tries a value that reaches a lazy through all others.
pub fn try_chains(alloc: Global, tally: &mut Tally) -> Result<(), AllocError> {
    let mut document = String::new(alloc);
    let tried = match push_chain(alloc, &mut document) {
        Ok(()) => try_document(alloc, document.as_str(), tally),
        Err(error) => Err(error),
    };
    drop(document);
    tried
}
