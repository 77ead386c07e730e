// Markers of tokens.
use crate::texts::compare;
use cdk_base::Value;
use cdk_markers::{Piece, list_key, list_marker, pieces, text_marker};
use cdk_tally::{Tally, push_between};
use std::alloc::{AllocError, Global};

// The pieces of a text in a row: a literal in round brackets, a key in square ones.
fn cut_text(alloc: Global, text: &str) -> Result<String, AllocError> {
    let mut told = String::new(alloc);
    for piece in pieces(text) {
        let (open, text, close) = match piece {
            Piece::Literal(literal) => ('(', literal, ')'),
            Piece::Key(key) => ('[', key, ']'),
        };
        push_between(&mut told, open, text, close)?;
    }
    Ok(told)
}

// A list marker's text, and behind it the key that is found in the marker.
fn marker_text(alloc: Global, marker: &Value) -> Result<String, AllocError> {
    let mut told = marker.to_string(alloc)?;
    push_between(&mut told, '(', list_key(marker).unwrap_or("no key"), ')')?;
    Ok(told)
}

// The list marker of a key.
fn list_text(alloc: Global, key: &str) -> Result<String, AllocError> {
    match list_marker(alloc, key) {
        Ok(marker) => {
            let told = marker_text(alloc, &marker);
            drop(marker);
            told
        }
        Err(error) => Err(error),
    }
}

/// Tries the cut of a text, and a marker of each kind.
pub fn try_markers(alloc: Global, tally: &mut Tally) -> Result<(), AllocError> {
    let cut = cut_text(alloc, "a${Token[X.]}${Token[${Token[Ref.0]}é${Token[.12]}")?;
    let want = "(a${Token[X.]}${Token[)[Ref.0](é)[.12]";
    compare(tally, "the cut of a text", want, cut)?;
    let list = list_text(alloc, "Split.1")?;
    let want = "[\"#{Token[Split.1]}\"](Split.1)";
    compare(tally, "a list marker", want, list)?;
    let marker = text_marker(alloc, "Ref.0")?;
    tally.compare("a text marker", "${Token[Ref.0]}", marker.as_str())
}
