// Lists of texts, and texts that are put together.
use cdk_base::{List, Text};
use std::alloc::{AllocError, Global};

/// Adds a copy of a text at the end. The error is want of memory.
pub fn push_text(alloc: Global, list: &mut List<Text>, text: &str) -> Result<(), AllocError> {
    let text = Text::new(alloc, text)?;
    list.push(text)?;
    Ok(())
}

/// Copies of the texts. The error is want of memory.
pub fn texts_of(alloc: Global, texts: &[&str]) -> Result<List<Text>, AllocError> {
    let mut list = List::new(alloc);
    for text in texts {
        push_text(alloc, &mut list, text)?;
    }
    Ok(list)
}

/// Adds a text between two characters. The error is want of memory.
pub fn push_between(
    all: &mut String,
    open: char,
    text: &str,
    close: char,
) -> Result<(), AllocError> {
    all.push(open)?;
    all.push_str(text)?;
    all.push(close)
}
