// The words of a case.
use crate::members::{items_of, member};
use cdk_base::{List, Text, Value};
use cdk_tally::{Trouble, push_text};
use std::alloc::Global;

fn push_words(alloc: Global, words: &mut List<Text>, list: &Value) -> Result<(), Trouble> {
    for word in items_of(list)? {
        push_text(alloc, words, word.as_str().ok_or(Trouble::Data)?)?;
    }
    Ok(())
}

/// The words that a case has by the key.
pub fn words_of(alloc: Global, case: &Value, key: &str) -> Result<List<Text>, Trouble> {
    let mut words = List::new(alloc);
    push_words(alloc, &mut words, member(case, key)?)?;
    Ok(words)
}
