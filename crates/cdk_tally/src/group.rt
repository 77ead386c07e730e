// Groups of rows.
use crate::{Tally, Trouble, text_of_file};
use cdk_outside::Files;
use std::alloc::Global;

/// A group of worked cases, a row each: the wanted text, a tab, and the document of which it is told.
pub trait Group {
    /// The name of the group. Its rows stand in the file of this name and `.txt`.
    fn name(&self) -> &'static str;

    /// What is told of a row's document.
    fn told(&self, alloc: Global, document: &str) -> Result<String, Trouble>;
}

fn rows_of<F: Files>(alloc: Global, source: &mut F, name: &str) -> Result<String, Trouble> {
    let file = format!(in alloc; "{name}.txt")?;
    text_of_file(alloc, source, file.as_str())
}

fn try_row<G: Group>(
    alloc: Global,
    group: &G,
    row: &str,
    tally: &mut Tally,
) -> Result<(), Trouble> {
    let (want, document) = row.split_once('\t').ok_or(Trouble::Data)?;
    let told = group.told(alloc, document)?;
    tally.compare(row, want, told.as_str())?;
    Ok(())
}

fn try_rows<G: Group>(
    alloc: Global,
    group: &G,
    rows: &str,
    tally: &mut Tally,
) -> Result<(), Trouble> {
    for row in rows.lines() {
        try_row(alloc, group, row, tally)?;
    }
    Ok(())
}

/// Tries each row of the group's file, and ends the group. `Memory` where no memory is found, `Data` where the file can't
/// be read or a row has no tab.
pub fn try_group<F: Files, G: Group>(
    alloc: Global,
    source: &mut F,
    group: &G,
    tally: &mut Tally,
) -> Result<(), Trouble> {
    let rows = rows_of(alloc, source, group.name())?;
    try_rows(alloc, group, rows.as_str(), tally)?;
    tally.end(group.name())?;
    Ok(())
}
