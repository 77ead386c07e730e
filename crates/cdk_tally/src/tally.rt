// What came of the cases, as text.
use std::alloc::{AllocError, Global};

/// The outcomes so far: a line for each case that came out otherwise, and the counts of the group at hand, which stop at
/// the greatest u64. Each error is want of memory.
#[derive(Drop)]
pub struct Tally {
    alloc: Global,
    text: String,
    cases: u64,
    failed: u64,
}

// The lines of a case that came out otherwise.
fn failure(alloc: Global, case: &str, told: &str) -> Result<String, AllocError> {
    format!(in alloc; "{case}\n  came out as {told}\n")
}

// The line that ends a group.
fn counts(alloc: Global, group: &str, cases: u64, failed: u64) -> Result<String, AllocError> {
    format!(in alloc; "{group}: {cases} cases, {failed} failed\n")
}

impl Tally {
    /// Nothing tried yet.
    pub fn new(alloc: Global) -> Self {
        Tally {
            alloc,
            text: String::new(alloc),
            cases: 0,
            failed: 0,
        }
    }

    /// One case more: whether it came out as wanted, and what is told where it didn't.
    pub fn note(&mut self, holds: bool, case: &str, told: &str) -> Result<(), AllocError> {
        self.cases = self.cases.saturating_add(1);
        if holds {
            return Ok(());
        }
        self.failed = self.failed.saturating_add(1);
        let lines = failure(self.alloc, case, told)?;
        self.text.push_str(lines.as_str())
    }

    /// One case more: what is wanted of it, and what is told.
    pub fn compare(&mut self, case: &str, want: &str, told: &str) -> Result<(), AllocError> {
        self.note(told == want, case, told)
    }

    /// Cases that each hold or don't.
    pub fn note_each(&mut self, cases: &[(&str, bool)]) -> Result<(), AllocError> {
        for (case, holds) in cases {
            self.note(*holds, case, "otherwise")?;
        }
        Ok(())
    }

    /// Ends a group of cases with the line of its counts.
    pub fn end(&mut self, group: &str) -> Result<(), AllocError> {
        let line = counts(self.alloc, group, self.cases, self.failed)?;
        self.text.push_str(line.as_str())?;
        self.cases = 0;
        self.failed = 0;
        Ok(())
    }

    /// The text of all outcomes.
    pub fn into_text(self) -> String {
        self.text
    }
}
