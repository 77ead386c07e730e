/// What a look at the expressions of a construct is for.
#[derive(Clone, Copy)]
pub enum Look {
    /// Targets that no construct has as its path.
    Missing,
    /// Targets of a wrong kind, and texts and lists where they may not stand.
    Wrong,
    /// The same in a condition.
    WrongInCondition,
}
