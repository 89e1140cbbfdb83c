//! How far the reading of an audit's input has come.

/// Which lines are read now.
#[derive(Clone, Copy, Debug, PartialEq, Eq)]
pub enum Section {
    /// Those of a scenario, up to the line `report`.
    Scenario,
    /// Those of a report, up to the header of the table.
    Report,
    /// The rows of the table, up to the end.
    Table,
}
