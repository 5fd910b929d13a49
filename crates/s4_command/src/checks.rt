//! Files whose lines are looked at.

/// What a text is.
#[derive(Clone, Copy, PartialEq, Eq)]
pub enum TextKind {
    Script,
    Arrivals,
    Logins,
    Setup,
}

/// Files, each line of which is looked at.
#[derive(Drop)]
pub struct FileCheck {
    /// Their paths.
    pub paths: Vec<String>,
    /// What all of them are; else of each that is told by its lines.
    pub kind: Option<TextKind>,
}
