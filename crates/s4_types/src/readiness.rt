//! What a drive can be made ready for.

/// For which wide requests, a Flush or a SetWindow of the administrator, room was made: the next record
/// of such a request takes no memory.
#[derive(Clone, Copy)]
pub enum Readiness {
    /// For none.
    ForNone,
    /// For a SetWindow alone: there is room for a record.
    ForSetWindow,
    /// For either: there is also room for what a Flush takes back of charges.
    ForEither,
}
