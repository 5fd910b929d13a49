//! What a server looks after in files while it serves.

use s4_logins::Reloading;
use s4_stream::Logins;
use std::alloc::Global;
use std::fs;
use std::sync::Arc;

/// The files of a server that serves (docs/OPERATIONS.md, "Flags").
#[derive(Drop)]
pub struct Upkeep<'a> {
    /// The machine's files. They aren't those of a type parameter, since a thread looks at them.
    pub files: &'a HostRuntime,
    /// The path of the file whose being there ends the server; none where no file does.
    pub until: Option<&'a str>,
    /// The path of the file of the logins.
    pub logins: &'a str,
    /// After how many milliseconds it is looked again whether that file has changed; 0 for never.
    pub reload: u64,
    /// The path of the file in which the server tells of itself; none where it doesn't.
    pub status: Option<&'a str>,
    /// The path of the file in which it tells the same as text; none where it doesn't.
    pub status_text: Option<&'a str>,
    /// The path of the file that gets sums of the journal; none where none does.
    pub sums: Option<&'a str>,
}

impl<'a> Upkeep<'a> {
    /// Who reads the logins again, from now on, beginning with this table.
    pub(crate) fn reloading(&self, alloc: Global, table: Arc<Logins>, now: u64) -> Reloading<'a> {
        Reloading::new(alloc, self.files, self.logins, self.reload, table, now)
    }

    /// Whether the server is to end: the file is there. Where that can't be told it isn't.
    pub(crate) fn is_over(&self) -> bool {
        match self.until {
            Some(path) => fs::exists(self.files, path).unwrap_or(false),
            None => false,
        }
    }
}
