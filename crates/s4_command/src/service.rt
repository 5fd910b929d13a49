//! What a served drive is.

use s4_settings::Settings;

/// A served drive: where it listens, the file of who may log in, and how it is set up.
#[derive(Drop)]
pub struct Service {
    pub address: String,
    pub logins: String,
    /// The path of the file that ends it, where there is one.
    pub until: Option<String>,
    /// After how many milliseconds it is looked again whether the logins' file changed; 0 for never.
    pub reload: u64,
    /// The path of the file with what is carried out first, where there is one.
    pub setup: Option<String>,
    /// The path of the file in which the server tells of itself, where there is one.
    pub status: Option<String>,
    /// The path of the file in which it tells the same as text, where there is one.
    pub status_text: Option<String>,
    /// Whether its lines on standard error begin with the time.
    pub logs_times: bool,
    /// Whether the moment at the start is the time then, in milliseconds since 1970, and not the one of the settings.
    pub begins_now: bool,
    /// Where it keeps its history, if it does.
    pub journal: Option<Journal>,
    pub settings: Settings,
}

/// Where a server keeps its history (docs/JOURNAL.md).
#[derive(Drop)]
pub struct Journal {
    /// The path of the folder of its starts.
    pub folder: String,
    /// Whether the system is to write each second what it was given, to where it lasts.
    pub syncs: bool,
    /// The path of the file that gets a line each minute about how far it is, where there is one.
    pub sums: Option<String>,
}
