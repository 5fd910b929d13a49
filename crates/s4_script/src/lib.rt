//! The language of scripts and arrivals: the lines of a text, what a line spells, and what the line
//! of a reply or of a connection says (docs/SCRIPTS.md says it in prose).
#![tactic(auto)]

mod arrivals;
mod asked;
mod callers;
mod error;
mod laws;
mod line;
mod lines;
mod opening;
mod ranges;
mod records;
mod replies;
mod requests;
mod sent;
mod text;
mod words;

pub use arrivals::{ArrivalLine, parse_arrival};
pub use asked::{RequestLine, RequestText};
pub use error::ParseError;
pub use laws::{
    requests_are_scriptable, written_openings_are_read_back, written_requests_are_read_back,
};
pub use line::{Line, parse_line, parse_number, parse_principal};
pub use lines::NumberedLines;
pub use opening::{Opening, parse_opening, parse_window};
pub use replies::{BytesText, CutText, GrantText, ReplyText, UsedText};
pub use requests::parse_request;
pub use sent::SentText;
pub use text::{TextFault, read_file, read_up_to};
