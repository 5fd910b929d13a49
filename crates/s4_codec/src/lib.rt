//! Requests, replies and frames as bytes (docs/PROTOCOL.md says it in prose).
#![tactic(auto)]

mod error;
mod frames;
mod input;
mod laws;
mod put_lines;
mod put_parts;
mod put_replies;
mod put_requests;
mod read_bodies;
mod read_lines;
mod read_parts;
mod read_replies;
mod read_requests;
mod room;
mod write_replies;
mod write_requests;

pub use error::{ReadError, WriteError};
pub use frames::{Front, frame_limit, read_frame};
pub use input::Input;
pub use laws::{
    framed_bodies_are_read_back, frames_of_versions_determine_replies, no_spelling_begins_another,
    read_values_are_spelled, replies_within_limits_have_spellings, spelled_values_are_read_back,
    spellings_are_in_the_table,
};
pub use put_replies::{put_reply, reply_room};
pub use read_parts::{read_block, read_byte, read_principal, read_u32};
pub use read_replies::read_reply;
pub use read_requests::read_request;
pub use write_replies::{spell_reply, write_reply};
pub use write_requests::{spell_request, write_request};
