//! The hall of many connections over one drive (docs/PROTOCOL.md says it in prose), with the logins
//! and sessions that it stands on.
#![tactic(auto)]

mod answer;
mod hall;
mod hall_step;
mod laws;
mod outbox;
mod sessions;

pub use hall::Hall;
pub use hall_step::HallStep;
pub use laws::{each_request_has_one_reply, sent_bytes_determine_replies};
pub use s4_stream::{
    Event, FAULT, FeedError, Hello, LoginFault, Logins, Session, SessionFault, SessionState,
    WELCOME, connections_speak_in_order, cuts_change_nothing, hellos_have_one_spelling,
    principal_in, secret_in,
};
