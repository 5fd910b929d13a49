//! Tests of calls over readers and writers that are narrow or fail, and of what a call sends. What
//! the program makes of a call is tried from outside (`tests/test_calls.py`); what is proved stands in
//! `s4_client`.
#![tactic(auto)]

#[cfg(test)]
mod calls;
#[cfg(test)]
mod frames;
#[cfg(test)]
mod messages;
#[cfg(test)]
mod peers;
