//! Who answers requests.

ghost use Rattle.std.specs.Prelude.{◌≡◌, ◌≤◌, ◌++◌, List, IsTrue};
ghost use Rattle.s4_types.specs.Limits.{data_asked, data_in, is_within_limits};
ghost use Rattle.s4_talk.specs.Calls.{Call, call_made};

use s4_types::{Caller, Reply, Request};

/// Answers the requests of a talk, as a drive does. It may wait, as one that shares its drive with
/// others does.
pub trait Answer {
    /// All calls that were carried out: who asked, what was asked, and the reply, the oldest first.
    ghost calls: { Self → List Call };

    /// Answers a request, and adds its own call, or none where the reply is `NoMemory`: the request
    /// was then not carried out. The reply is within the limits of the caller's version, and gives
    /// no more data than was asked for (docs/MODEL.md, "Limits").
    fn answer(&mut self, caller: Caller, request: Request) -> Reply
        ensures called { calls self.new ≡ calls self.old ++ call_made caller request result }
        ensures limits { IsTrue (is_within_limits caller.version result) }
        ensures asked { data_in result ≤ data_asked request };

    /// Whether enough was answered for a turn, so that others come first. It never is, unless who
    /// answers says so.
    fn is_enough(&self) -> bool {
        false
    }
}
