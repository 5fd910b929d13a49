//! What holds of all lines of requests.

ghost use Rattle.std.specs.Prelude.{◌≡◌, ℕ, Some};
ghost use Rattle.s4_types.specs.declared.request.Request.{Request as Asked};
ghost use Rattle.s4_types.specs.declared.principal.Caller.{Caller as CallerOf};
ghost use Rattle.s4_types.specs.declared.principal.WireVersion.{WireVersion as Wire};
ghost use Rattle.s4_script.specs.Readings.{line_in_text, opening_in_text, request_in_words, step_of};
ghost use Rattle.s4_script.specs.Requests.{opening_text, request_line_text, words_of};
ghost use Rattle.s4_script.specs.Scripted.{IsMoment, IsPrincipal, IsScriptable};
ghost use Rattle.s4_script.specs.declared.opening.Opening.{Opening as Opened};

use crate::ranges;
use s4_types::{Moment, Principal, Request};

/// What is written of a request is read back as that request, of each of the twenty kinds, as the
/// words of a call and as the line of a script. The line has the moment, the principal and the version
/// of the wire that they speak too, and no client: docs/SCRIPTS.md, "Requests".
pub fn written_requests_are_read_back()
    ensures words { (asked : Asked) → IsScriptable asked
        → request_in_words (words_of asked) ≡ Some asked }
    ensures line { (version : Wire) (moment : ℕ) (caller : CallerOf) (asked : Asked)
        → IsMoment moment → IsPrincipal caller.who → IsScriptable asked
        → line_in_text version (request_line_text version moment caller asked)
        ≡ Some (step_of caller.version moment caller.who asked) }
{}

/// What is written of an opening is read back as that opening, by each version.
pub fn written_openings_are_read_back()
    ensures { (opening : Opened) → IsMoment opening.window
        → opening_in_text (opening_text opening) ≡ Some opening }
{}

/// Every moment, every principal and every request is in the ranges that scripts have: so the law
/// above is about all of them.
pub fn requests_are_scriptable(moment: Moment, who: Principal, request: &Request)
    ensures moment { IsMoment moment }
    ensures who { IsPrincipal who }
    ensures request { IsScriptable request.now }
{
    ranges::of_request(request)
}
