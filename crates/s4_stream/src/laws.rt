//! What holds of all streams.

ghost use Rattle.std.specs.Prelude.{◌≡◌, ℕ, Option, Some, List, ◌++◌, length};
ghost use Rattle.s4_types.specs.declared.principal.Caller as callers;
ghost use Rattle.s4_types.specs.declared.reply.Reply as told;
ghost use Rattle.s4_types.specs.declared.request.Request as asked;
ghost use Rattle.s4_codec.specs.Format.{AreBytes, IsPrefixFree, IsReadBack, IsSpelledAsRead};
ghost use Rattle.s4_stream.specs.Hello as hellos;
ghost use Rattle.s4_stream.specs.Logins as table;
ghost use Rattle.s4_stream.specs.Rows.{IsHello};
ghost use Rattle.s4_stream.specs.Stream.{hear, events_of};
ghost use Rattle.s4_stream.specs.Talk.{sent_for, IsTalk, TellsFaultAlone, talk_of, told_in_order};
ghost use Rattle.s4_stream.specs.Feeding.{after_events};
ghost use Rattle.s4_stream.specs.declared.event.SessionFault as faults;
ghost use Rattle.s4_stream.specs.declared.event.SessionState.{SessionState};
ghost use Rattle.s4_stream.specs.declared.hello.Hello as hello;

/// A stream says the same however it is cut: what is heard of two pieces that are joined is what is
/// heard of the first, and then of what that left and the second. So a session that is fed pieces
/// has the events of all of them joined.
pub fn cuts_change_nothing()
    ensures { (logins : table.Logins) (state : SessionState) (first second : List ℕ)
        → hear logins state (first ++ second) ≡ after_events (hear logins state first).events
        (hear logins (hear logins state first).state ((hear logins state first).left ++ second)) }
{}

/// A connection says a good Hello, then requests of the caller whom it names, then at most a fault;
/// or at most a fault and nothing else. So no request stands before a good Hello or behind a fault.
/// What is sent for it is the Welcome, the reply to each request in order, and the fault.
pub fn connections_speak_in_order()
    ensures events { (logins : table.Logins) (stream : List ℕ) → IsTalk (events_of logins stream) }
    ensures sent { (caller : callers.Caller) (requests : List asked.Request)
        (fault : Option faults.SessionFault) (replies : List told.Reply)
        → length replies ≡ length requests
        → sent_for (talk_of caller requests fault) replies
        ≡ told_in_order caller.version replies fault }
    ensures unwelcome { (fault : Option faults.SessionFault) → TellsFaultAlone fault }
{}

/// A Hello has one spelling, which begins no other one; it is read whatever follows it; and what is
/// read as a Hello is spelled as one.
pub fn hellos_have_one_spelling()
    ensures prefix_free { IsPrefixFree hellos.hello }
    ensures read_back { IsReadBack hellos.hello }
    ensures spelled { IsSpelledAsRead hellos.hello }
{}

/// A body of bytes says a Hello just where it is that Hello's row.
pub fn hellos_are_their_rows()
    ensures said { (body : List ℕ) (h : hello.Hello)
        → AreBytes body → hellos.hello_in body ≡ Some h → IsHello body h }
    ensures read { (body : List ℕ) (h : hello.Hello)
        → IsHello body h → hellos.hello_in body ≡ Some h }
{}
