//! What holds of all that a hall sends.

ghost use Rattle.s4_session.specs.Determined.{EachRequestHasOneReply, RunsHaveOneListOfReplies, SentBytesDetermineReplies};

/// Of replies, one to each request that is asked of a hall, each connection has one to each request
/// that its bytes say. So what is sent on it drops nothing.
pub fn each_request_has_one_reply()
    ensures { EachRequestHasOneReply }
{}

/// The bytes that are sent on all connections determine the replies: two lists, each with one reply
/// to each request and with replies that have spellings, are the same where the same bytes are
/// sent. So what is said of the replies of a run of a hall is said of the bytes that it sends.
pub fn sent_bytes_determine_replies()
    ensures replies { SentBytesDetermineReplies }
    ensures runs { RunsHaveOneListOfReplies }
{}
