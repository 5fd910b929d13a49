//! What holds of all spellings.

ghost use Rattle.std.specs.Prelude.{
  ◌≡◌,
  ◌<◌,
  ◌≤◌,
  ◌^◌,
  ◌++◌,
  ◌&&◌,
  ℕ,
  List,
  length,
  nat_le,
  Some,
  IsTrue,
  true,
};
ghost use Rattle.s4_types.specs.Limits.{data_in, is_within_limits};
ghost use Rattle.s4_types.specs.declared.principal.WireVersion.{WireVersion};
ghost use Rattle.s4_types.specs.declared.reply.Reply as told;
ghost use Rattle.s4_types.specs.declared.request.Request as asked;
ghost use Rattle.s4_codec.specs.Table.{all_hold, bytes_of_all, row_of, row_of_reply, IsRow};
ghost use Rattle.s4_codec.specs.Format.{AreBytes, IsPrefixFree, IsReadBack, IsSpelledAsRead};
ghost use Rattle.s4_codec.specs.Frames.{framed, front_of, Whole};
ghost use Rattle.s4_codec.specs.Rooms.{reply_room};
ghost use Rattle.s4_codec.specs.Versions.{frame_limit};
ghost use Rattle.s4_codec.specs.Fits.{fit, frames};
ghost use Rattle.s4_codec.specs.Parts as parts;
ghost use Rattle.s4_codec.specs.Replies.{audit_line, has_body, name_line, refusal, reply, reply_in};
ghost use Rattle.s4_codec.specs.Requests.{request, request_in};

/// Where the spellings of two values begin the same bytes, the values are the same. So no spelling
/// begins another one of that part.
pub fn no_spelling_begins_another()
    ensures moment { IsPrefixFree parts.moment }
    ensures principal { IsPrefixFree parts.principal }
    ensures user { IsPrefixFree parts.user }
    ensures purse { IsPrefixFree parts.purse }
    ensures object { IsPrefixFree parts.object }
    ensures name { IsPrefixFree parts.name }
    ensures byte_string { (version : WireVersion) → IsPrefixFree (parts.byte_string version) }
    ensures optional_moment { IsPrefixFree parts.optional_moment }
    ensures optional_after { IsPrefixFree parts.optional_after }
    ensures grant { IsPrefixFree parts.grant }
    ensures name_line { IsPrefixFree name_line }
    ensures audit_line { IsPrefixFree audit_line }
    ensures refusal { IsPrefixFree refusal }
    ensures request { (version : WireVersion) → IsPrefixFree (request version) }
    ensures reply { (version : WireVersion) → IsPrefixFree (reply version) }
{}

/// What is spelled is read, whatever follows it.
pub fn spelled_values_are_read_back()
    ensures moment { IsReadBack parts.moment }
    ensures principal { IsReadBack parts.principal }
    ensures user { IsReadBack parts.user }
    ensures purse { IsReadBack parts.purse }
    ensures object { IsReadBack parts.object }
    ensures name { IsReadBack parts.name }
    ensures byte_string { (version : WireVersion) → IsReadBack (parts.byte_string version) }
    ensures optional_moment { IsReadBack parts.optional_moment }
    ensures optional_after { IsReadBack parts.optional_after }
    ensures grant { IsReadBack parts.grant }
    ensures name_line { IsReadBack name_line }
    ensures audit_line { IsReadBack audit_line }
    ensures refusal { IsReadBack refusal }
    ensures request { (version : WireVersion) → IsReadBack (request version) }
    ensures reply { (version : WireVersion) → IsReadBack (reply version) }
{}

/// What is read from bytes has a spelling, and the bytes begin with it.
pub fn read_values_are_spelled()
    ensures moment { IsSpelledAsRead parts.moment }
    ensures principal { IsSpelledAsRead parts.principal }
    ensures user { IsSpelledAsRead parts.user }
    ensures purse { IsSpelledAsRead parts.purse }
    ensures object { IsSpelledAsRead parts.object }
    ensures name { IsSpelledAsRead parts.name }
    ensures byte_string { (version : WireVersion) → IsSpelledAsRead (parts.byte_string version) }
    ensures optional_moment { IsSpelledAsRead parts.optional_moment }
    ensures optional_after { IsSpelledAsRead parts.optional_after }
    ensures grant { IsSpelledAsRead parts.grant }
    ensures name_line { IsSpelledAsRead name_line }
    ensures audit_line { IsSpelledAsRead audit_line }
    ensures refusal { IsSpelledAsRead refusal }
    ensures request { (version : WireVersion) → IsSpelledAsRead (request version) }
    ensures reply { (version : WireVersion) → IsSpelledAsRead (reply version) }
{}

/// The spelling of each request and of each reply is its row of the table.
pub fn spellings_are_in_the_table()
    ensures request { (version : WireVersion) (r : asked.Request)
        → (request version).spell r ≡ bytes_of_all version (row_of r) }
    ensures reply { (version : WireVersion) (r : told.Reply)
        → (reply version).spell r ≡ bytes_of_all version (row_of_reply r) }
    // A reply has a body just where the parts of its row hold, and its bytes fit in a frame.
    ensures bodies { (version : WireVersion) (r : told.Reply) → has_body version r
        ≡ (all_hold version (row_of_reply r)
        && nat_le (length (bytes_of_all version (row_of_reply r))) (frame_limit version)) }
    // A body says a request just where it is that request's row.
    ensures said { (version : WireVersion) (body : List ℕ) (r : asked.Request)
        → AreBytes body → request_in version body ≡ Some r → IsRow version body (row_of r) }
    ensures read { (version : WireVersion) (body : List ℕ) (r : asked.Request)
        → IsRow version body (row_of r) → request_in version body ≡ Some r }
    // And so a reply.
    ensures reply_said { (version : WireVersion) (body : List ℕ) (r : told.Reply)
        → AreBytes body → reply_in version body ≡ Some r → IsRow version body (row_of_reply r) }
    ensures reply_read { (version : WireVersion) (body : List ℕ) (r : told.Reply)
        → IsRow version body (row_of_reply r) → reply_in version body ≡ Some r }
{}

/// Replies to callers of several versions, one to each, that have spellings within frames of these:
/// their bytes tell them. Whether they have is known part by part.
pub fn frames_of_versions_determine_replies()
    ensures determined { (versions : List WireVersion) (one two : List told.Reply)
        → length one ≡ length versions → length two ≡ length versions
        → fit versions one ≡ true → fit versions two ≡ true
        → frames versions one ≡ frames versions two → one ≡ two }
    ensures joined { (versions more : List WireVersion) (one two : List told.Reply)
        → length one ≡ length versions
        → fit (versions ++ more) (one ++ two) ≡ (fit versions one && fit more two) }
{}

/// For each limit of a body: a body that is framed is the first whole frame, whatever follows it,
/// and a whole frame is that of its body.
pub fn framed_bodies_are_read_back()
    ensures read { (limit : ℕ) (body rest : List ℕ) → 0 < length body → length body ≤ limit
        → limit < 2 ^ 32 → front_of limit (framed body ++ rest) ≡ Whole body rest }
    ensures framed { (limit : ℕ) (bytes body rest : List ℕ) → AreBytes bytes
        → front_of limit bytes ≡ Whole body rest → bytes ≡ framed body ++ rest }
{}

/// A reply of which each part has a spelling, and that keeps to the limits of version 1, has a
/// spelling within a frame. What has one is read back from that spelling, and the spelling from its
/// frame.
pub fn replies_within_limits_have_spellings()
    ensures spelled { (version : WireVersion) (r : told.Reply) → IsTrue ((reply version).fits r)
        → IsTrue (is_within_limits version r) → IsTrue (has_body version r) }
    // What it takes of room is known before it is made.
    ensures room { (version : WireVersion) (r : told.Reply) (count : ℕ)
        → IsTrue ((reply version).fits r) → IsTrue (is_within_limits version r)
        → data_in r ≤ count
        → length (framed ((reply version).spell r)) ≤ reply_room version count }
    ensures read { (version : WireVersion) (r : told.Reply) → IsTrue (has_body version r)
        → reply_in version ((reply version).spell r) ≡ Some r }
    ensures framed { (version : WireVersion) (r : told.Reply) (rest : List ℕ)
        → IsTrue (has_body version r)
        → front_of (frame_limit version) (framed ((reply version).spell r) ++ rest)
        ≡ Whole ((reply version).spell r) rest }
{}
