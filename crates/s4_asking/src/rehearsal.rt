//! Lines that are carried out each as its principal, and the replies that are wanted.

ghost use Rattle.std.specs.Prelude.{◌≡◌, ◌∷◌, ◌&&◌, ◌||◌, ℕ, Option, List, [], Some, is_none, IfNone, IfOk, IfSome, OnErr};
ghost use Rattle.std.specs.Io.KnownBytes.{Appends, Consumes, IsAtEnd, prepend_known};
ghost use Rattle.std.specs.Option.{option_map};
ghost use Rattle.s4_types.specs.Kinds.{is_refused};
ghost use Rattle.s4_types.specs.declared.reply.Reply as replies;
ghost use Rattle.s4_asking.specs.Dialogue.{IfUntold};
ghost use Rattle.s4_asking.specs.Lines.{with_feed};
ghost use Rattle.s4_asking.specs.Rehearsal.{CarriesSome, Exchange, Grows, IsWanted, Rehearses, RehearsesSome, exchange};
ghost use Rattle.s4_asking.specs.Spelling.{asked_in, before_arrow, behind_arrow, told_line, told_text};

use crate::fault::AskFault;
use crate::line_fault::LineFault;
use crate::line_reader::next_line;
use crate::spelling::{Rehearsed, rehearsed_in};
use crate::telling::{tell, text_of};
use bytes::BytesMut;
use s4_types::{Caller, NoMemory, Reply, Request, WireVersion};
use std::alloc::Global;
use std::io::{Read, Write};
use std::str;

/// Who carries out what principals ask.
pub trait Peers {
    /// All requests that were carried out, and their replies, where they are known.
    ghost exchanges: { Self → Option (List Exchange) };

    /// Has a request of a caller carried out, and gives the reply.
    fn ask(&mut self, caller: Caller, request: &Request) -> Result<Reply, LineFault>
        ensures reply { IfOk result (λ reply. Grows (exchanges self.old) (exchanges self.new)
            (exchange caller request.now reply ∷ [])) }
        ensures none { OnErr result (Grows (exchanges self.old) (exchanges self.new) []) };
}

/// Carries out the lines of the input, each as its principal: a caller, a request, and behind an arrow the
/// text of the reply that is wanted, where one is. Tells each reply in a line, and ends at the first that
/// isn't the one that is wanted. Callers without a mark speak that version; all call as that client. Tells
/// whether a request was refused whose line wants no reply.
#[tactic(auto, using(crate::proofs::Carried::rehearses_begin, crate::proofs::Carried::rehearses_all))]
pub fn rehearse<P: Peers, L: Read, O: Write>(
    version: WireVersion,
    client: u32,
    alloc: Global,
    peers: &mut P,
    input: &mut L,
    output: &mut O,
) -> Result<bool, AskFault>
    // Without a fault each line was carried out, and replied what it wants.
    ensures all { IfOk result (λ refused. Rehearses version client
        (L.remaining input.old) (Some []) (P.exchanges peers.old) (P.exchanges peers.new)
        (O.contents output.old) (O.contents output.new) refused) }
    // At a fault all lines before the last one were.
    ensures some { IfUntold result (RehearsesSome version client (L.remaining input.old)
        (P.exchanges peers.old) (P.exchanges peers.new)
        (O.contents output.old) (O.contents output.new)) }
{
    let mut held = BytesMut::new(alloc);
    let mut refused = false;
    for before in 0..u64::MAX {
        let number = before + 1;
        match next_rehearsed(version, client, alloc, &mut held, input) {
            Ok(Some(line)) => {
                let is_refusal = carry_out(alloc, number, &line, peers, output)?;
                refused = either(refused, is_refusal);
            }
            Ok(None) => return Ok(refused),
            Err(fault) => return Err(AskFault::Line(number, fault)),
        }
    }
    Err(AskFault::Line(u64::MAX, LineFault::CannotRead))
}

/// Whether one of both is.
fn either(first: bool, second: bool) -> bool
    ensures { result ≡ (first || second) }
{
    first || second
}

/// What the next line asks for; none at the end of the input.
fn next_rehearsed<L: Read>(
    version: WireVersion,
    client: u32,
    alloc: Global,
    held: &mut BytesMut,
    input: &mut L,
) -> Result<Option<Rehearsed>, LineFault>
    ensures line { IfOk result (λ found. IfSome found (λ it. (line : List ℕ)
        × Consumes (prepend_known held.old.items (L.remaining input.old))
        (prepend_known held.new.items (L.remaining input.new)) (with_feed line)
        × (asked_in version client (before_arrow line)
        ≡ Some (record { caller = it.caller; request = it.request }))
        × (option_map (λ bytes. bytes.items) it.wanted ≡ behind_arrow line))) }
    ensures end { IfOk result (λ found. IfNone found
        (IsAtEnd (prepend_known held.old.items (L.remaining input.old)))) }
{
    match next_line(alloc, held, input)? {
        Some(line) => Ok(Some(rehearsed_in(version, client, alloc, line.as_slice())?)),
        None => Ok(None),
    }
}

/// Carries out the line of this number, and tells its reply, which has to be the one that is wanted. Gives
/// whether it is a refusal, and none is wanted.
fn carry_out<P: Peers, O: Write>(
    alloc: Global,
    number: u64,
    line: &Rehearsed,
    peers: &mut P,
    output: &mut O,
) -> Result<bool, AskFault>
    ensures done { IfOk result (λ is_refusal. (reply : replies.Reply)
        × Grows (P.exchanges peers.old) (P.exchanges peers.new)
        (exchange line.now.caller line.now.request reply ∷ [])
        × Appends (O.contents output.old) (O.contents output.new) (told_line reply)
        × IsWanted (option_map (λ bytes. bytes.items) line.now.wanted) (told_text reply)
        × (is_refusal ≡ (is_none line.now.wanted && is_refused reply))) }
    ensures some { IfUntold result (CarriesSome (P.exchanges peers.old) (P.exchanges peers.new)
        (O.contents output.old) (O.contents output.new)) }
{
    let reply = match peers.ask(line.caller, &line.request) {
        Ok(reply) => reply,
        Err(fault) => return Err(AskFault::Line(number, fault)),
    };
    let Ok(text) = text_of(alloc, &reply) else {
        return Err(AskFault::Line(number, LineFault::NoMemory));
    };
    tell(alloc, number, text.as_slice(), output)?;
    match &line.wanted {
        None => Ok(reply.is_refused()),
        Some(wanted) if text.as_slice() == wanted.as_slice() => Ok(false),
        Some(wanted) => {
            let fault = unlike(alloc, text.as_slice(), wanted.as_slice());
            Err(AskFault::Line(number, fault))
        }
    }
}

/// The fault of a reply with another text than the one that is wanted.
fn unlike(alloc: Global, told: &[u8], wanted: &[u8]) -> LineFault {
    match (shown(alloc, told), shown(alloc, wanted)) {
        (Ok(told), Ok(wanted)) => LineFault::Unlike(told, wanted),
        _ => LineFault::NoMemory,
    }
}

/// A text as it is shown: nothing of what is no text.
fn shown(alloc: Global, text: &[u8]) -> Result<String, NoMemory> {
    String::from_str(alloc, str::from_utf8(text).unwrap_or_default())
}
