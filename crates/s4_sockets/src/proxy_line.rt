//! The first line of a connection that a proxy passes on: the PROXY protocol, version 1
//! (docs/OPERATIONS.md, "Behind a tunnel").

ghost use Rattle.std.specs.Prelude.{◌≡◌, ◌<◌, IfSome, IfNone, length, []};
ghost use Rattle.s4_stream.specs.LoginText.{behind};
ghost use Rattle.s4_sockets.specs.ProxyLines.{IsHeard, IsLine, IsOfFamily, IsOrigin, IsPeer, is_line_end, port_in};
ghost use Rattle.s4_sockets.specs.declared.proxy_line.Heard.TheVariants as heard;

use s4_stream::{principal_in, split_at_byte};
use std::net::{IpAddr, Ipv4Addr, Ipv6Addr, SocketAddr};

/// How many bytes a line has at most, with its end.
pub(crate) const MOST: usize = 107;

/// How a line begins.
const MARK: &[u8] = b"PROXY ";

/// Whose connection a proxy says that it passes on.
#[derive(Clone, Copy)]
pub(crate) enum Origin {
    /// It doesn't say.
    Unknown,
    /// This peer's.
    Peer(SocketAddr),
}

/// What the first bytes of a connection are that a proxy passes on.
#[derive(Clone, Copy)]
pub(crate) enum Heard {
    /// They begin with a line of so many bytes, which says whose connection it is.
    Line(usize, Origin),
    /// A line may yet come of them.
    Torn,
    /// They begin with no line.
    Bad,
}

/// What these first bytes are.
pub(crate) fn hear(bytes: &[u8]) -> Heard
    ensures line { IsHeard bytes.now result }
    ensures torn { result ≡ heard.Torn → length bytes.now < 107 }
    ensures ended { result ≡ heard.Torn → behind 13 bytes.now ≡ [] }
{
    let (text, rest) = split_at_byte(bytes, b'\r');
    if is_line_end(rest) {
        return line_of(text);
    }
    if rest.is_empty() && bytes.len() < MOST && may_begin(bytes) {
        Heard::Torn
    } else {
        Heard::Bad
    }
}

/// What a line with this text is, without its end: bad where it is too long, or says nothing.
fn line_of(text: &[u8]) -> Heard
    ensures { IsLine text.now result }
{
    if text.len() > MOST - 2 {
        return Heard::Bad;
    }
    match origin_in(text) {
        Some(origin) => Heard::Line(text.len() + 2, origin),
        None => Heard::Bad,
    }
}

/// Whether a line feed stands first behind a carriage return.
fn is_line_end(rest: &[u8]) -> bool
    ensures { result ≡ is_line_end rest.now }
{
    match rest {
        [first, ..] => *first == b'\n',
        [] => false,
    }
}

/// Whether a line may begin so, whose end isn't there.
fn may_begin(bytes: &[u8]) -> bool {
    let is_begun = MARK.starts_with(bytes) || bytes.starts_with(MARK);
    is_begun && !bytes.contains(&b'\n')
}

/// What a line's text says, without its end.
fn origin_in(text: &[u8]) -> Option<Origin>
    ensures some { IfSome result (IsOrigin text.now) }
    ensures none { IfNone result ((origin : Origin) → ¬ (IsOrigin text.now origin)) }
{
    let (mark, rest) = split_at_byte(text, b' ');
    let (family, rest) = split_at_byte(rest, b' ');
    if mark != b"PROXY".as_slice() {
        return None;
    }
    if family == b"UNKNOWN".as_slice() {
        return Some(Origin::Unknown);
    }
    Some(Origin::Peer(peer_in(family, rest)?))
}

/// The peer that the words behind the family name: two addresses of that family, and their ports.
fn peer_in(family: &[u8], words: &[u8]) -> Option<SocketAddr>
    ensures some { IfSome result (IsPeer family.now words.now) }
    ensures none { IfNone result ((peer : SocketAddr) → ¬ (IsPeer family.now words.now peer)) }
{
    let (source, rest) = split_at_byte(words, b' ');
    let (destination, rest) = split_at_byte(rest, b' ');
    let (port, other) = split_at_byte(rest, b' ');
    let from = address_in(family, source)?;
    address_in(family, destination)?;
    port_in(other)?;
    Some(SocketAddr::new(from, port_in(port)?))
}

/// The address that a word spells, where it is of this family.
#[tactic(auto, using(crate::proofs::Families::no_ipv4, crate::proofs::Families::no_ipv6, crate::proofs::Families::no_family))]
fn address_in(family: &[u8], word: &[u8]) -> Option<IpAddr>
    ensures some { IfSome result (IsOfFamily family.now word.now) }
    ensures none { IfNone result ((ip : IpAddr) → ¬ (IsOfFamily family.now word.now ip)) }
{
    if family == b"TCP4".as_slice() {
        return Some(IpAddr::V4(Ipv4Addr::parse_ascii(word).ok()?));
    }
    if family == b"TCP6".as_slice() {
        return Some(IpAddr::V6(Ipv6Addr::parse_ascii(word).ok()?));
    }
    None
}

/// The port that a word spells, in decimal digits without a leading zero.
fn port_in(word: &[u8]) -> Option<u16>
    ensures { result ≡ port_in word.now }
{
    let number = principal_in(word)?;
    u16::try_from(number).ok()
}
