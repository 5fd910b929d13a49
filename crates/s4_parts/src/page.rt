//! Pages of names.

ghost use Rattle.std.specs.Prelude.{◌≡◌, ◌≤◌, ℕ, List, Option, ◌++◌, IfOk, IfSome, IfNone, take, length, nat_lt, false, vec_capacity};
ghost use Rattle.std.specs.List.Sorted.{IsNonDecreasingBy};
ghost use Rattle.std.specs.BTreeMap.Range.{is_from_start};
ghost use Rattle.std.specs.Range.Bound.{bound_map};
ghost use Rattle.s4_types.specs.declared.object.ObjectId.{ObjectId};
ghost use Rattle.s4_types.specs.declared.reply.Grant.{Grant};
ghost use Rattle.s4_types.specs.Answer.{is_after};
ghost use Rattle.s4_types.specs.Name.{name_cmp};
ghost use Rattle.s4_store.specs.Chains.{items_of, IsOpen};
ghost use Rattle.s4_parts.specs.Table.{Holds};
ghost use Rattle.s4_parts.specs.Page.{line_of as line, lines_in, lines_of};

use crate::parts::{Parts, bound_object};
use crate::shelf::Shelf;
use s4_store::Store;
use s4_tracks::Track;
use s4_types::{
    After, Grant, Moment, Name, NameLine, NameLines, NoMemory, ObjectId, Principal, Purse, PurseNo,
    Version,
};
use std::cmp::Ordering;
use std::ops::Bound;

/// Which objects' names are shown, and why.
pub trait Visible {
    /// Why the names of an object are shown, if they are.
    ghost shown: { Self → ObjectId → Option Grant };

    /// When it can tell.
    ghost is_ready: { Self → Type 0 };

    /// Why the names of the object are shown, or none.
    fn grant(&self, object: &ObjectId) -> Option<Grant>
        requires { is_ready self.now }
        ensures { result ≡ shown self.now object.now };
}

/// At most 64 names, and whether more would follow.
#[derive(Drop)]
pub struct Page {
    pub lines: NameLines,
    pub more: bool,
}

impl Parts {
    /// The names that are bound in the purses of the range, now or at a moment, to objects that are
    /// shown: by the number of the purse and then by the name, from behind the place on. It goes
    /// through the names from the place on, until it has one line more than fits the page.
    pub fn list<S: Store<Version>, V: Visible>(
        &self,
        store: &S,
        range: Principal,
        after: &Option<After>,
        at: &Option<Moment>,
        visible: &V,
    ) -> Result<Page, NoMemory>
        requires holds { Holds (S.chains store.now) self.now }
        requires ready { V.is_ready visible.now }
        ensures lines { IfOk result (λ page. page.lines
            ≡ take 64 (lines_of (S.chains store.now) self.now (V.shown visible.now) range after.now at.now)) }
        ensures more { IfOk result (λ page. page.more
            ≡ nat_lt 64 (length (lines_of (S.chains store.now) self.now (V.shown visible.now) range after.now at.now))) }
    {
        let mut lines = Vec::with_capacity(self.alloc, 65)?;
        for number in 0..16 {
            if let Some(number) = PurseNo::new(number) {
                let purse = Purse {
                    creator: range,
                    number,
                };
                self.list_purse(store, &purse, after, at, visible, &mut lines);
            }
        }
        let more = lines.len() > 64;
        lines.truncate(64);
        Ok(Page {
            lines: NameLines::new(lines),
            more,
        })
    }

    // Adds the lines of one purse, up to 65 lines in all.
    fn list_purse<S: Store<Version>, V: Visible>(
        &self,
        store: &S,
        purse: &Purse,
        after: &Option<After>,
        at: &Option<Moment>,
        visible: &V,
        lines: &mut Vec<NameLine>,
    )
        requires holds { Holds (S.chains store.now) self.now }
        requires ready { V.is_ready visible.now }
        requires fits { length lines.old.items ≤ 65 }
        requires room { 65 ≤ vec_capacity lines.old }
        ensures lines { lines.new.items ≡ take 65 (lines.old.items
            ++ lines_in (S.chains store.now) self.now (V.shown visible.now) purse.now.creator after.now at.now purse.now.number) }
        ensures room { 65 ≤ vec_capacity lines.new }
    {
        let Some(shelf) = self.shelves.get(purse) else {
            return;
        };
        let Some(start) = start_of(after, purse.number) else {
            return;
        };
        for (name, track) in shelf.tracks.range((start, Bound::Unbounded)) {
            if lines.len() == 65 {
                return;
            }
            if let Some(line) = line_of(store, name, *track, at, visible) {
                lines.push_reserved(line);
            }
        }
    }
}

// Where the names begin that come after the place, in a purse of that number. None where no name
// there comes after it.
fn start_of(after: &Option<After>, number: PurseNo) -> Option<Bound<&Name>>
    ensures some { IfSome result (λ start. (name : List ℕ)
        → is_from_start name_cmp (bound_map (λ x. x.now) start) name ≡ is_after after.now number name) }
    ensures none { IfNone result ((name : List ℕ) → is_after after.now number name ≡ false) }
{
    let Some(after) = after else {
        return Some(Bound::Unbounded);
    };
    match after.number.cmp(&number) {
        Ordering::Less => Some(Bound::Unbounded),
        Ordering::Equal => Some(Bound::Excluded(&after.name)),
        Ordering::Greater => None,
    }
}

// The line of a name, where it is bound then and shown.
fn line_of<S: Store<Version>, V: Visible>(
    store: &S,
    name: &Name,
    track: Track,
    at: &Option<Moment>,
    visible: &V,
) -> Option<NameLine>
    requires open { IsOpen (S.chains store.now) track.chain }
    requires order { IsNonDecreasingBy (λ v. v.begin) (items_of (S.chains store.now) track.chain) }
    requires ready { V.is_ready visible.now }
    ensures { result ≡ line (V.shown visible.now) at.now name.now (items_of (S.chains store.now) track.chain) }
{
    let object = bound_object(store, track, *at)?;
    let grant = visible.grant(&object)?;
    let Ok(name) = name.clone() else {
        return None;
    };
    Some(NameLine {
        name,
        object,
        grant,
    })
}
