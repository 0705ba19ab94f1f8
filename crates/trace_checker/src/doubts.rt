//! Whether whoever held the commit answered in doubt, or was lost.
ghost use Rattle.std.specs.Prelude.{◌≡◌, List, ◌∷◌, ◌||◌};
ghost use Rattle.dtx_model.specs.Outcome.{is_lost_owner, is_lost_single};
ghost use Rattle.dtx_values.specs.declared.entry.Entry.{Entry};
ghost use Rattle.trace_checker.specs.Doubts.{IsDoubtsOf, has_unsure};
ghost use Rattle.trace_checker.specs.Members.{IsMembersOf};

use crate::members::Members;
use dtx_values::{Entry, Outcome};
use history_judge::ended_there;

/// Whether whoever held the commit answered in doubt, or was lost. Each stays, however it came about.
#[derive(Clone, Copy, PartialEq, Eq, Debug)]
pub struct Doubts {
    /// An owner that was handed the commit answered in doubt, in any order.
    pub unsure: bool,
    /// An owner was lost after the handing, and hadn't answered.
    pub lost_owner: bool,
    /// The one that the coordinator let decide was lost there before it answered.
    pub lost_single: bool,
}

/// Whether by the entry one that was handed the commit has answered in doubt.
#[inline(always)]
fn makes_unsure(members: &Members, x: &Entry) -> bool
    ensures { (h : List Entry) → IsMembersOf h members.now → has_unsure (x.now ∷ h) ≡ (result || has_unsure h) }
{
    match *x {
        Entry::Handed(e) => members.of(e).unsure,
        Entry::OwnerAnswered(e, o) => match o {
            Outcome::InDoubt => members.of(e).handed,
            _ => false,
        },
        _ => false,
    }
}

/// Whether by the entry an owner is lost that was handed the commit and hasn't answered.
#[inline(always)]
fn loses_owner(members: &Members, x: &Entry) -> bool
    ensures { (h : List Entry) → IsMembersOf h members.now → result ≡ is_lost_owner h x.now }
{
    match *x {
        Entry::Lost(e) => {
            let row = members.of(e);
            row.handed && !row.answered
        }
        _ => false,
    }
}

/// Whether by the entry the coordinator loses the one that it let decide, before that one answered.
#[inline(always)]
fn loses_single(members: &Members, x: &Entry) -> bool
    ensures { (h : List Entry) → IsMembersOf h members.now → result ≡ is_lost_single h x.now }
{
    match ended_there(x) {
        Some(e) => {
            let row = members.of(e);
            row.single && !row.replied
        }
        None => false,
    }
}

impl Doubts {
    /// None.
    pub const NONE: Doubts = Doubts {
        unsure: false,
        lost_owner: false,
        lost_single: false,
    };

    /// Notes the entry, where these are the rows before it.
    #[inline(always)]
    pub fn follow(&mut self, members: &Members, x: &Entry)
        ensures { (h : List Entry) → IsMembersOf h members.now → IsDoubtsOf h self.old → IsDoubtsOf (x.now ∷ h) self.new }
    {
        self.unsure |= makes_unsure(members, x);
        self.lost_owner |= loses_owner(members, x);
        self.lost_single |= loses_single(members, x);
    }
}
