//! The enlistments at the coordinator, in order of number.
ghost use Rattle.std.specs.Prelude.{◌≡◌, ◌<◌, ◌≤◌, ◌&&◌, not, length, map, filter, find, slice_get, Some, vec_len, vec_capacity};
ghost use Rattle.std.specs.List.{insert, list_any};
ghost use Rattle.dtx_values.specs.Table.{insert_by};
ghost use Rattle.dtx_values.specs.declared.entry.Entry.TheVariants.{Sent, Got};
ghost use Rattle.dtx_values.specs.declared.message.Dir.TheVariants.{Up, Down};
ghost use Rattle.dtx_model.specs.declared.branch.Branch.{Branch};
ghost use Rattle.dtx_model.specs.Observed.{branch_number, branches_after, is_branch, with_branch};
ghost use Rattle.half_parts.specs.Half.{owes_ack};
ghost use Rattle.half_parts.specs.Branches.{changed};

use dtx_model::Branch;
use dtx_values::{Conn, EnlNo, Message, RmNo};

/// What becomes of an enlistment at the coordinator.
#[derive(Clone, Copy)]
pub enum BranchChange {
    /// The coordinator accepted it.
    Enlisted,
    /// It was told that the transaction aborted.
    Aborted,
    /// It acknowledged a commit.
    Acked,
    /// A commit for it came over this connection, or it came back.
    Due(Option<Conn>),
}

/// Changes it where it is the enlistment of this number.
fn change_one(b: &mut Branch, e: EnlNo, x: BranchChange)
    ensures { b.new ≡ changed e.value x b.old }
{
    if b.enlistment != e {
        return;
    }
    match x {
        BranchChange::Enlisted => b.enlisted = true,
        BranchChange::Aborted => b.aborted = true,
        BranchChange::Acked => {
            b.acked = true;
            b.due = None;
        }
        BranchChange::Due(c) => b.due = c,
    }
}

/// Changes the enlistment of this number.
fn change_all(branches: &mut [Branch], e: EnlNo, x: BranchChange)
    ensures { branches.new ≡ map (changed e.value x) branches.old }
{
    for b in branches.iter_mut() {
        change_one(b, e, x);
    }
}

/// Changes the enlistment of this number.
pub fn change(branches: &mut Vec<Branch>, e: EnlNo, x: BranchChange)
    ensures items { branches.new.items ≡ map (changed e.value x) branches.old.items }
    ensures capacity { vec_capacity branches.new ≡ vec_capacity branches.old }
{
    change_all(branches.as_mut_slice(), e, x);
}

/// The index at which the enlistment of this number goes.
fn place_in_order(branches: &[Branch], n: u32) -> usize
    ensures within { result ≤ length branches.now }
    ensures there { (x : Branch) → branch_number x ≡ n → insert branches.now result x ≡ insert_by branch_number x branches.now }
{
    for (i, b) in branches.iter().enumerate() {
        if b.enlistment.get() >= n {
            return i;
        }
    }
    branches.len()
}

/// Takes the enlistment of this number away.
fn remove(branches: &mut Vec<Branch>, e: EnlNo)
    ensures items { branches.new.items ≡ filter (λ b. not (is_branch e.value b)) branches.old.items }
    ensures capacity { vec_capacity branches.new ≡ vec_capacity branches.old }
{
    branches.retain(|b| b.enlistment != e);
}

/// Adds an enlistment, of which nothing else is known. The list has room for it.
fn add(branches: &mut Vec<Branch>, e: EnlNo, manager: RmNo)
    requires { length (filter (λ b. not (is_branch e.value b)) branches.old.items) < vec_capacity branches.old }
    ensures items { branches.new.items ≡ with_branch e manager branches.old.items }
    ensures capacity { vec_capacity branches.old ≤ vec_capacity branches.new }
{
    remove(branches, e);
    let opened = Branch {
        enlistment: e,
        manager,
        enlisted: false,
        aborted: false,
        acked: false,
        due: None,
    };
    let at = place_in_order(branches, e.get());
    match branches.insert(at, opened) {
        Ok(()) => {}
        Err(_) => unreachable!(),
    }
}

/// What a message that was sent changes: ENLIST adds an enlistment.
pub fn note_sent(branches: &mut Vec<Branch>, c: Conn, m: &Message)
    requires { length (branches_after (Sent c Up m.now) branches.old.items) ≤ vec_capacity branches.old }
    ensures items { branches.new.items ≡ branches_after (Sent c Up m.now) branches.old.items }
    ensures capacity { vec_capacity branches.old ≤ vec_capacity branches.new }
{
    if let Conn::Enl(e) = c {
        if let Message::EnlistEnlist(info) = *m {
            add(branches, e, info.rm);
        }
    }
}

/// What a message that was got changes: ENLISTED, and a commit.
pub fn note_got(branches: &mut Vec<Branch>, c: Conn, m: &Message)
    ensures items { branches.new.items ≡ branches_after (Got c Down m.now) branches.old.items }
    ensures capacity { vec_capacity branches.new ≡ vec_capacity branches.old }
{
    match c {
        Conn::Enl(e) => match *m {
            Message::EnlistEnlisted => change(branches, e, BranchChange::Enlisted),
            Message::EnlistCommit => change(branches, e, BranchChange::Due(Some(c))),
            _ => {}
        },
        Conn::Again(e) => match *m {
            Message::ReenlistCommitted => change(branches, e, BranchChange::Due(Some(c))),
            _ => {}
        },
        _ => {}
    }
}

/// The enlistment of this number.
pub fn branch_of(branches: &[Branch], e: EnlNo) -> Option<Branch>
    ensures { result ≡ find (is_branch e.value) branches.now }
{
    branches.iter().copied().find(|b| b.enlistment == e)
}

/// The enlistment at an index.
pub fn branch_at(branches: &[Branch], i: usize) -> Branch
    requires { i < length branches.now }
    ensures { slice_get branches.now i ≡ Some result }
{
    branches[i]
}

/// Whether one of them didn't acknowledge its commit.
pub fn owe_ack(branches: &[Branch]) -> bool
    ensures { result ≡ list_any owes_ack branches.now }
{
    branches.iter().any(|b| b.due.is_some())
}

/// Whether the coordinator accepted the enlistment of this number.
pub fn is_enlisted(branches: &[Branch], e: EnlNo) -> bool
    ensures { result ≡ list_any (λ b. is_branch e.value b && b.enlisted) branches.now }
{
    branches.iter().any(|b| b.enlistment == e && b.enlisted)
}
