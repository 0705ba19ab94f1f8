//! Whose each enlistment and each clone of a script is, and which call each line gives by its own words.
ghost use Rattle.std.specs.Prelude.{◌≡◌, ◌<◌, ◌==◌, ◌-◌, ℕ, length, IfNone, IfOk, IfSome, None, OnOk, Some, slice_index_or, if◌then◌else◌};
ghost use Rattle.dtx_values.specs.declared.number.CloneNo.{CloneNo};
ghost use Rattle.dtx_values.specs.declared.number.EnlNo.{EnlNo};
ghost use Rattle.dtx_model.specs.Calls.{call_of, clone_made, enlistment_made, transaction_of, transaction_with};
ghost use Rattle.dtx_model.specs.Words.{or_else};

use dtx_values::{Body, Call, CloneNo, EnlNo, Line, TxNo};
use std::alloc::{AllocError, Global};
use std::marker::Model;

/// The transactions of the enlistments, and those of the clones, each at the place of its number, as far as the script names them. Contracts see the script that says so.
#[derive(Drop)]
pub struct Plans<'a> {
    lines: &'a [Line],
    enlistments: Vec<Option<TxNo>>,
    clones: Vec<Option<TxNo>>,
}

/// What a table has at a place; `blank` where it ends before it.
fn item_at<T: Copy>(items: &[T], place: usize, blank: T) -> T
    ensures { result ≡ slice_index_or items.now place blank }
{
    if place < items.len() {
        items[place]
    } else {
        blank
    }
}

/// The enlistment that a command makes, and its transaction.
fn made_by(body: Body) -> Option<(EnlNo, TxNo)>
    ensures some { IfSome result (λ x. (e : ℕ) → enlistment_made e body ≡ (if e == x.0.value then Some x.1 else None)) }
    ensures none { IfNone result ((e : ℕ) → enlistment_made e body ≡ None) }
{
    match body {
        Body::Volatile(t, e, _, _)
        | Body::Durable(t, e, _, _)
        | Body::Promotable(t, e, _, _, _, _) => Some((e, t)),
        _ => None,
    }
}

/// Makes a table longer where it ends before a place.
fn reach<T: Copy>(items: &mut Vec<T>, place: usize, blank: T) -> Result<(), AllocError>
    requires { place < EnlNo.MAX }
    ensures room { OnOk result (place < length items.new.items) }
    ensures same { OnOk result ((k : ℕ) → slice_index_or items.new.items k blank ≡ slice_index_or items.old.items k blank) }
{
    if items.len() <= place {
        items.resize(place + 1, blank)?;
    }
    Ok(())
}

/// Puts an item at a place of a table.
fn put_at<T: Copy>(items: &mut Vec<T>, place: usize, blank: T, item: T) -> Result<(), AllocError>
    requires { place < EnlNo.MAX }
    ensures { OnOk result ((k : ℕ) → slice_index_or items.new.items k blank
        ≡ (if k == place then item else slice_index_or items.old.items k blank)) }
{
    reach(items, place, blank)?;
    items[place] = item;
    Ok(())
}

/// Keeps whose enlistment a command makes.
fn enlist(enlistments: &mut Vec<Option<TxNo>>, body: Body) -> Result<(), AllocError>
    ensures { OnOk result ((e : EnlNo) → slice_index_or enlistments.new.items (e.value - 1) None
        ≡ or_else (enlistment_made e.value body) (slice_index_or enlistments.old.items (e.value - 1) None)) }
{
    let Some((e, t)) = made_by(body) else {
        return Ok(());
    };
    put_at(enlistments, e.index(), None, Some(t))
}

/// Keeps whose clone a command makes.
fn own(clones: &mut Vec<Option<TxNo>>, body: Body) -> Result<(), AllocError>
    ensures { OnOk result ((c : CloneNo) → slice_index_or clones.new.items (c.value - 1) None
        ≡ or_else (clone_made c.value body) (slice_index_or clones.old.items (c.value - 1) None)) }
{
    let Body::Clone(t, c, _) = body else {
        return Ok(());
    };
    put_at(clones, c.index(), None, Some(t))
}

impl<'a> Model for Plans<'a> {
    ghost use Rattle.std.specs.Prelude.{List};
    ghost use Rattle.dtx_values.specs.declared.script.Line.{Line};
    ghost use Rattle.script_calls.specs.Plans.{ArePlanned};

    ghost Value = { List Line };

    ghost view = { λ p. p.lines.now };

    ghost invariant = { λ p. ArePlanned p.lines.now p.enlistments.items p.clones.items };
}

impl<'a> Plans<'a> {
    /// The tables of these lines.
    pub fn new(alloc: Global, lines: &'a [Line]) -> Result<Self, AllocError>
        ensures { IfOk result (λ p. p ≡ lines.entry.now) }
    {
        let mut enlistments = Vec::new(alloc);
        let mut clones = Vec::new(alloc);
        for line in lines {
            enlist(&mut enlistments, line.body)?;
            own(&mut clones, line.body)?;
        }
        Ok(Plans {
            lines,
            enlistments,
            clones,
        })
    }

    /// The transaction of the enlistment that a line makes; `None` where no line makes it.
    pub fn transaction_with(&self, e: EnlNo) -> Option<TxNo>
        ensures { result ≡ transaction_with self.now e.value }
    {
        item_at(&self.enlistments, e.index(), None)
    }

    /// The transaction of the clone that a line makes; `None` where no line makes it.
    pub fn transaction_of(&self, c: CloneNo) -> Option<TxNo>
        ensures { result ≡ transaction_of self.now c.value }
    {
        item_at(&self.clones, c.index(), None)
    }

    /// The lines.
    pub fn lines(&self) -> &'a [Line]
        ensures { result.now ≡ self.now }
    {
        self.lines
    }
}

/// The transaction that a line calls by its own words, and the call; `None` where it calls none so.
pub fn call_of(plans: &Plans, body: Body) -> Option<(TxNo, Call)>
    ensures { result ≡ call_of plans.now body }
{
    match body {
        Body::Begin(t, d) => Some((t, Call::Begin(t, d))),
        Body::Volatile(t, e, o, v) => Some((t, Call::Volatile(t, e, o, v))),
        Body::Durable(t, e, r, support) => Some((t, Call::Durable(t, e, r, support))),
        Body::Promotable(t, e, r, v, o, p) => Some((t, Call::Promotable(t, e, r, v, o, p))),
        Body::Clone(t, c, k) => Some((t, Call::Clone(t, c, k))),
        Body::Complete(c) => Some((plans.transaction_of(c)?, Call::Complete(c))),
        Body::Commit(t) => Some((t, Call::Commit(t))),
        Body::Rollback(t) => Some((t, Call::Rollback(t))),
        Body::Status(t) => Some((t, Call::Status(t))),
        Body::Await(t) => Some((t, Call::Await(t))),
        Body::Tick(t, n) => Some((t, Call::Tick(t, n))),
        Body::Do(t, k, n) => Some((t, Call::Do(t, k, n))),
        Body::Marshal(t) => Some((t, Call::Marshal(t))),
        Body::Lose(t, c, n, m) => Some((t, Call::Lose(t, c, n, m))),
        Body::Gone(e) => Some((plans.transaction_with(e)?, Call::Gone(e))),
        Body::Reenlist(e) => Some((plans.transaction_with(e)?, Call::Reenlist(e))),
        Body::Recovered(t, r) => Some((t, Call::Recovered(t, r))),
        _ => None,
    }
}
