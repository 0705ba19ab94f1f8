//! One object, which answers for the enlistments of one manager, or for all volatiles.
ghost use Rattle.std.specs.Prelude.{◌≡◌, [], IfOk, IfSome, Option, drop, length, true};
ghost use Rattle.dtx_values.specs.declared.note.Reply.{Reply};
ghost use Rattle.dtx_values.specs.declared.number.TheConstants.EnlNo.{MAX};
ghost use Rattle.dtx_model.specs.Replies.{fits};
ghost use Rattle.dtx_model.specs.Words.{all_of, put};
ghost use Rattle.heard_notes.specs.Heard.{Reaches};
ghost use Rattle.script_calls.specs.Managers.{AreManagers};
ghost use Rattle.replay_runs.specs.Objects.{IsAsked, IsForOne, IsTold, answers_by, fitting, told_by, volatile_by};
ghost use Rattle.replay_runs.specs.Volatiles.{AreVolatiles};

use crate::asking::Objects;
use crate::volatiles::volatiles_of;
use dtx_values::{EnlNo, Entry, Line, Note, Reply, Resource, RmNo, TxNo};
use entry_lists::Entries;
use heard_notes::{Of, note_told};
use script_calls::{fits, managers_of};
use std::alloc::{AllocError, Global};
use tx_world::TxWorld;

/// For whom an object answers, and the script's managers and volatiles, by numbers.
#[derive(Drop)]
pub struct Tables {
    of: Of,
    managers: Vec<Option<RmNo>>,
    volatiles: Vec<bool>,
}

impl Tables {
    /// The tables of these lines.
    pub fn new(alloc: Global, lines: &[Line], of: Of) -> Result<Self, AllocError>
        ensures of { IfOk result (λ x. x.of ≡ of) }
        ensures full { IfOk result (λ x. (length x.managers.items ≡ MAX) × (length x.volatiles.items ≡ MAX)) }
        ensures managers { IfOk result (λ x. AreManagers lines.now lines.now x.managers.items) }
        ensures volatiles { IfOk result (λ x. AreVolatiles lines.now lines.now x.volatiles.items) }
    {
        Ok(Tables {
            of,
            managers: managers_of(alloc, lines)?,
            volatiles: volatiles_of(alloc, lines)?,
        })
    }

    /// Whether the object answers for an enlistment.
    fn answers(&self, e: EnlNo) -> bool
        requires managers { length self.now.managers.items ≡ MAX }
        requires volatiles { length self.now.volatiles.items ≡ MAX }
        ensures { result ≡ answers_by self.now.of self.now.managers.items self.now.volatiles.items e.value }
    {
        match self.of {
            Of::Manager(r) => self.managers[e.index()] == Some(r),
            Of::Volatiles => self.volatiles[e.index()],
        }
    }

    /// The note without a reply that an entry tells, where it is told one for whom the object answers.
    fn told(&self, x: &Entry) -> Option<(EnlNo, Note)>
        requires managers { length self.now.managers.items ≡ MAX }
        requires volatiles { length self.now.volatiles.items ≡ MAX }
        ensures { result ≡ told_by (answers_by self.now.of self.now.managers.items self.now.volatiles.items) (volatile_by self.now.volatiles.items) x.now }
    {
        let (e, _) = note_told(true, x)?;
        if !self.answers(e) {
            return None;
        }
        note_told(self.volatiles[e.index()], x)
    }
}

/// What the object replies to the note; `None` where it gives no answer that fits it.
fn answer<R: Resource>(object: &mut R, t: TxNo, e: EnlNo, n: Note) -> Option<Reply>
    ensures fits { IfSome result (λ r. fits r n ≡ true) }
    ensures answer { (a : Option Reply) × R.gives object.old t e n a object.new × (result ≡ fitting n a) }
{
    let r = object.on(t, e, n)?;
    if fits(r, n) { Some(r) } else { None }
}

/// Tells the object what an entry of a transaction tells one for whom it answers, whatever it answers.
fn tell_one<R: Resource>(tables: &Tables, object: &mut R, t: TxNo, x: &Entry)
    requires managers { length tables.now.managers.items ≡ MAX }
    requires volatiles { length tables.now.volatiles.items ≡ MAX }
    ensures { IsTold R.gives t (put (told_by (answers_by tables.now.of tables.now.managers.items tables.now.volatiles.items) (volatile_by tables.now.volatiles.items) x.now) []) object.old object.new }
{
    if let Some((e, n)) = tables.told(x) {
        let _ = object.on(t, e, n);
    }
}

/// Tells the object what the entries of a transaction from this place on tell those for whom it answers, in their order.
fn tell_from<R: Resource>(tables: &Tables, object: &mut R, t: TxNo, entries: &Entries, from: usize)
    requires managers { length tables.now.managers.items ≡ MAX }
    requires volatiles { length tables.now.volatiles.items ≡ MAX }
    ensures { IsTold R.gives t (all_of (told_by (answers_by tables.now.of tables.now.managers.items tables.now.volatiles.items) (volatile_by tables.now.volatiles.items)) (drop from entries.now.items)) object.old object.new }
{
    for i in from..entries.len() {
        tell_one(tables, object, t, &entries.at(i));
    }
}

/// One object, with those for whom it answers.
#[derive(Drop)]
pub struct One<'a, R> {
    pub tables: &'a Tables,
    pub object: &'a mut R,
}

impl<'a, R: Resource> Objects for One<'a, R> {
    ghost is_for = { λ s o x. IsForOne s o x.tables.now.of x.tables.now.managers.items x.tables.now.volatiles.items };

    ghost reached = { λ s from hs to. (to.object.ghost_name ≡ from.object.ghost_name) × Reaches R.gives s from.object.now hs to.object.now };

    ghost asks = { λ t d x given y. (y.tables.now ≡ x.tables.now) × (y.object.ghost_name ≡ x.object.ghost_name) × IsAsked R.gives (answers_by x.tables.now.of x.tables.now.managers.items x.tables.now.volatiles.items) t d x.object.now given y.object.now };

    fn asked(
        &mut self,
        _managers: &[Option<RmNo>],
        t: TxNo,
        world: &TxWorld,
        k: u32,
    ) -> Option<(EnlNo, Reply)> {
        let (e, n) = world.due_at(k)?;
        if !self.tables.answers(e) {
            return None;
        }
        let r = answer(self.object, t, e, n)?;
        Some((e, r))
    }

    fn tell(&mut self, t: TxNo, world: &TxWorld, from: usize) {
        tell_from(self.tables, self.object, t, world.history(), from);
    }
}
