//! Replays of a script: with the objects of the first managers, and with one object.
ghost use Rattle.std.specs.Prelude.{◌≡◌, ◌≤◌, ◌^◌, ◌&&◌, [], IfOk, IsTrue, None, false, length, true};
ghost use Rattle.dtx_model.specs.AtLog.{has_log_line, is_log_up};
ghost use Rattle.dtx_model.specs.Grammar.{IsScript};
ghost use Rattle.dtx_model.specs.Outcome.{is_empty};
ghost use Rattle.dtx_model.specs.Words.{past_of};
ghost use Rattle.heard_notes.specs.Heard.{Reaches, heard};
ghost use Rattle.heard_notes.specs.Whose.{whose};
ghost use Rattle.coordinator_log.specs.Slots.{open_records};
ghost use Rattle.replay_runs.specs.Ending.{EndsAs, HasNone};
ghost use Rattle.replay_runs.specs.Found.{finds_as_wished};
ghost use Rattle.replay_runs.specs.Lawful.{IsLawful};
ghost use Rattle.replay_runs.specs.LogRun.{LogGoes, LogStays, MetNoFault};
ghost use Rattle.replay_runs.specs.Run.{IsRunOf, IsRunOfBy};
ghost use Rattle.replay_runs.specs.Whose.{named};

use crate::asking::Objects;
use crate::laws::lawful;
use crate::listed::Listed;
use crate::one::{One, Tables};
use crate::replay::trace_of;
use crate::whose::Whose;
use coordinator_log::Log;
use dtx_values::{Resource, Script};
use entry_lists::Trace;
use heard_notes::Of;
use outcome_law::{crossings, replay};
use outside::Disk;
use std::alloc::{AllocError, Global};
use tx_world::WorldError;

/// Replays a script with these objects, which are made for it.
fn run_of<D: Disk, O: Objects>(
    alloc: Global,
    s: &Script,
    log: &mut Log<D>,
    of: Whose,
    objects: &mut O,
) -> Result<Trace, AllocError>
    requires script { IsScript s.now }
    requires up { IsTrue log.old.is_up }
    requires unarmed { log.old.armed ≡ None }
    requires life { log.old.life ≤ 2 ^ 62 }
    requires none { IsTrue D.honest → HasNone (open_records log.old.slots) }
    requires made { O.is_for s.now (named of) objects.old }
    ensures run { IfOk result (λ T. IsRunOfBy s.now (named of) (D.faults log.old.disk) (D.faults log.new.disk) (D.honest && is_empty (open_records log.old.slots)) T) }
    ensures lawful { IfOk result (IsLawful D.honest (is_empty (open_records log.old.slots)) s.now) }
    ensures found { IsTrue D.obeys → MetNoFault D.faults log.old.disk log.new.disk → IfOk result (λ T. finds_as_wished (past_of T) ≡ true) }
    ensures heard { IfOk result (λ T. O.reached s.now objects.old [] objects.old → O.reached s.now objects.old (heard s.now (named of) (past_of T)) objects.new) }
    ensures up { IfOk result (λ T. log.new.is_up ≡ is_log_up (past_of T)) }
    ensures recorded { IsTrue D.honest → IfOk result (λ T. EndsAs D.image (open_records log.old.slots) log.new (past_of T)) }
    ensures log { LogGoes D.faults D.honest D.image log.old log.new }
    ensures stays { has_log_line s.now ≡ false → LogStays D.faults log.old log.new }
{
    // These calls do nothing when they run: their bodies are empty. Each brings its law into this proof, from which the clauses follow.
    lawful();
    crossings();
    replay();
    match trace_of(alloc, s.lines(), log, of, objects) {
        Ok(trace) => Ok(trace),
        Err(WorldError::Memory) => Err(AllocError),
    }
}

/// Replays a script: runs its lines in order, and settles its transactions, over a log that is up, on which no stop is armed, that has no record of the script's transactions, and whose life is at
/// most 2^62. A stop of the log stands in the trace, and so does a fault of the disk, which stops it.
///
/// Over a disk that obeys and meets no fault, the restart after a stop that was reached finds the record of the transaction whose act was stopped as the stop tells: an append stopped with `Keep` at its third or
/// fourth device call has left it, and a free stopped with `Lose`; else it isn't there.
///
/// The object at place k of `resources`, from 0, is that of manager r(k + 1). It hears each note to which a reply of one of its manager's enlistments is due, and its answer is the reply. The planned
/// reply is taken where there is no object, as for volatiles, and where it gives no answer or one that doesn't fit the note. An enlistment that plans no reply to a note stays silent, whatever its
/// object would say.
///
/// # Errors
///
/// [`AllocError`] where memory ran out.
pub fn run_replay<D: Disk>(
    alloc: Global,
    s: &Script,
    log: &mut Log<D>,
    resources: &mut [Box<dyn Resource + Send>],
) -> Result<Trace, AllocError>
    requires script { IsScript s.now }
    requires up { IsTrue log.old.is_up }
    requires unarmed { log.old.armed ≡ None }
    requires life { log.old.life ≤ 2 ^ 62 }
    requires none { IsTrue D.honest → HasNone (open_records log.old.slots) }

    // The trace: a run of the script in the order of a replay, which is a settled history. On an honest disk each restart in it found what may be found; and so is each trace without a restart. Where that is so, it has one outcome for each
    // transaction, and is complete. And over a disk that obeys and met no fault, a restart finds the record of the transaction whose act was stopped exactly where the armed stop leaves it.
    ensures replay { IfOk result (λ T. IsRunOf s.now (length resources.old) (D.faults log.old.disk) (D.faults log.new.disk) (D.honest && is_empty (open_records log.old.slots)) T) }
    ensures lawful { IfOk result (IsLawful D.honest (is_empty (open_records log.old.slots)) s.now) }
    ensures found { IsTrue D.obeys → MetNoFault D.faults log.old.disk log.new.disk → IfOk result (λ T. finds_as_wished (past_of T) ≡ true) }

    // The log.
    ensures up { IfOk result (λ T. log.new.is_up ≡ is_log_up (past_of T)) }
    ensures recorded { IsTrue D.honest → IfOk result (λ T. EndsAs D.image (open_records log.old.slots) log.new (past_of T)) }
    ensures log { LogGoes D.faults D.honest D.image log.old log.new }
    ensures stays { has_log_line s.now ≡ false → LogStays D.faults log.old log.new }
{
    let whose = Whose::First(resources.len());
    let mut objects = Listed { resources };
    run_of(alloc, s, log, whose, &mut objects)
}

/// Replays a script with one object, as `run_replay` does with those of the first managers. Of a script and a log the same is needed, and the same is promised of the trace and the log.
///
/// The object answers for all enlistments that `of` names: those of one manager, or all volatiles. It hears every note of theirs, in the order of the trace. A note that wants a reply it hears where
/// the reply's turn comes: to prepare, to promote, to be the owner of the commit, to commit in a single phase, and a durable's Commit. Its answer is the reply; the planned one is taken where it gives
/// none, or one that doesn't fit the note. An enlistment that plans no reply to a note stays silent, and the object is never asked there. Any other note it hears as soon as the step that tells it was
/// done: Init, a volatile's Commit, Rollback and InDoubt. What it answers to these is ignored.
///
/// So the object that is left is reached from the one that was given by just the notes that the trace shows those enlistments to have heard. Nothing is promised of it where memory ran out.
///
/// # Errors
///
/// [`AllocError`] where memory ran out.
pub fn run_with<D: Disk, R: Resource>(
    alloc: Global,
    s: &Script,
    log: &mut Log<D>,
    of: Of,
    object: &mut R,
) -> Result<Trace, AllocError>
    requires script { IsScript s.now }
    requires up { IsTrue log.old.is_up }
    requires unarmed { log.old.armed ≡ None }
    requires life { log.old.life ≤ 2 ^ 62 }
    requires none { IsTrue D.honest → HasNone (open_records log.old.slots) }

    // The trace, as run_replay has it, where those that `of` names have the object.
    ensures run { IfOk result (λ T. IsRunOfBy s.now (whose of) (D.faults log.old.disk) (D.faults log.new.disk) (D.honest && is_empty (open_records log.old.slots)) T) }
    ensures lawful { IfOk result (IsLawful D.honest (is_empty (open_records log.old.slots)) s.now) }
    ensures found { IsTrue D.obeys → MetNoFault D.faults log.old.disk log.new.disk → IfOk result (λ T. finds_as_wished (past_of T) ≡ true) }

    // The object: it was reached by what the trace shows that they heard, and what it answered there is what the trace shows.
    ensures heard { IfOk result (λ T. Reaches R.gives s.now object.old (heard s.now (whose of) (past_of T)) object.new) }

    // The log.
    ensures up { IfOk result (λ T. log.new.is_up ≡ is_log_up (past_of T)) }
    ensures recorded { IsTrue D.honest → IfOk result (λ T. EndsAs D.image (open_records log.old.slots) log.new (past_of T)) }
    ensures log { LogGoes D.faults D.honest D.image log.old log.new }
    ensures stays { has_log_line s.now ≡ false → LogStays D.faults log.old log.new }
{
    let tables = Tables::new(alloc, s.lines(), of)?;
    let mut one = One {
        tables: &tables,
        object,
    };
    run_of(alloc, s, log, Whose::One(of), &mut one)
}
