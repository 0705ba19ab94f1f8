//! How far a transaction is, and what comes next.
ghost use Rattle.std.specs.Prelude.{ℕ, ◌≡◌};
ghost use Rattle.dtx_values.specs.declared.message.Message.{Message};
ghost use Rattle.dtx_model.specs.Coordinated.{begin_if, behind_restart, has_aborted, is_active, is_given, is_going, is_recorded, is_sole, is_undecided, opening_by, sole_if};
ghost use Rattle.coordinator_core.specs.Hearing.{said};

use dtx_model::Stage;

/// Whether it was begun, COMMIT for a single phase wasn't got, and nothing is decided.
pub(crate) fn is_active(s: Stage) -> bool
    ensures { result ≡ is_active s }
{
    matches!(s, Stage::Active)
}

/// Whether COMMIT for a single phase was got, and nothing came of it yet.
pub(crate) fn is_sole(s: Stage) -> bool
    ensures { result ≡ is_sole s }
{
    matches!(s, Stage::Sole)
}

/// Whether its one enlistment decides.
pub(crate) fn is_given(s: Stage) -> bool
    ensures { result ≡ is_given s }
{
    matches!(s, Stage::Given)
}

/// Whether it was begun, and nothing is decided.
pub(crate) fn is_going(s: Stage) -> bool
    ensures { result ≡ is_going s }
{
    matches!(s, Stage::Active | Stage::Sole)
}

/// Whether nothing is decided, and the coordinator may still abort by itself.
pub(crate) fn is_undecided(s: Stage) -> bool
    ensures { result ≡ is_undecided s }
{
    matches!(s, Stage::Idle | Stage::Active | Stage::Sole)
}

/// Whether its record is durable.
pub(crate) fn is_recorded(s: Stage) -> bool
    ensures { result ≡ is_recorded s }
{
    matches!(s, Stage::Recorded)
}

/// Whether it is aborted.
pub(crate) fn has_aborted(s: Stage) -> bool
    ensures { result ≡ has_aborted s }
{
    matches!(s, Stage::Aborted | Stage::Unknown)
}

/// The stage after BEGIN.
pub(crate) fn begun(s: Stage) -> Stage
    ensures { result ≡ begin_if s }
{
    match s {
        Stage::Idle => Stage::Active,
        _ => s,
    }
}

/// The stage after COMMIT for a single phase, where that is accepted and exactly one enlistment was.
pub(crate) fn sole_at(accepted: bool, is_one: bool, s: Stage) -> Stage
    ensures { result ≡ sole_if accepted is_one s }
{
    if !accepted {
        return s;
    }
    if is_one { Stage::Sole } else { Stage::Aborted }
}

/// The stage after a restart that found the record, or found none.
pub(crate) fn restarted(found: bool, s: Stage) -> Stage
    ensures { result ≡ behind_restart found s }
{
    if found {
        return Stage::Recorded;
    }
    match s {
        Stage::Recorded | Stage::Over => Stage::Over,
        _ => Stage::Unknown,
    }
}

/// The answer to VOTER or ENLIST.
pub(crate) enum Opening {
    Accepted,
    Aborted,
    /// COMMIT was got.
    TooLate,
    /// There is no such transaction in this life of the coordinator.
    NoSuch,
}

/// The answer to VOTER or ENLIST at this stage, where COMMIT was got or not.
pub(crate) fn opening_at(s: Stage, commit: bool) -> Opening
    ensures { (good abort : Message) (refused : ℕ → Message) → said result good abort refused ≡ opening_by s commit good abort refused }
{
    match s {
        Stage::Aborted => Opening::Aborted,
        Stage::Unknown | Stage::Over => Opening::NoSuch,
        Stage::Active => {
            if commit {
                Opening::TooLate
            } else {
                Opening::Accepted
            }
        }
        Stage::Idle | Stage::Sole | Stage::Given | Stage::Answered | Stage::Recorded => {
            Opening::TooLate
        }
    }
}
