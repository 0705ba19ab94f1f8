//! Recovery across processes is all or nothing: the laws, over what the log has recorded and what each resource manager holds.
//!
//! Each law is a public function with an empty body. It does nothing when it runs. A caller calls it for its contract: after the call the proof of the caller has the law.
//!
//! A transaction is *whole* where the log's record of it names just what the resources hold of it, or, where the log has no record, where all that they hold of it is marked as
//! committed, or nothing is. The rules are a definition of this project.
#![tactic(auto)]

ghost use Rattle.recovery_laws.specs.Whole.{IsRecovered};
ghost use Rattle.recovery_laws.specs.Steps.{AreStepsWhole, IsEndedBySteps};
ghost use Rattle.recovery_laws.specs.Stepwise.{IsStepwise};
ghost use Rattle.recovery_laws.specs.OneByOne.{IsRecoveredOneByOne};

/// Recovery ends each whole transaction of an earlier process, at all resource managers alike: nothing of it is in doubt any more; where the log has its record, each enlistment
/// that the record names is committed; and where it has none, and nothing was committed before, nothing of it is held.
pub fn recovery_settles()
    ensures { IsRecovered }
{}

/// Each step of a resource manager, of the coordinator's log and of recovery keeps every transaction whole: to prepare while there is no record and nothing is marked; to record a
/// decision that names just what is held; to mark as committed by a record; to forget the record once all is marked; to roll back where there is no record; and to finish what is in
/// doubt, to commit by a record and to abort without one. A process that ends leaves each transaction as whole as it was to a later one, whose calls prepared nothing of it.
pub fn steps_stay_whole()
    ensures { AreStepsWhole }
{}

/// Recovery call by call, in any order of the calls, ends a transaction: where it stayed whole, nothing of it is left unmarked, and, if it has no record and nothing of it was marked
/// before, nothing of it is marked.
pub fn steps_end()
    ensures { IsEndedBySteps }
{}

/// A resource manager recovers by finishing, one after another, what it holds in doubt, as the log says of each. No such step changes what recovery makes of all that it holds, and each
/// keeps whole every transaction that was. Each leaves one fewer in doubt, and once none is in doubt, recovery has been made.
pub fn recovery_is_stepwise()
    ensures { IsStepwise }
{}

/// Recovery of several resources, one after another, ends each whole transaction of an earlier process at all of them alike, although each call may free records. The record of a
/// transaction goes only once each manager that it names has recovered. So the transaction stays whole after each call, and none that asks later finds aborted what an earlier one found
/// committed. It is ended once each manager has recovered that held something of it in doubt.
pub fn recovery_one_by_one()
    ensures { IsRecoveredOneByOne }
{}
