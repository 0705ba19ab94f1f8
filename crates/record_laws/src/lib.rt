//! The laws of the record of a transaction: whom it names, who is told the outcome by it, and when it goes. They are of a program that gives a transaction its own calls, over
//! histories without a restart; and where the record goes, without a manager that said that it has recovered.
//!
//! Each law is a public function with an empty body. It does nothing when it runs. A caller calls it for its contract: after the call the proof of the caller has the law.
#![tactic(auto)]

ghost use Rattle.std.specs.Prelude.{◌≡◌, ℕ, false};
ghost use Rattle.dtx_model.specs.Words.{has};
ghost use Rattle.dtx_model.specs.World.{World};
ghost use Rattle.dtx_model.specs.AtLog.{is_restart};
ghost use Rattle.dtx_model.specs.Caused.{AreMadeOnce, IsIn, IsOwnRun};
ghost use Rattle.record_laws.specs.Recorded.{RecordsVotes, TellsByRecord, is_recovered};

/// The record names each durable and promotable enlistment that voted yes, with its manager, and no other. Where one was appended, or may have been, nobody was handed the commit
/// or told that it aborted, and each durable and promotable that was asked to prepare voted yes or done.
pub fn records_votes()
    ensures { (t : ℕ) (w : World) → AreMadeOnce (IsIn w.calls) → IsOwnRun t w → has is_restart w.past ≡ false → RecordsVotes t w }
{}

/// A durable or promotable is told of the commit only after the record, unless the commit was handed to one of them, which then is the only one that anything was asked of. The
/// record goes only after each that voted yes acknowledged. And none is asked to prepare twice, nor asked or handed anything once it was told of the commit.
pub fn tells_by_record()
    ensures { (t : ℕ) (w : World) → AreMadeOnce (IsIn w.calls) → IsOwnRun t w → has is_restart w.past ≡ false → has is_recovered w.past ≡ false → TellsByRecord w }
{}
