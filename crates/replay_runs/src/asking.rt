//! Who answers in the place of plans.
use dtx_values::{EnlNo, Reply, RmNo, TxNo};
use tx_world::TxWorld;

/// Who answers in the place of plans, and may hear notes. What becomes of it is a relation of before and after.
pub trait Objects {
    ghost use Rattle.std.specs.Prelude.{◌≡◌, ◌≤◌, IfSome, List, None, Option, length, true};
    ghost use Rattle.dtx_values.specs.declared.entry.Entry.{Entry};
    ghost use Rattle.dtx_values.specs.declared.note.Note.{Note};
    ghost use Rattle.dtx_values.specs.declared.note.Reply.{Reply};
    ghost use Rattle.dtx_values.specs.declared.number.EnlNo.{EnlNo};
    ghost use Rattle.dtx_values.specs.declared.number.TxNo.{TxNo};
    ghost use Rattle.dtx_values.specs.declared.script.Line.{Line};
    ghost use Rattle.dtx_model.specs.Caused.{Of, answers as has_answer};
    ghost use Rattle.dtx_model.specs.Steps.{pending};
    ghost use Rattle.dtx_model.specs.Traces.{Placed, placed};
    ghost use Rattle.dtx_model.specs.Words.{each, kth, onto};
    ghost use Rattle.heard_notes.specs.Heard.{HeardNote, heard};
    ghost use Rattle.script_calls.specs.Managers.{AreManagers};
    ghost use Rattle.tx_world.specs.Stepping.{reply_in};
    ghost use Rattle.replay_runs.specs.Objects.{IsBlockOf, MayReply, is_no_reply};

    /// They are made for a script, and answer for these of its enlistments.
    ghost is_for: { List Line → Of → Self → Type 0 };

    /// They are reached from those before by these notes, the newest first, as the script's plans are.
    ghost reached: { List Line → Self → List HeardNote → Self → Type 0 };

    /// What a question does: where this enlistment of a transaction owes a reply to this note, or none does, this is the reply.
    ghost asks: { TxNo → Option (EnlNo × Note) → Self → Option (EnlNo × Reply) → Self → Type 0 };

    /// The reply to the k-th pending step, from 1, over the table of the script's managers, where that is one of an enlistment that has an object, and the object gives one that fits. No other step is asked for, and so no
    /// enlistment that plans no reply.
    fn asked(
        &mut self,
        managers: &[Option<RmNo>],
        t: TxNo,
        world: &TxWorld,
        k: u32,
    ) -> Option<(EnlNo, Reply)>
        requires made { (s : List Line) × (o : Of) × is_for s o self.old }
        requires full { length managers.now ≡ EnlNo.MAX }
        ensures due { IfSome result (λ x. MayReply world.now.world k x.0 x.1) }
        ensures owned { (s : List Line) (o : Of) → is_for s o self.old → AreManagers s s managers.now → IfSome result (λ g. has_answer s o g.0.value ≡ true) }
        ensures made { (s : List Line) (o : Of) → is_for s o self.old → is_for s o self.new }
        ensures asks { asks t (reply_in world.now.world (kth (pending world.now.world) k)) self.old result self.new }
        ensures idle { (s : List Line) (from : Self) (hs : List HeardNote) → reply_in world.now.world (kth (pending world.now.world) k) ≡ None → reached s from hs self.old → reached s from hs self.new };

    /// Tells what was written to a transaction's history from this place on. So, after a question, it heard what the block of the step shows that was done by the answer; and where nothing was asked, what
    /// a block shows in which no reply is.
    fn tell(&mut self, t: TxNo, world: &TxWorld, from: usize)
        requires made { (s : List Line) × (o : Of) × is_for s o self.old }
        requires from { from ≤ length world.now.world.past }
        ensures made { (s : List Line) (o : Of) → is_for s o self.old → is_for s o self.new }
        ensures stepped { (past es : List Entry) → length past ≡ from → world.now.world.past ≡ onto past es → (s : List Line) (o : Of) (d : Option (EnlNo × Note)) (first x : Self) (given : Option (EnlNo × Reply)) (T : List Placed) → is_for s o x → asks t d x given self.old → IsBlockOf s d given es → reached s first (heard s o T) x → reached s first (heard s o (onto T (placed t es))) self.new }
        ensures called { (past es : List Entry) → length past ≡ from → world.now.world.past ≡ onto past es → (s : List Line) (o : Of) (first : Self) (T : List Placed) → is_for s o self.old → each is_no_reply es ≡ true → reached s first (heard s o T) self.old → reached s first (heard s o (onto T (placed t es))) self.new };
}
