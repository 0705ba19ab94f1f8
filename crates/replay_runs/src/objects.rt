//! Steps whose reply the object of a manager may give.
ghost use Rattle.std.specs.Prelude.{◌-◌, ◌≡◌, ◌<◌, IfSome, IsTrue, None, OnErr, Option, Ok, Some, false, length, slice_get, slice_index_or, true};
ghost use Rattle.dtx_values.specs.declared.note.Note.{Note};
ghost use Rattle.dtx_values.specs.declared.note.Reply.{Reply};
ghost use Rattle.dtx_values.specs.declared.number.EnlNo.{EnlNo};
ghost use Rattle.dtx_values.specs.declared.number.RmNo.{RmNo};
ghost use Rattle.dtx_model.specs.Caused.{is_up_to};
ghost use Rattle.dtx_model.specs.Replies.{fits};
ghost use Rattle.dtx_model.specs.Steps.{pending};
ghost use Rattle.dtx_model.specs.Words.{kth};
ghost use Rattle.dtx_model.specs.World.{core};
ghost use Rattle.coordinator_log.specs.Slots.{open_records};
ghost use Rattle.tx_world.specs.AtLog.{Fits, id_of};
ghost use Rattle.tx_world.specs.Leaves.{Leaves};
ghost use Rattle.tx_world.specs.Stepping.{reply_in};
ghost use Rattle.world_laws.specs.Left.{steps_left};
ghost use Rattle.world_parts.specs.Found.{IsLeftAsWished};
ghost use Rattle.replay_runs.specs.Objects.{DoesGiven, MayReply, fitting, reply_by};

use coordinator_log::Log;
use dtx_values::{EnlNo, Note, Outbox, Reply, Resource, RmNo, TxNo};
use outside::Disk;
use script_calls::fits;
use tx_world::{TxWorld, WorldError};

/// What the object replies to the note; `None` where it gives no answer that fits it.
fn answer(object: &mut dyn Resource, t: TxNo, e: EnlNo, n: Note) -> Option<Reply>
    ensures fits { IfSome result (λ r. fits r n ≡ true) }
    ensures answer { (a : Option Reply) × (after : _) × gives object.old t e n a after × (result ≡ fitting n a) }
{
    let r = object.on(t, e, n)?;
    if fits(r, n) { Some(r) } else { None }
}

/// The reply to the k-th pending step, from 1, where that is one of an enlistment whose manager has an object, and the object gives one that fits. No other step is asked for, and so no enlistment
/// that plans no reply.
pub fn asked(
    managers: &[Option<RmNo>],
    resources: &mut [Box<dyn Resource + Send>],
    t: TxNo,
    world: &TxWorld,
    k: u32,
) -> Option<(EnlNo, Reply)>
    requires { length managers.now ≡ EnlNo.MAX }
    ensures due { IfSome result (λ x. MayReply world.now.world k x.0 x.1) }
    ensures object { IfSome result (λ x. is_up_to (length resources.old) (slice_index_or managers.now (x.0.value - 1) None) ≡ true) }
    ensures answer { (e : EnlNo) (n : Note) (rm : RmNo) (object : _) → reply_in world.now.world (kth (pending world.now.world) k) ≡ Some (e, n) → slice_index_or managers.now (e.value - 1) None ≡ Some rm
        → slice_get resources.old (rm.value - 1) ≡ Some object → (a : Option Reply) × (after : _) × gives object t e n a after × (result ≡ reply_by e (fitting n a)) }
    ensures same { length resources.new ≡ length resources.old }
{
    // Most runs have none, and then the pending steps need not be looked through.
    if resources.is_empty() {
        return None;
    }
    let (e, n) = world.due_at(k)?;
    let rm = managers[e.index()]?;
    let object = resources.get_mut(rm.index())?;
    let r = answer(&mut **object, t, e, n)?;
    Some((e, r))
}

/// Does the k-th pending step, from 1, of a transaction: this reply, where an object gave one, or else the step as planned; false where fewer than k are pending.
pub fn do_kth<D: Disk>(
    world: &mut TxWorld,
    log: &mut Log<D>,
    out: &mut Outbox,
    k: u32,
    reply: Option<(EnlNo, Reply)>,
) -> Result<bool, WorldError>
    requires fits { IsTrue D.honest → IsTrue log.old.is_up → Fits world.old (open_records log.old.slots) }
    requires due { IfSome reply (λ x. MayReply world.old.world k x.0 x.1) }
    ensures none { result ≡ Ok false → (kth (pending world.old.world) k ≡ None) × (world.new ≡ world.old) × (log.new ≡ log.old) }
    ensures some { result ≡ Ok true → DoesGiven D.faults reply k world.old log.old world.new log.new }
    ensures nearer { result ≡ Ok true → steps_left world.new.world < steps_left world.old.world }
    ensures leaves { Leaves D.honest D.image D.faults world.old log.old world.new log.new }
    ensures found { IsTrue D.obeys → IsLeftAsWished D.faults D.seen (core world.old.world) (id_of world.old) log.old log.new }
    ensures memory { OnErr result ((world.new ≡ world.old) × (log.new ≡ log.old)) }
{
    // A proof sees here that the world is a run, each step of which leaves fewer.
    world.is_own_run();
    match reply {
        Some((e, r)) => world.reply(log, out, e, r),
        None => world.step(log, out, k),
    }
}
