//! The objects of the first managers.
ghost use Rattle.std.specs.Prelude.{◌≡◌, length};
ghost use Rattle.dtx_model.specs.Caused.{Managers};

use crate::asking::Objects;
use crate::objects::asked;
use dtx_values::{EnlNo, Reply, Resource, RmNo, TxNo};
use tx_world::TxWorld;

/// The objects of the first managers, in order. They hear only notes to which a reply is due.
#[derive(Drop)]
pub struct Listed<'a> {
    pub resources: &'a mut [Box<dyn Resource + Send>],
}

impl<'a> Objects for Listed<'a> {
    ghost is_for = { λ s o l. o ≡ Managers (length l.resources.now) };

    ghost reached = { λ s from hs to. Unit {0} };

    ghost asks = { λ t d x given y. Unit {0} };

    fn asked(
        &mut self,
        managers: &[Option<RmNo>],
        t: TxNo,
        world: &TxWorld,
        k: u32,
    ) -> Option<(EnlNo, Reply)> {
        asked(managers, self.resources, t, world, k)
    }

    fn tell(&mut self, _t: TxNo, _world: &TxWorld, _from: usize) {}
}
