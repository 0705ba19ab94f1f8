//! A manager that a host holds.
ghost use Rattle.std.specs.Prelude.{◌≡◌, Option, None, Some, true, is_some};
ghost use Rattle.std.specs.Box.Ownership.{box_owns};
ghost use Rattle.std.specs.Coded.{coded_option};
ghost use Rattle.host_manager.specs.Host.{HostView};
ghost use Rattle.host_manager.specs.contracts.host_manager.HostManager.{the_row};
ghost use Rattle.wirtozhak_c.specs.Owned.{global_token, owned_if};

use crate::loose::Loose;
use host_manager::HostManager;
use std::alloc::Global;
use std::marker::Model;
use std::mem::replace;

/// The address of a manager's box, which it owns; or none.
///
/// Who drops one that owns a box forgets the box: nothing is freed.
#[repr(C)]
#[derive(Drop)]
pub struct Held {
    at: *mut u8,
    ghost value: { Option HostView } by { coded_option the_row.coded },
}

impl Model for Held {
    ghost also_owns = { λ h. owned_if (box_owns global_token the_row h.at) h.value };
}

impl Held {
    // That of this box.
    fn of(l: Loose<HostManager, Global>) -> Held
        ensures { result.value ≡ Some l.value }
    {
        let Loose { at, alloc: _ } = l;
        Held { at: at as *mut u8 }
    }

    // None.
    fn none() -> Held
        ensures { result.value ≡ None }
    {
        Held {
            at: std::ptr::null_mut(),
        }
    }

    // The box.
    fn into_loose(self, alloc: Global) -> Loose<HostManager, Global>
        requires { is_some self.value ≡ true }
        ensures { self.value ≡ Some result.value }
    {
        let Held { at } = self;
        Loose {
            at: at as *mut HostManager,
            alloc,
        }
    }
}

/// A manager that a host holds, or none. All zero bytes: it is closed.
#[repr(C)]
#[derive(Drop)]
pub struct Handle {
    is_open: bool,
    held: Held,
    ghost tied: { is_some held.value ≡ is_open },
}

impl Handle {
    // One that is closed.
    fn closed() -> Handle
        ensures { result.held.value ≡ None }
    {
        Handle {
            is_open: false,
            held: Held::none(),
        }
    }

    /// Whether it is open.
    pub fn is_open(&self) -> bool
        ensures { result ≡ is_some self.now.held.value }
    {
        self.is_open
    }

    /// Puts a manager into one that is closed.
    pub fn put(&mut self, b: Box<HostManager>)
        requires closed { self.old.held.value ≡ None }
        ensures { self.new.held.value ≡ Some b.value }
    {
        *self = Handle {
            is_open: true,
            held: Held::of(Loose::of(b)),
        };
    }

    /// Takes the manager out of one that is open; it is closed then.
    pub fn take(&mut self, alloc: Global) -> Box<HostManager>
        requires { is_some self.old.held.value ≡ true }
        ensures taken { self.old.held.value ≡ Some result.value }
        ensures closed { self.new.held.value ≡ None }
    {
        let Handle { is_open: _, held } = replace(self, Handle::closed());
        held.into_loose(alloc).into_box()
    }
}
