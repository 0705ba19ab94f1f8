// Which calls are to fail, and how many came and failed.
ghost use Rattle.std.specs.Prelude.{◌≡◌, ◌≤◌, ◌↔◌, IsTrue, OnOk, OnErr, IsErr, true, false};
ghost use Rattle.outside.specs.Memory.{FailsNext, counted};

use crate::Failed;
use std::marker::Model;

// A clause sees it as `Calls`.
#[derive(Drop)]
pub(crate) struct Plan {
    fail: Vec<u64>,
    came: u64,
    failed: u64,
}

impl Model for Plan {
    ghost use Rattle.outside.specs.Memory.{Calls};

    ghost Value = { Calls };

    ghost view = { λ p. record { fail = p.fail.items; came = p.came; failed = p.failed } };
}

impl Plan {
    pub(crate) fn new(fail: Vec<u64>) -> Plan
        ensures { result ≡ record { fail = fail.items; came = 0; failed = 0 } }
    {
        Plan {
            fail,
            came: 0,
            failed: 0,
        }
    }

    // Whether the next call is to fail.
    pub(crate) fn fails(&self) -> bool
        ensures { IsTrue result ↔ FailsNext self.now }
    {
        self.fail.contains(&self.came.saturating_add(1))
    }

    // Counts a call.
    pub(crate) fn count(&mut self, failed: bool)
        ensures counted { self.new ≡ counted failed self.old }
        ensures grows { self.old.failed ≤ self.new.failed }
    {
        self.came = self.came.saturating_add(1);
        if failed {
            self.failed = self.failed.saturating_add(1);
        }
    }

    // Counts a call, which fails where it is to fail.
    pub(crate) fn call(&mut self) -> Result<(), Failed>
        ensures planned { IsErr result ↔ FailsNext self.old }
        ensures passed { OnOk result (self.new ≡ counted false self.old) }
        ensures failed { OnErr result (self.new ≡ counted true self.old) }
        ensures grows { self.old.failed ≤ self.new.failed }
    {
        let fails = self.fails();
        self.count(fails);
        if fails { Err(Failed) } else { Ok(()) }
    }
}
