//! Who may own the commit: the only durable or promotable.
ghost use Rattle.std.specs.Prelude.{◌≡◌, List, ◌∷◌, ◌||◌};
ghost use Rattle.dtx_model.specs.Outcome.{can_own};

use dtx_values::{Class, Entry};

/// The durables and promotables that were enlisted, by number.
#[derive(Clone, Copy, PartialEq, Eq, Debug)]
pub enum Lasting {
    Nobody,
    /// This one alone, however often it was enlisted.
    One(u32),
    Several,
}

impl Lasting {
    ghost use Rattle.trace_checker.specs.Owner.{named_with};

    /// With one more that was enlisted.
    fn with(self, n: u32) -> Lasting
        ensures { result ≡ named_with n self }
    {
        match self {
            Lasting::Nobody => Lasting::One(n),
            Lasting::One(m) if m == n => self,
            _ => Lasting::Several,
        }
    }
}

/// Whether an enlistment of this class can own the commit.
fn can_own(c: Class) -> bool
    ensures { result ≡ can_own c }
{
    matches!(c, Class::DurableSingle | Class::Promotable)
}

/// Who may own the commit.
#[derive(Clone, Copy, PartialEq, Eq, Debug)]
pub struct Owner {
    pub lasting: Lasting,
    /// Some durable or promotable was enlisted in a class that can own the commit.
    pub able: bool,
}

impl Owner {
    ghost use Rattle.trace_checker.specs.Owner.{IsOwnerOf, named_with};
    ghost use Rattle.dtx_values.specs.declared.entry.Entry.{Entry};

    /// Nobody was enlisted.
    pub const NOBODY: Owner = Owner {
        lasting: Lasting::Nobody,
        able: false,
    };

    /// Notes a durable or promotable of this number, and whether its class can own the commit.
    fn add(&mut self, n: u32, able: bool)
        ensures lasting { self.new.lasting ≡ named_with n self.old.lasting }
        ensures able { self.new.able ≡ (able || self.old.able) }
    {
        self.lasting = self.lasting.with(n);
        self.able |= able;
    }

    /// Notes the entry.
    #[inline(always)]
    pub fn follow(&mut self, x: &Entry)
        ensures { (h : List Entry) → IsOwnerOf h self.old → IsOwnerOf (x.now ∷ h) self.new }
    {
        if let Entry::Enlisted(e, c) = *x {
            if !c.is_volatile() {
                self.add(e.get(), can_own(c));
            }
        }
    }
}
