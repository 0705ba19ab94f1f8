//! Numbers and places in few bytes.
ghost use Rattle.std.specs.Prelude.{◌≡◌, ◌≤◌};
ghost use Rattle.entry_lists.specs.Held.{place_of};

use dtx_values::{ActorNo, EnlNo, Place, TxNo};
use std::marker::Model;

/// An actor's number in a byte. Contracts see the number.
#[derive(Clone, Copy)]
pub struct ShortActorNo {
    value: u8,
    ghost in_range: { (1 ≤ value) × (value ≤ 16) },
}

impl Model for ShortActorNo {
    ghost use Rattle.dtx_values.specs.declared.number.ActorNo.{ActorNo};

    ghost Value = { ActorNo };

    ghost view = { λ a. record { value = a.value; in_range = a.in_range } };

    ghost inverse = { λ a. record { value = a.value; in_range = a.in_range } };
}

impl ShortActorNo {
    /// The number in a byte.
    #[inline(always)]
    pub fn of(a: ActorNo) -> Self
        ensures { result ≡ a }
    {
        ShortActorNo {
            value: a.get() as u8,
        }
    }

    /// The number.
    #[inline(always)]
    pub fn number(self) -> ActorNo
        ensures { result ≡ self }
    {
        ActorNo::new(self.value as u32).unwrap()
    }
}

/// An enlistment's number in two bytes. Contracts see the number.
#[derive(Clone, Copy)]
pub struct ShortEnlNo {
    value: u16,
    ghost in_range: { (1 ≤ value) × (value ≤ 9999) },
}

impl Model for ShortEnlNo {
    ghost use Rattle.dtx_values.specs.declared.number.EnlNo.{EnlNo};

    ghost Value = { EnlNo };

    ghost view = { λ e. record { value = e.value; in_range = e.in_range } };

    ghost inverse = { λ e. record { value = e.value; in_range = e.in_range } };
}

impl ShortEnlNo {
    /// The number in two bytes.
    #[inline(always)]
    pub fn of(e: EnlNo) -> Self
        ensures { result ≡ e }
    {
        ShortEnlNo {
            value: e.get() as u16,
        }
    }

    /// The number.
    #[inline(always)]
    pub fn number(self) -> EnlNo
        ensures { result ≡ self }
    {
        EnlNo::new(self.value as u32).unwrap()
    }
}

/// A transaction's number in two bytes. Contracts see the number.
#[derive(Clone, Copy)]
pub struct ShortTxNo {
    value: u16,
    ghost in_range: { (1 ≤ value) × (value ≤ 256) },
}

impl Model for ShortTxNo {
    ghost use Rattle.dtx_values.specs.declared.number.TxNo.{TxNo};

    ghost Value = { TxNo };

    ghost view = { λ t. record { value = t.value; in_range = t.in_range } };

    ghost inverse = { λ t. record { value = t.value; in_range = t.in_range } };
}

impl ShortTxNo {
    /// The number in two bytes.
    #[inline(always)]
    pub fn of(t: TxNo) -> Self
        ensures { result ≡ t }
    {
        ShortTxNo {
            value: t.get() as u16,
        }
    }

    /// The number.
    #[inline(always)]
    pub fn number(self) -> TxNo
        ensures { result ≡ self }
    {
        TxNo::new(self.value as u32).unwrap()
    }
}

/// A place in four bytes.
#[derive(Clone, Copy)]
pub enum ShortPlace {
    Context(ShortActorNo),
    Transaction(ShortTxNo),
    Log,
}

/// The place in four bytes.
#[inline(always)]
pub fn short_place(place: Place) -> ShortPlace
    ensures { place_of result ≡ place }
{
    match place {
        Place::Context(actor) => ShortPlace::Context(ShortActorNo::of(actor)),
        Place::Transaction(t) => ShortPlace::Transaction(ShortTxNo::of(t)),
        Place::Log => ShortPlace::Log,
    }
}

/// The place.
#[inline(always)]
pub fn place_of(place: ShortPlace) -> Place
    ensures { result ≡ place_of place }
{
    match place {
        ShortPlace::Context(actor) => Place::Context(actor.number()),
        ShortPlace::Transaction(t) => Place::Transaction(t.number()),
        ShortPlace::Log => Place::Log,
    }
}
