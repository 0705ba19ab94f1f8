//! Whom the outcome is told to.
ghost use Rattle.std.specs.Prelude.{◌≡◌, ◌==◌, ◌&&◌, map, vec_capacity};
ghost use Rattle.std.specs.List.{list_any};
ghost use Rattle.dtx_model.specs.Observed.{come_back, hear, lose};

use dtx_model::Listener;
use dtx_values::EnlNo;

/// Marks that the enlistment was told.
fn hear(l: &mut Listener, e: EnlNo)
    ensures { l.new ≡ hear e.value l.old }
{
    if l.enlistment == e {
        l.told = true;
    }
}

/// Marks that the enlistment was told.
fn tell_all(listeners: &mut [Listener], e: EnlNo)
    ensures { listeners.new ≡ map (hear e.value) listeners.old }
{
    for l in listeners.iter_mut() {
        hear(l, e);
    }
}

/// Marks that the enlistment was told.
pub fn tell(listeners: &mut Vec<Listener>, e: EnlNo)
    ensures items { listeners.new.items ≡ map (hear e.value) listeners.old.items }
    ensures capacity { vec_capacity listeners.new ≡ vec_capacity listeners.old }
{
    tell_all(listeners.as_mut_slice(), e);
}

/// Marks that the enlistment is lost.
fn lose_one(l: &mut Listener, e: EnlNo)
    ensures { l.new ≡ lose e.value l.old }
{
    if l.enlistment == e {
        l.lost = true;
    }
}

/// Marks that the enlistment is lost.
fn lose_all(listeners: &mut [Listener], e: EnlNo)
    ensures { listeners.new ≡ map (lose e.value) listeners.old }
{
    for l in listeners.iter_mut() {
        lose_one(l, e);
    }
}

/// Marks that the enlistment is lost.
pub fn lose(listeners: &mut Vec<Listener>, e: EnlNo)
    ensures items { listeners.new.items ≡ map (lose e.value) listeners.old.items }
    ensures capacity { vec_capacity listeners.new ≡ vec_capacity listeners.old }
{
    lose_all(listeners.as_mut_slice(), e);
}

/// Marks that the enlistment came back.
fn regain_one(l: &mut Listener, e: EnlNo)
    ensures { l.new ≡ come_back e.value l.old }
{
    if l.enlistment == e {
        l.lost = false;
    }
}

/// Marks that the enlistment came back.
fn regain_all(listeners: &mut [Listener], e: EnlNo)
    ensures { listeners.new ≡ map (come_back e.value) listeners.old }
{
    for l in listeners.iter_mut() {
        regain_one(l, e);
    }
}

/// Marks that the enlistment came back.
pub fn regain(listeners: &mut Vec<Listener>, e: EnlNo)
    ensures items { listeners.new.items ≡ map (come_back e.value) listeners.old.items }
    ensures capacity { vec_capacity listeners.new ≡ vec_capacity listeners.old }
{
    regain_all(listeners.as_mut_slice(), e);
}

/// Whether the enlistment is lost.
pub fn is_gone(listeners: &[Listener], e: EnlNo) -> bool
    ensures { result ≡ list_any (λ l. (e.value == l.enlistment.value) && l.lost) listeners.now }
{
    listeners.iter().any(|l| l.enlistment == e && l.lost)
}

/// Whether the enlistment was told the outcome.
pub fn was_told(listeners: &[Listener], e: EnlNo) -> bool
    ensures { result ≡ list_any (λ l. (e.value == l.enlistment.value) && l.told) listeners.now }
{
    listeners.iter().any(|l| l.enlistment == e && l.told)
}
