//! The lanes of a transaction's picture.
ghost use Rattle.std.specs.Prelude.{◌≡◌, ◌==◌, [], IfOk, OnOk, Some};
ghost use Rattle.dtx_model.specs.Words.{has, past_of};
ghost use Rattle.trace_picture.specs.Lanes.{client_in, enlistment_in, lanes, with_client, with_enlistment, with_lanes};

use dtx_values::{ActorNo, EnlNo, Entry, Party};
use std::alloc::{AllocError, Global};
use std::marker::Model;

/// A line from the top of the picture to its foot, between which the arrows run.
#[derive(Clone, Copy, PartialEq, Eq)]
pub enum Lane {
    Client(ActorNo),
    Enlistment(EnlNo),
    /// The local side of the transaction.
    Local,
    Coordinator,
    Log,
    /// Half-way between the local side and the coordinator.
    Between,
}

/// A place in the picture: a lane, and a row from 0.
#[derive(Clone, Copy, PartialEq, Eq)]
pub struct Spot {
    pub lane: Lane,
    pub row: usize,
}

/// The clients and the enlistments that have lanes, in the order in which the history names them. A clause sees both newest first.
#[derive(Drop)]
pub struct Lanes {
    pub clients: Vec<ActorNo>,
    pub enlistments: Vec<EnlNo>,
}

impl Model for Lanes {
    ghost use Rattle.dtx_model.specs.Words.{past_of};
    ghost use Rattle.trace_picture.specs.Lanes.{LaneList};

    ghost Value = { LaneList };

    ghost view = { λ m. record { clients = past_of m.clients.items; enlistments = past_of m.enlistments.items } };
}

/// Who called.
fn client_in(x: &Entry) -> Option<ActorNo>
    ensures { result ≡ client_in x.now }
{
    match *x {
        Entry::Called(_, a, _) => Some(a),
        _ => None,
    }
}

/// The enlistment that the entry is of.
fn enlistment_in(x: &Entry) -> Option<EnlNo>
    ensures { result ≡ enlistment_in x.now }
{
    match *x {
        Entry::Enlisted(e, _)
        | Entry::Init(e)
        | Entry::Asked(e, _)
        | Entry::Voted(e, _)
        | Entry::PromoteReply(e, _)
        | Entry::Requested(e, _)
        | Entry::Handed(e)
        | Entry::OwnerAnswered(e, _)
        | Entry::Told(Party::Enl(e), _)
        | Entry::Acked(e) => Some(e),
        _ => None,
    }
}

/// Whether a client has a lane.
fn has_client(clients: &[ActorNo], a: ActorNo) -> bool
    ensures { result ≡ has (λ b. a.value == b.value) clients.now }
{
    clients.iter().any(|b| a == *b)
}

/// Whether an enlistment has a lane.
fn has_enlistment(enlistments: &[EnlNo], e: EnlNo) -> bool
    ensures { result ≡ has (λ f. e.value == f.value) enlistments.now }
{
    enlistments.iter().any(|f| e == *f)
}

/// The same, of those newest first.
#[tactic(auto, using(dtx_model::proofs::Reading::reading))]
fn knows_client(clients: &[ActorNo], a: ActorNo) -> bool
    ensures { result ≡ has (λ b. a.value == b.value) (past_of clients.now) }
{
    has_client(clients, a)
}

/// The same, of those newest first.
#[tactic(auto, using(dtx_model::proofs::Reading::reading))]
fn knows_enlistment(enlistments: &[EnlNo], e: EnlNo) -> bool
    ensures { result ≡ has (λ f. e.value == f.value) (past_of enlistments.now) }
{
    has_enlistment(enlistments, e)
}

/// Adds a client, unless it is there.
fn add_client(clients: &mut Vec<ActorNo>, a: ActorNo) -> Result<(), AllocError>
    ensures { OnOk result (past_of clients.new.items ≡ with_client (Some a) (past_of clients.old.items)) }
{
    if knows_client(clients, a) {
        return Ok(());
    }
    clients.push(a)?;
    Ok(())
}

/// Adds an enlistment, unless it is there.
fn add_enlistment(enlistments: &mut Vec<EnlNo>, e: EnlNo) -> Result<(), AllocError>
    ensures { OnOk result (past_of enlistments.new.items ≡ with_enlistment (Some e) (past_of enlistments.old.items)) }
{
    if knows_enlistment(enlistments, e) {
        return Ok(());
    }
    enlistments.push(e)?;
    Ok(())
}

/// Adds a client, where there is one.
fn add_if_client(clients: &mut Vec<ActorNo>, a: Option<ActorNo>) -> Result<(), AllocError>
    ensures { OnOk result (past_of clients.new.items ≡ with_client a (past_of clients.old.items)) }
{
    match a {
        Some(a) => add_client(clients, a),
        None => Ok(()),
    }
}

/// Adds an enlistment, where there is one.
fn add_if_enlistment(enlistments: &mut Vec<EnlNo>, e: Option<EnlNo>) -> Result<(), AllocError>
    ensures { OnOk result (past_of enlistments.new.items ≡ with_enlistment e (past_of enlistments.old.items)) }
{
    match e {
        Some(e) => add_enlistment(enlistments, e),
        None => Ok(()),
    }
}

impl Lanes {
    /// No lane.
    fn new(alloc: Global) -> Lanes
        ensures { result ≡ record { clients = []; enlistments = [] } }
    {
        Lanes {
            clients: Vec::new(alloc),
            enlistments: Vec::new(alloc),
        }
    }

    /// Adds the lanes that an entry needs.
    fn add(&mut self, x: &Entry) -> Result<(), AllocError>
        ensures { OnOk result (self.new ≡ with_lanes x.now self.old) }
    {
        add_if_client(&mut self.clients, client_in(x))?;
        add_if_enlistment(&mut self.enlistments, enlistment_in(x))?;
        Ok(())
    }
}

/// The clients and the enlistments of these rows.
///
/// # Errors
///
/// [`AllocError`] where memory ran out.
pub fn lanes_of(alloc: Global, h: &[Entry]) -> Result<Lanes, AllocError>
    ensures lanes { IfOk result (λ l. l ≡ lanes (past_of h.now)) }
{
    let mut found = Lanes::new(alloc);
    for x in h {
        found.add(x)?;
    }
    Ok(found)
}
