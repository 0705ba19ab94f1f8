//! Where the lanes and the rows of a picture are, in pixels.
ghost use Rattle.std.specs.Prelude.{◌≡◌, ◌+◌, ◌≤◌, length};
ghost use Rattle.dtx_model.specs.Words.{past_of};
ghost use Rattle.trace_page.specs.Geometry.{client_place, enlistment_place, spread, width, x_of, y_of};

use dtx_values::{ActorNo, EnlNo};
use trace_picture::{Lane, Lanes};

/// How far apart lanes are.
const LANE: u64 = 118;

/// How far apart rows are.
const ROW: u64 = 20;

/// The i-th of what stands so far apart, where the first is at this place.
pub(crate) fn spread(apart: u64, i: usize, first: u64) -> u64
    ensures { result ≡ spread apart i first }
{
    (i as u64).wrapping_mul(apart).wrapping_add(first)
}

/// How many clients stand to the left of this one.
#[tactic(auto, using(crate::proofs::Before::before))]
fn client_place(clients: &[ActorNo], a: ActorNo) -> usize
    ensures { result ≡ client_place a.value (past_of clients.now) }
{
    let mut place = 0;
    for (i, b) in clients.iter().enumerate() {
        if a == *b {
            place = i;
        }
    }
    place
}

/// How many enlistments stand to the left of this one.
#[tactic(auto, using(crate::proofs::Before::before))]
fn enlistment_place(enlistments: &[EnlNo], e: EnlNo) -> usize
    ensures place { result ≡ enlistment_place e.value (past_of enlistments.now) }
    ensures within { result ≤ length enlistments.now }
{
    let mut place = 0;
    for (i, f) in enlistments.iter().enumerate() {
        if e == *f {
            place = i;
        }
    }
    place
}

/// How many lanes stand to the left of the local side.
#[tactic(auto, using(trace_picture::proofs::Places::places))]
fn width(l: &Lanes) -> usize
    ensures { result ≡ width l.now }
{
    l.clients.len() + l.enlistments.len()
}

/// How many lanes stand to the left of an enlistment's.
#[tactic(auto, using(trace_picture::proofs::Places::places))]
fn lanes_before(l: &Lanes, e: EnlNo) -> usize
    ensures { result ≡ length l.now.clients + enlistment_place e.value l.now.enlistments }
{
    l.clients.len() + enlistment_place(&l.enlistments, e)
}

/// The place of a lane.
pub(crate) fn x_of(l: &Lanes, lane: Lane) -> u64
    ensures { result ≡ x_of l.now lane }
{
    match lane {
        Lane::Client(a) => spread(LANE, client_place(&l.clients, a), 130),
        Lane::Enlistment(e) => spread(LANE, lanes_before(l, e), 130),
        Lane::Local => spread(LANE, width(l), 232),
        Lane::Between => spread(LANE, width(l), 342),
        Lane::Coordinator => spread(LANE, width(l), 452),
        Lane::Log => spread(LANE, width(l), 570),
    }
}

/// The place after all lanes, at which a picture ends.
pub(crate) fn end_of(l: &Lanes, first: u64) -> u64
    ensures { result ≡ spread 118 (width l.now) first }
{
    spread(LANE, width(l), first)
}

/// The place of a row.
pub(crate) fn y_of(row: usize) -> u64
    ensures { result ≡ y_of row }
{
    spread(ROW, row, 72)
}
