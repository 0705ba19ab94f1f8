//! The lanes of a picture as they are drawn.
ghost use Rattle.std.specs.Prelude.{◌≡◌, ◌++◌, OnOk};
ghost use Rattle.dtx_model.specs.Words.{latest, or_else, past_of};
ghost use Rattle.trace_page.specs.Columns.{box_kind, class_said, clients_text, enlistments_text, far_text, lane_text, lanes_text, title};
ghost use Rattle.trace_picture.specs.Lanes.{class_in, class_of};

use crate::geometry::x_of;
use crate::pieces::{Point, push_box, push_line, push_words_at, push_words_end};
use dtx_values::{ActorNo, Class, EnlNo, Entry};
use line_tail::Tail;
use line_words::{put_actor, put_enlistment};
use std::alloc::AllocError;
use trace_picture::{Lane, Lanes};

/// The class that the entry gives the enlistment, else the older one.
fn newer_class(e: EnlNo, x: &Entry, older: Option<Class>) -> Option<Class>
    ensures { result ≡ or_else (class_in e.value x.now) older }
{
    match *x {
        Entry::Enlisted(f, c) => { if e == f { Some(c) } else { older } }
        _ => older,
    }
}

/// The newest class of an enlistment.
fn class_of(e: EnlNo, h: &[Entry]) -> Option<Class>
    ensures { result ≡ class_of e.value (past_of h.now) }
{
    let mut newest = None;
    for x in h {
        newest = newer_class(e, x, newest);
    }
    newest
}

/// The class of an enlistment, after its name.
fn class_said(c: Option<Class>) -> &'static [u8]
    ensures { result.now ≡ class_said c }
{
    match c {
        None => b"",
        Some(Class::Zero) => b" zero",
        Some(Class::One) => b" one",
        Some(Class::DurableTwo) => b" two",
        Some(Class::DurableSingle) => b" single",
        Some(Class::Promotable) => b" promotable",
    }
}

/// Appends a client's name.
fn push_client(text: &mut Vec<u8>, h: &[Entry], a: ActorNo) -> Result<(), AllocError>
    ensures { OnOk result (text.new.items ≡ text.old.items ++ title (past_of h.now) (Lane.Client a)) }
{
    let mut tail = Tail::new();
    put_actor(&mut tail, a);
    text.extend_from_slice(tail.as_slice())
}

/// Appends an enlistment's name, and its class.
fn push_enlistment(text: &mut Vec<u8>, h: &[Entry], e: EnlNo) -> Result<(), AllocError>
    ensures { OnOk result (text.new.items ≡ text.old.items ++ title (past_of h.now) (Lane.Enlistment e)) }
{
    let mut tail = Tail::new();
    tail.put(class_said(class_of(e, h)));
    put_enlistment(&mut tail, e);
    text.extend_from_slice(tail.as_slice())
}

/// Appends the title of a lane.
fn push_title(text: &mut Vec<u8>, h: &[Entry], lane: Lane) -> Result<(), AllocError>
    ensures { OnOk result (text.new.items ≡ text.old.items ++ title (past_of h.now) lane) }
{
    match lane {
        Lane::Client(a) => push_client(text, h, a),
        Lane::Enlistment(e) => push_enlistment(text, h, e),
        Lane::Local => text.extend_from_slice(b"local side"),
        Lane::Coordinator => text.extend_from_slice(b"coordinator"),
        Lane::Log => text.extend_from_slice(b"log"),
        Lane::Between => Ok(()),
    }
}

/// The style of the box of a lane.
fn box_kind(lane: Lane) -> &'static [u8]
    ensures { result.now ≡ box_kind lane }
{
    match lane {
        Lane::Client(_) => b"box client",
        Lane::Enlistment(_) => b"box enlistment",
        _ => b"box side",
    }
}

/// Appends a lane down to this place, with its title.
#[tactic(auto, unfolding(crate::specs::Columns::lane_text))]
fn push_lane(
    text: &mut Vec<u8>,
    l: &Lanes,
    h: &[Entry],
    foot: u64,
    lane: Lane,
) -> Result<(), AllocError>
    ensures { OnOk result (text.new.items ≡ text.old.items ++ lane_text l.now (past_of h.now) foot lane) }
{
    let x = x_of(l, lane);
    push_line(text, b"lane", Point { x, y: 34 }, Point { x, y: foot })?;
    push_box(text, box_kind(lane), x)?;
    push_words_at(text, b"title", Point { x, y: 25 })?;
    push_title(text, h, lane)?;
    push_words_end(text)
}

/// Appends the lanes of the clients.
fn push_clients(text: &mut Vec<u8>, l: &Lanes, h: &[Entry], foot: u64) -> Result<(), AllocError>
    ensures { OnOk result (text.new.items ≡ text.old.items ++ clients_text l.now (past_of h.now) foot l.now.clients) }
{
    let clients: &[ActorNo] = &l.clients;
    for a in clients {
        push_lane(text, l, h, foot, Lane::Client(*a))?;
    }
    Ok(())
}

/// Appends the lanes of the enlistments.
fn push_enlistments(text: &mut Vec<u8>, l: &Lanes, h: &[Entry], foot: u64) -> Result<(), AllocError>
    ensures { OnOk result (text.new.items ≡ text.old.items ++ enlistments_text l.now (past_of h.now) foot l.now.enlistments) }
{
    let enlistments: &[EnlNo] = &l.enlistments;
    for e in enlistments {
        push_lane(text, l, h, foot, Lane::Enlistment(*e))?;
    }
    Ok(())
}

/// Appends the lanes of the coordinator and of the log, where it was promoting.
fn push_far(
    text: &mut Vec<u8>,
    l: &Lanes,
    h: &[Entry],
    foot: u64,
    far: bool,
) -> Result<(), AllocError>
    ensures { OnOk result (text.new.items ≡ text.old.items ++ far_text l.now (past_of h.now) foot far) }
{
    if far {
        push_lane(text, l, h, foot, Lane::Coordinator)?;
        push_lane(text, l, h, foot, Lane::Log)?;
    }
    Ok(())
}

/// Appends the lanes of a picture down to this place.
#[tactic(auto, unfolding(crate::specs::Columns::lanes_text))]
pub(crate) fn push_lanes(
    text: &mut Vec<u8>,
    l: &Lanes,
    h: &[Entry],
    foot: u64,
    far: bool,
) -> Result<(), AllocError>
    ensures { OnOk result (text.new.items ≡ text.old.items ++ lanes_text l.now (past_of h.now) foot far) }
{
    push_clients(text, l, h, foot)?;
    push_enlistments(text, l, h, foot)?;
    push_lane(text, l, h, foot, Lane::Local)?;
    push_far(text, l, h, foot, far)
}
