//! The law of pieces: no answer tells how the bytes are cut.
ghost use Rattle.std.specs.Prelude.{◌≡◌, true};
ghost use Rattle.oletx_session.specs.Traffic.{Traffic};
ghost use Rattle.oletx_session.specs.declared.law.Answer.{Answer};
ghost use Rattle.oletx_session.specs.declared.law.Call.{Call};
ghost use Rattle.oletx_session.specs.Alike.{AreAlike, Does, HasRoom, is_sound};

use crate::refusal::SessionRefusal;
use crate::session::{Delivered, Session};
use dtx_values::{Conn, Dir, Message};

/// A call on a session.
#[derive(Clone, Copy, PartialEq, Eq, Debug)]
pub enum Call {
    Start(Conn),
    StartLost(Conn),
    Send(Conn, Dir, Message),
    Deliver(Conn, Dir),
    HasLeft(Conn, Dir),
    IsOpen(Conn),
    Lose(Conn, u32, u32),
    Stop,
}

/// What a call answers.
#[derive(Clone, Copy, PartialEq, Eq, Debug)]
pub enum Answer {
    /// To `start`, `start_lost` and `send`.
    Done(Result<(), SessionRefusal>),
    /// To `deliver`.
    Came(Option<Delivered>),
    /// To `has_left` and `is_open`.
    Is(bool),
    /// To `lose`.
    Kept(Option<(u32, u32)>),
    /// To `stop`, which answers nothing.
    Stopped,
}

/// Does a call on a session, and gives its answer. A message that is sent has to be valid.
pub fn perform(session: &mut Session, call: Call) -> Answer
    requires { is_sound call ≡ true }
    ensures { Does call session.old result session.new }
{
    match call {
        Call::Start(c) => Answer::Done(session.start(c)),
        Call::StartLost(c) => Answer::Done(session.start_lost(c)),
        Call::Send(c, d, m) => Answer::Done(session.send(c, d, &m)),
        Call::Deliver(c, d) => Answer::Came(session.deliver(c, d)),
        Call::HasLeft(c, d) => Answer::Is(session.has_left(c, d)),
        Call::IsOpen(c) => Answer::Is(session.is_open(c)),
        Call::Lose(c, up, down) => {
            // What is on the way in both directions are frames, of which the first are kept.
            let _ = (session.has_left(c, Dir::Up), session.has_left(c, Dir::Down));
            Answer::Kept(session.lose(c, up, down))
        }
        Call::Stop => {
            session.stop();
            Answer::Stopped
        }
    }
}

/// The same call on two sessions, whatever their pieces are, gives the same answer and leaves each connection the same in both, where each stands the same in both and
/// both have room. A law: the body is empty, and who calls this has the law in its proof.
pub fn same_answers(a: &Session, b: &Session)
    ensures { (call : Call) (r s : Answer) (after also : Traffic) → AreAlike a.now.wires b.now.wires → HasRoom a.now → HasRoom b.now → Does call a.now r after → Does call b.now s also
        → (r ≡ s) × AreAlike after.wires also.wires }
{}
