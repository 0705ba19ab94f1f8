//! The answers that cross to C.
ghost use Rattle.std.specs.Prelude.{◌≡◌};
ghost use Rattle.wirtozhak_c.specs.Codes.{code_of, host_code, refusal_code};

use dtx_values::Answer;
use host_manager::HostError;
use transactions::TxError;

/// It is done.
pub const OK: i32 = 0;

/// Nothing is pending.
pub const NOTHING: i32 = 1;

/// First what is asked of the disk is to be done.
pub const DISK: i32 = 2;

/// The handle isn't open.
pub const CLOSED: i32 = -1;

/// Memory ran out.
pub const MEMORY: i32 = -2;

/// No such number.
pub const NO_SUCH: i32 = -5;

/// No such reply is due, or no write of this length is to be done.
pub const UNASKED: i32 = -6;

/// No such word.
pub const UNKNOWN: i32 = -9;

/// The handle is open already.
pub const OPEN: i32 = -10;

/// The code of a call that the transaction refused with this answer: -20, less its place among the answers, from 0; but that of no such number has its own.
fn refusal_code(a: Answer) -> i32
    ensures { result ≡ refusal_code a }
{
    match a {
        Answer::Fine => -20,
        Answer::True => -21,
        Answer::False => -22,
        Answer::Wait => -23,
        Answer::Id(_) => -24,
        Answer::StillActive => -25,
        Answer::OutcomeIs(_) => -26,
        Answer::StillOpen => -27,
        Answer::Did(_) => -28,
        Answer::NotBegun => -29,
        Answer::Ended(_) => -30,
        Answer::TooLate => -31,
        Answer::Many(_) => -32,
        Answer::NoSuch => NO_SUCH,
        Answer::Already => -34,
        Answer::Finished => -35,
        Answer::Over(_) => -36,
        Answer::Connected(_) => -37,
        Answer::Stopped => -38,
        Answer::Deep => -39,
        Answer::Isolation(_, _) => -40,
        Answer::NoScope => -41,
        Answer::Nested(_) => -42,
        Answer::Ambient(_) => -43,
        Answer::Fault => -44,
        Answer::NotALog(_) => -45,
    }
}

/// The code of a manager's error.
pub fn code_of(e: TxError) -> i32
    ensures { result ≡ code_of e }
{
    match e {
        TxError::Refused(a) => refusal_code(a),
        TxError::Waits => -23,
        TxError::Many => -4,
        TxError::NoEpoch => -4,
        TxError::LogFull => -8,
        TxError::LogStopped => -11,
        TxError::Memory => MEMORY,
    }
}

/// The code of an error.
pub fn host_code(e: HostError) -> i32
    ensures { result ≡ host_code e }
{
    match e {
        HostError::Disk => DISK,
        HostError::NotALog => -3,
        HostError::Unasked => UNASKED,
        HostError::Live => -7,
        HostError::Call(e) => code_of(e),
    }
}
