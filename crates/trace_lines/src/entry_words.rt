//! The words that entries begin with. Each is spelled here alone: the printer and the reader take it from here.

pub const ACKED: &[u8] = b"acked";

pub const ANSWER: &[u8] = b"answer";

pub const ARMED: &[u8] = b"armed";

pub const ASK: &[u8] = b"ask";

pub const BEGAN: &[u8] = b"began";

pub const CALL: &[u8] = b"call";

pub const CLOCK: &[u8] = b"clock";

pub const CLONED: &[u8] = b"cloned";

pub const CLOSED: &[u8] = b"closed";

pub const COMMIT: &[u8] = b"commit";

pub const COMPLETED: &[u8] = b"completed";

pub const CUT: &[u8] = b"cut";

pub const DECIDED: &[u8] = b"decided";

pub const DOWN: &[u8] = b"down";

pub const ENLISTED: &[u8] = b"enlisted";

pub const FINISHED: &[u8] = b"finished";

pub const FREED: &[u8] = b"freed";

pub const GOT: &[u8] = b"got";

pub const HAND: &[u8] = b"hand";

pub const INIT: &[u8] = b"init";

pub const LATE: &[u8] = b"late";

pub const LOGGED: &[u8] = b"logged";

pub const LOG_FULL: &[u8] = b"logfull";

pub const LOST: &[u8] = b"lost";

pub const OPENED: &[u8] = b"opened";

pub const OWNER: &[u8] = b"owner";

pub const PROMOTE: &[u8] = b"promote";

pub const PROMOTED: &[u8] = b"promoted";

pub const PROMOTING: &[u8] = b"promoting";

pub const PROMOTION_FAILED: &[u8] = b"promotionfailed";

pub const RECOVERED: &[u8] = b"recovered";

pub const REENLISTED: &[u8] = b"reenlisted";

pub const REQUEST: &[u8] = b"request";

pub const RESTARTED: &[u8] = b"restarted";

pub const ROLLBACK: &[u8] = b"rollback";

pub const SEALED: &[u8] = b"sealed";

pub const SENT: &[u8] = b"sent";

pub const STOPPED: &[u8] = b"stopped";

pub const TIMED_OUT: &[u8] = b"timedout";

pub const TOLD: &[u8] = b"told";

pub const VOTE: &[u8] = b"vote";

pub const YES: &[u8] = b"yes";
