//! The words that answers begin with. Each is spelled here alone: the printer and the reader take it from here.

pub const ACTIVE: &[u8] = b"active";

pub const ALREADY: &[u8] = b"already";

pub const CONNECTED: &[u8] = b"connected";

pub const DEEP: &[u8] = b"deep";

pub const DID: &[u8] = b"did";

pub const ENDED: &[u8] = b"ended";

pub const FALSE: &[u8] = b"false";

pub const FAULT: &[u8] = b"fault";

pub const FINISHED: &[u8] = b"finished";

pub const ID: &[u8] = b"id";

pub const ISOLATION: &[u8] = b"isolation";

pub const MANY: &[u8] = b"many";

pub const NESTED: &[u8] = b"nested";

pub const NOT_A_LOG: &[u8] = b"notalog";

pub const NOT_BEGUN: &[u8] = b"notbegun";

pub const NO_SCOPE: &[u8] = b"noscope";

pub const NO_SUCH: &[u8] = b"nosuch";

pub const OK: &[u8] = b"ok";

pub const OPEN: &[u8] = b"open";

pub const OVER: &[u8] = b"over";

pub const STOPPED: &[u8] = b"stopped";

pub const TOO_LATE: &[u8] = b"toolate";

pub const TRUE: &[u8] = b"true";

pub const WAIT: &[u8] = b"wait";
