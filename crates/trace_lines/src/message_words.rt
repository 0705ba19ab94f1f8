//! The names of messages. Each is spelled here alone: the printer and the reader take it from here.

pub const ABORT: &[u8] = b"abort";

pub const ABORTED: &[u8] = b"aborted";

pub const ACK: &[u8] = b"ack";

pub const ASK: &[u8] = b"ask";

pub const BEGIN: &[u8] = b"begin";

pub const BEGUN: &[u8] = b"begun";

pub const COMMIT: &[u8] = b"commit";

pub const COMMITONE: &[u8] = b"commitone";

pub const COMMITTED: &[u8] = b"committed";

pub const CREATED: &[u8] = b"created";

pub const ENLIST: &[u8] = b"enlist";

pub const ENLISTED: &[u8] = b"enlisted";

pub const INDOUBT: &[u8] = b"indoubt";

pub const NO: &[u8] = b"no";

pub const ONEABORTED: &[u8] = b"oneaborted";

pub const ONECOMMITTED: &[u8] = b"onecommitted";

pub const ONEINDOUBT: &[u8] = b"oneindoubt";

pub const PREPARE: &[u8] = b"prepare";

pub const PREPARED: &[u8] = b"prepared";

pub const READONLY: &[u8] = b"readonly";

pub const REENLIST: &[u8] = b"reenlist";

pub const REFUSED: &[u8] = b"refused";

pub const SINGLE: &[u8] = b"single";

pub const VOTER: &[u8] = b"voter";

pub const YES: &[u8] = b"yes";
