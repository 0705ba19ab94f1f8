//! The words that only scripts have: the first word of each command, the options of a scope, and what a durable enlistment supports.

pub const BEGIN: &[u8] = b"begin";

pub const OPEN: &[u8] = b"open";

pub const FINISH: &[u8] = b"finish";

pub const CLOSE: &[u8] = b"close";

pub const CURRENT: &[u8] = b"current";

pub const VOLATILE: &[u8] = b"volatile";

pub const DURABLE: &[u8] = b"durable";

pub const PROMOTABLE: &[u8] = b"promotable";

pub const CLONE: &[u8] = b"clone";

pub const COMPLETE: &[u8] = b"complete";

pub const COMMIT: &[u8] = b"commit";

pub const ROLLBACK: &[u8] = b"rollback";

pub const MARSHAL: &[u8] = b"marshal";

pub const STATUS: &[u8] = b"status";

pub const AWAIT: &[u8] = b"await";

pub const TICK: &[u8] = b"tick";

pub const DO: &[u8] = b"do";

pub const LOSE: &[u8] = b"lose";

pub const GONE: &[u8] = b"gone";

pub const REENLIST: &[u8] = b"reenlist";

pub const RECOVERED: &[u8] = b"recovered";

pub const STOP: &[u8] = b"stop";

pub const RESTART: &[u8] = b"restart";

pub const PAR: &[u8] = b"par";

pub const REQUIRED: &[u8] = b"required";

pub const REQUIRES_NEW: &[u8] = b"requiresnew";

pub const SUPPRESS: &[u8] = b"suppress";

pub const SINGLE_PHASE: &[u8] = b"single";

pub const TWO_PHASE: &[u8] = b"two";
