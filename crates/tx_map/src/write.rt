//! What a map holds.
ghost use Rattle.std.specs.Prelude.{◌≡◌};
ghost use Rattle.tx_map.specs.Live.{is_of};

use dtx_values::{EnlNo, Numbered, TxNo};

/// A key of the base, and its value.
#[derive(Clone, Copy, PartialEq, Eq, Debug)]
pub struct MapEntry {
    pub key: u32,
    pub value: u64,
}

/// A write of a pair that has heard neither Commit nor Rollback since.
#[derive(Clone, Copy, PartialEq, Eq, Debug)]
pub struct LiveWrite {
    pub transaction: TxNo,
    pub enlistment: EnlNo,
    pub key: u32,
    /// The key's new value; `None` removes the key.
    pub value: Option<u64>,
    /// Whether the pair heard Prepare since, and so voted yes.
    pub voted: bool,
}

impl LiveWrite {
    /// Whether it is a write of the pair.
    pub fn is_of(&self, t: TxNo, e: EnlNo) -> bool
        ensures { result ≡ is_of (t, e) self.now }
    {
        self.transaction == t && self.enlistment == e
    }
}

impl Numbered for MapEntry {
    ghost use Rattle.tx_map.specs.Live.{entry_key};

    ghost key = { entry_key };

    fn number(&self) -> u32 {
        self.key
    }
}

impl Numbered for LiveWrite {
    ghost use Rattle.tx_map.specs.Live.{write_key};

    ghost key = { write_key };

    fn number(&self) -> u32 {
        self.key
    }
}
