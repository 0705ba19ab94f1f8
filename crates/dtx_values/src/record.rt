//! A record of the coordinator's log, and what two kept values may differ in.
ghost use Rattle.std.specs.Prelude.{◌≡◌, ◌≤◌, ◌<◌, ◌+◌, ◌++◌, ◌∷◌, [], take, true};
ghost use Rattle.dtx_values.specs.Record.{is_blank_from};

use crate::number::{EnlNo, RmNo, TxNo};

/// A record: the transaction's identifier, and the enlistments that are to hear the commit, by number.
#[derive(Clone, Copy, PartialEq, Eq, Debug)]
pub struct LogRecord {
    pub id: u128,
    pub count: u8,
    pub durables: [(RmNo, EnlNo); 16],
    pub ghost few: { count ≤ 16 },
    pub ghost rest_is_blank: { is_blank_from count durables ≡ true },
}

/// Two kept values that differ.
#[derive(Clone, Copy, PartialEq, Eq, Debug)]
pub enum Differs {
    /// The transaction wanted, and the one found in its cell.
    Cell(TxNo, TxNo),
    /// The record that a transaction keeps as logged, and the one that the log has.
    Log(TxNo, Option<LogRecord>, Option<LogRecord>),
}

impl LogRecord {
    /// A record without enlistments.
    pub fn new(id: u128) -> LogRecord
        ensures id { result.id ≡ id }
        ensures none { result.count ≡ 0 }
    {
        let rm = RmNo::new(1).unwrap();
        let enl = EnlNo::new(1).unwrap();
        LogRecord {
            id,
            count: 0,
            durables: [(rm, enl); 16],
        }
    }

    /// Puts an enlistment behind the others.
    pub fn add(&mut self, rm: RmNo, enl: EnlNo)
        requires { self.old.count < 16 }
        ensures id { self.new.id ≡ self.old.id }
        ensures count { self.new.count ≡ self.old.count + 1 }
        ensures pairs { take self.new.count self.new.durables ≡ take self.old.count self.old.durables ++ (rm, enl) ∷ [] }
    {
        self.durables[self.count as usize] = (rm, enl);
        self.count += 1;
    }

    /// The enlistments in order.
    pub fn pairs(&self) -> &[(RmNo, EnlNo)]
        ensures { result.now ≡ take self.now.count self.now.durables }
    {
        &self.durables[..self.count as usize]
    }
}
