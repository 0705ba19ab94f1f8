//! Which transactions the lines of a script make.
ghost use Rattle.std.specs.Prelude.{◌-◌, ◌≡◌, ◌||◌, false, slice_index_or};
ghost use Rattle.dtx_model.specs.Grammar.{OfTransaction, is_made, makes, same_name};
ghost use Rattle.dtx_model.specs.Words.{has};

use dtx_values::{Body, Line, Opening, TxNo};
use std::marker::Model;

/// So many transactions may be made.
const TRANSACTIONS: usize = TxNo::MAX as usize;

/// Which transactions the lines of a script make. Contracts see, of each transaction, at the place of its number, whether a line makes it.
#[derive(Drop)]
pub struct Made {
    table: [bool; TRANSACTIONS],
}

impl Model for Made {
    ghost use Rattle.std.specs.Prelude.{Bool, List};

    ghost Value = { List Bool };

    ghost view = { λ m. m.table };
}

impl Made {
    /// What these lines make, found in one pass.
    pub fn of(lines: &[Line]) -> Self
        ensures { (t : TxNo) → slice_index_or result (t.value - 1) false ≡ is_made lines.now (OfTransaction t.value) }
    {
        let mut made = Made {
            table: [false; TRANSACTIONS],
        };
        for line in lines {
            made.keep(line.body);
        }
        made
    }

    /// Keeps which transaction a command makes.
    fn keep(&mut self, body: Body)
        ensures { (t : TxNo) → slice_index_or self.new (t.value - 1) false ≡ (slice_index_or self.old (t.value - 1) false || has (λ m. same_name (OfTransaction t.value) m) (makes body)) }
    {
        if let Body::Begin(t, _)
        | Body::Open(_, Opening::Required(t, _, _) | Opening::RequiresNew(t, _, _)) = body
        {
            self.table[t.index()] = true;
        }
    }

    /// Whether a line makes this transaction.
    pub fn has(&self, t: TxNo) -> bool
        ensures { result ≡ slice_index_or self.now (t.value - 1) false }
    {
        self.table[t.index()]
    }
}
