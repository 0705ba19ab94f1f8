//! The cells of a run: the lock and the board of each transaction.
ghost use Rattle.std.specs.Prelude.{◌≡◌, ◌==◌, [], IfOk, IsSome, MatchOption, None, Some, is_some, length, map, true};
ghost use Rattle.dtx_model.specs.Grammar.{OfTransaction, is_made};
ghost use Rattle.dtx_model.specs.Caused.{calls_in};
ghost use Rattle.dtx_model.specs.Plans.{manager_of};
ghost use Rattle.dtx_model.specs.Words.{past_of};
ghost use Rattle.once_cell.specs.Once.{Agrees, cell_name};
ghost use Rattle.script_calls.specs.Prefix.{IsPrefix};
ghost use Rattle.script_calls.specs.RowsOf.{rows_of};
ghost use Rattle.tx_cells.specs.Board.{Post, board_of, transactions_of};
ghost use Rattle.tx_cells.specs.Cell.{IsThreadable};
ghost use Rattle.tx_cells.specs.Entering.{may_promote_at};

use crate::board::{BoardNote, Posted};
use crate::cell::CellState;
use crate::making::Made;
use crate::places::places_of;
use crate::promoting::promoting_of;
use crate::run::Run;
use dtx_values::{Call, EnlNo, Line, RmNo, Script, TxNo};
use once_cell::race::OnceBox;
use script_calls::{Plans, Rows, managers_of, transaction_rows};
use std::alloc::{AllocError, Global};
use std::marker::Model;
use std::sync::Mutex;

/// The lock of a transaction, and its board cell.
///
/// A clause sees it as a `Named`: the transaction, and the name of its board cell. What the lock has at some moment no clause says: it is a `CellState`, and so it is what its
/// type keeps.
#[derive(Drop)]
pub struct TxCell<N: Run> {
    t: TxNo,
    lock: Mutex<CellState<N>>,
    board: OnceBox<Posted<N>>,
}

impl<N: Run> Model for TxCell<N> {
    ghost use Rattle.once_cell.specs.Once.{cell_name};
    ghost use Rattle.tx_cells.specs.Board.{Named};

    ghost Value = { Named };

    ghost view = { λ c. record { transaction = c.t; board = cell_name c.board } };
}

impl<N: Run> TxCell<N> {
    /// The cell of this transaction, to which nothing came yet, with the calls of each actor there. Its board is empty.
    fn new(alloc: Global, t: TxNo, rows: Rows<Call>) -> Result<Self, AllocError>
        requires script { IsThreadable N.script }
        requires named { is_made N.script (OfTransaction t.value) ≡ true }
        requires rows { IsPrefix N.script t.value rows [] }
        ensures { IfOk result (λ c. c.transaction ≡ t) }
    {
        let Ok(state) = CellState::new(alloc, t, rows) else {
            return Err(AllocError);
        };
        Ok(TxCell {
            t,
            lock: Mutex::new(state),
            board: OnceBox::new(alloc),
        })
    }

    /// The lock.
    pub fn state(&self) -> &Mutex<CellState<N>> {
        &self.lock
    }

    /// The transaction.
    pub fn t(&self) -> TxNo
        ensures { result ≡ self.now.transaction }
    {
        self.t
    }

    /// A note of the board that knows nothing.
    pub fn note(&self) -> BoardNote<N>
        ensures { result ≡ record { cell = self.now.board; known = None } }
    {
        BoardNote {
            note: self.board.note(),
        }
    }

    /// What is on the board, without the lock: no call of another thread makes it wait, and it takes no memory.
    ///
    /// To a note that knows nothing `None` is the answer of one look. A note that knows a value is answered that value, always.
    pub fn peek<'a>(&'a self, note: &mut BoardNote<N>) -> Option<&'a Posted<N>>
        requires { note.old.cell ≡ self.now.board }
        ensures cell { note.new.cell ≡ note.old.cell }
        ensures value { MatchOption result ((note.old.known ≡ None) × (note.new.known ≡ None)) (λ r. (note.new.known ≡ Some r.now) × Agrees note.old.known r.now) }
    {
        self.board.get_as(&mut note.note)
    }

    /// Puts this on the board, unless a value is there. Either way the note knows the value that is there.
    pub fn post(&self, posted: Box<Posted<N>>, note: &mut BoardNote<N>)
        requires { note.old.cell ≡ self.now.board }
        ensures cell { note.new.cell ≡ note.old.cell }
        ensures known { (x : Post) × (note.new.known ≡ Some x) × Agrees note.old.known x }
    {
        let _ = self.board.set_as(posted, &mut note.note);
    }
}

/// The cells of the transactions of a run, which its threads share.
///
/// A clause sees them as a list of `Named`: each transaction, by number, with the name of its board cell.
#[derive(Drop)]
pub struct Cells<N: Run> {
    cells: Vec<TxCell<N>>,
    /// Of each transaction, at the place of its number, where its cell is.
    places: Vec<Option<usize>>,
    /// The manager of each enlistment of the script, at the place of its number.
    managers: Vec<Option<RmNo>>,
    /// Of each line of the script, in order, whether it may begin a promotion.
    promoting: Vec<bool>,
}

impl<N: Run> Model for Cells<N> {
    ghost use Rattle.std.specs.Prelude.{◌≡◌, List, length, map};
    ghost use Rattle.tx_cells.specs.Board.{Named};
    ghost use Rattle.tx_cells.specs.Places.{AreFound};
    ghost use Rattle.dtx_values.specs.declared.number.TheConstants.EnlNo.{MAX};
    ghost use Rattle.script_calls.specs.Managers.{AreManagers};
    ghost use Rattle.tx_cells.specs.Entering.{is_promoting_line};

    ghost Value = { List Named };

    ghost view = { λ c. c.cells.items };

    ghost invariant = { λ c. AreFound c.cells.items c.places.items × (length c.managers.items ≡ MAX) × AreManagers N.script N.script c.managers.items × (c.promoting.items ≡ map (λ l. is_promoting_line l.body) N.script) };
}

impl<N: Run> Cells<N> {
    /// A cell for each transaction that the script names, by number. Nothing came to any yet, and the boards are empty.
    ///
    /// # Errors
    ///
    /// Where memory ran out.
    pub fn new(alloc: Global, s: &Script) -> Result<Self, AllocError>
        requires named { s.now ≡ N.script }
        requires script { IsThreadable s.now }
        ensures { IfOk result (λ c. map (λ x. x.transaction.value) c ≡ transactions_of s.now) }
    {
        let plans = Plans::new(alloc, s.lines())?;
        let all = transaction_rows(alloc, &plans)?;
        let cells = cells_of(alloc, s.lines(), all)?;
        Ok(Cells {
            places: places_of(alloc, cells.as_slice())?,
            cells,
            managers: managers_of(alloc, s.lines())?,
            promoting: promoting_of(alloc, s.lines())?,
        })
    }

    /// The cells, by number of their transactions.
    pub fn all(&self) -> &[TxCell<N>]
        ensures { result.now ≡ self.now }
    {
        self.cells.as_slice()
    }

    /// The cell of this transaction; `None` where it isn't one of the run. It is found at once, however many there are.
    pub fn get(&self, t: TxNo) -> Option<&TxCell<N>>
        ensures { MatchOption result (board_of self.now t.value ≡ None) (λ c. (board_of self.now t.value ≡ Some c.now.board) × (c.now.transaction.value ≡ t.value)) }
    {
        let place = self.places[t.index()]?;
        Some(&self.cells[place])
    }

    /// Whether it is a transaction of the run.
    pub fn has(&self, t: TxNo) -> bool
        ensures { result ≡ is_some (board_of self.now t.value) }
    {
        self.get(t).is_some()
    }

    /// The cell of a transaction of the run.
    pub fn cell(&self, t: TxNo) -> &TxCell<N>
        requires { IsSome (board_of self.now t.value) }
        ensures board { board_of self.now t.value ≡ Some result.now.board }
        ensures transaction { result.now.transaction.value ≡ t.value }
    {
        match self.get(t) {
            Some(cell) => cell,
            None => unreachable!(),
        }
    }

    /// The manager at which the script enlists; `None` for a volatile, and where no line makes the enlistment.
    pub fn manager(&self, e: EnlNo) -> Option<RmNo>
        ensures { result ≡ manager_of (calls_in N.script (past_of N.script)) e.value }
    {
        self.managers[e.index()]
    }

    /// Whether this line of the script needs the log, as it may begin a promotion: it is a durable or a marshal. No lock is taken.
    pub fn needs_log(&self, line: u32) -> bool
        ensures { result ≡ may_promote_at N.script line }
    {
        if line == 0 {
            return false;
        }
        let place = line as usize - 1;
        self.promoting.get(place).copied().unwrap_or(false)
    }

    /// A note of the board of a transaction of the run. It knows nothing yet.
    pub fn note_of(&self, t: TxNo) -> BoardNote<N>
        requires { IsSome (board_of self.now t.value) }
        ensures cell { board_of self.now t.value ≡ Some result.cell }
        ensures none { result.known ≡ None }
    {
        self.cell(t).note()
    }

    /// What the locks have, by number of the cells' transactions.
    ///
    /// # Errors
    ///
    /// Where memory ran out. The cells are dropped then.
    pub fn into_states(self, alloc: Global) -> Result<Vec<CellState<N>>, AllocError>
        ensures { IfOk result (λ v. length v.items ≡ length self) }
    {
        let Cells {
            cells,
            places: _,
            managers: _,
            promoting: _,
        } = self;
        let mut states = Vec::with_capacity(alloc, cells.len())?;
        for cell in cells {
            let TxCell {
                t: _,
                lock,
                board: _,
            } = cell;
            states.push(lock.into_inner())?;
        }
        Ok(states)
    }
}

/// What is on the board of a transaction of the run, without a lock: no call of another thread makes it wait, and it takes no memory.
///
/// To a note that knows nothing `None` is the answer of one look. A note that knows a value is answered that value, always.
pub fn peek_outcome<'a, N: Run>(
    cells: &'a Cells<N>,
    t: TxNo,
    note: &mut BoardNote<N>,
) -> Option<&'a Posted<N>>
    requires { board_of cells.now t.value ≡ Some note.old.cell }
    ensures cell { note.new.cell ≡ note.old.cell }
    ensures value { MatchOption result ((note.old.known ≡ None) × (note.new.known ≡ None)) (λ r. (note.new.known ≡ Some r.now) × Agrees note.old.known r.now) }
{
    cells.cell(t).peek(note)
}

/// A cell for each transaction that the script names, by number, where these are the rows of all transactions, and no call was entered.
#[tactic(auto, unfolding(crate::specs::Board::transactions_of))]
fn cells_of<N: Run>(
    alloc: Global,
    s: &[Line],
    all: Vec<Rows<Call>>,
) -> Result<Vec<TxCell<N>>, AllocError>
    requires named { s.now ≡ N.script }
    requires script { IsThreadable N.script }
    requires many { length all.items ≡ TxNo.MAX }
    requires rows { (t : TxNo) → IsPrefix N.script t.value (rows_of t all.items) [] }
    ensures { IfOk result (λ v. map (λ x. x.transaction.value) v.items ≡ transactions_of s.now) }
{
    let made = Made::of(s);
    // Room for all: a cell is large, and what grows is copied.
    let mut cells = Vec::with_capacity(alloc, all.len())?;
    let mut n = 0;
    for rows in all {
        n += 1;
        let t = TxNo::new(n).unwrap();
        if made.has(t) {
            cells.push(TxCell::new(alloc, t, rows)?)?;
        }
    }
    Ok(cells)
}
