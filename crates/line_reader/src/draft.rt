//! The lines that are read so far.
ghost use Rattle.std.specs.Prelude.{◌≡◌, ◌++◌, [], ◌∷◌, IfOk, OnOk, None, not, length, replicate};
ghost use Rattle.dtx_model.specs.Words.{each, has, past_of};
ghost use Rattle.dtx_model.specs.Grammar.{is_made, makes, uses, opening_makes, connection_uses, is_made_lasting, is_made_lasting_of, is_connection_of, is_of_kind, is_par, OfTransaction, OfEnlistment, OfClone, OfScope};
ghost use Rattle.dtx_model.specs.Faults.{name_fault};

use dtx_values::{BadCause, Body, CloneNo, Conn, EnlNo, Line, Opening, ScopeNo, Script, TxNo};
use std::alloc::{AllocError, Global};
use std::marker::Model;

/// The bytes of the shortest line of a script, `a1 par` and LF.
const SHORTEST_LINE: usize = 7;

/// Lines, with tables of the names that they make, each indexed by the name's place among all. Contracts see the lines.
#[derive(Drop)]
pub struct Draft {
    lines: Vec<Line>,
    /// Whether a line makes this transaction; likewise of the next three.
    transactions: Vec<bool>,
    enlistments: Vec<bool>,
    clones: Vec<bool>,
    scopes: Vec<bool>,
    /// The transaction of the enlistment, where it is a durable or promotable one.
    owners: Vec<Option<TxNo>>,
    par: bool,
}

/// A table in which no enlistment is a durable or promotable one.
fn no_owners(alloc: Global) -> Result<Vec<Option<TxNo>>, AllocError>
    ensures { IfOk result (λ v. v.items ≡ replicate EnlNo.MAX None) }
{
    let mut owners = Vec::with_capacity(alloc, EnlNo::MAX as usize)?;
    for _slot in 0..EnlNo::MAX {
        owners.push_reserved(None);
    }
    Ok(owners)
}

impl Model for Draft {
    ghost use Rattle.std.specs.Prelude.{List};
    ghost use Rattle.dtx_values.specs.declared.script.Line.{Line};
    ghost use Rattle.dtx_model.specs.Words.{past_of};
    ghost use Rattle.line_reader.specs.Reader.{AreMade};

    ghost Value = { List Line };

    ghost view = { λ d. d.lines.items };

    ghost invariant = { λ d. AreMade (past_of d.lines.items) d.transactions.items d.enlistments.items d.clones.items d.scopes.items d.owners.items d.par };
}

impl Draft {
    /// No line, with room for as many as a script of so many bytes has at most: memory that is never written costs nothing, and what grows is copied.
    pub fn for_bytes(alloc: Global, bytes: usize) -> Result<Self, AllocError>
        ensures { IfOk result (λ d. d ≡ []) }
    {
        Ok(Draft {
            lines: Vec::with_capacity(alloc, bytes / SHORTEST_LINE)?,
            transactions: vec![in alloc; false; TxNo::MAX as usize]?,
            enlistments: vec![in alloc; false; EnlNo::MAX as usize]?,
            clones: vec![in alloc; false; CloneNo::MAX as usize]?,
            scopes: vec![in alloc; false; ScopeNo::MAX as usize]?,
            owners: no_owners(alloc)?,
            par: false,
        })
    }

    /// How many lines there are.
    pub fn len(&self) -> usize
        ensures { result ≡ length self.now }
    {
        self.lines.len()
    }

    /// Whether a line makes this transaction.
    fn has_transaction(&self, t: TxNo) -> bool
        ensures { result ≡ is_made (past_of self.now) (OfTransaction t.value) }
    {
        self.transactions[t.index()]
    }

    /// Whether a line makes this enlistment.
    fn has_enlistment(&self, e: EnlNo) -> bool
        ensures { result ≡ is_made (past_of self.now) (OfEnlistment e.value) }
    {
        self.enlistments[e.index()]
    }

    /// Whether a line makes this clone.
    fn has_clone(&self, c: CloneNo) -> bool
        ensures { result ≡ is_made (past_of self.now) (OfClone c.value) }
    {
        self.clones[c.index()]
    }

    /// Whether a line makes this scope.
    fn has_scope(&self, s: ScopeNo) -> bool
        ensures { result ≡ is_made (past_of self.now) (OfScope s.value) }
    {
        self.scopes[s.index()]
    }

    /// Whether the enlistment is a durable or promotable one.
    fn is_made_lasting(&self, e: EnlNo) -> bool
        ensures { result ≡ is_made_lasting (past_of self.now) e.value }
    {
        self.owners[e.index()].is_some()
    }

    /// Whether it is a durable or promotable one of this transaction.
    fn is_made_lasting_of(&self, t: TxNo, e: EnlNo) -> bool
        ensures { result ≡ is_made_lasting_of (past_of self.now) t.value e.value }
    {
        self.owners[e.index()] == Some(t)
    }

    /// Whether a line is `par`.
    fn has_par(&self) -> bool
        ensures { result ≡ has (λ l. is_par l.body) (past_of self.now) }
    {
        self.par
    }

    /// Whether the opening's transaction wasn't made.
    fn opens_new(&self, o: Opening) -> bool
        ensures { result ≡ each (λ n. not (is_made (past_of self.now) n)) (opening_makes o) }
    {
        match o {
            Opening::Required(t, _, _) | Opening::RequiresNew(t, _, _) => !self.has_transaction(t),
            Opening::Suppress => true,
        }
    }

    /// Whether the names that the command makes weren't made.
    fn makes_new(&self, body: &Body) -> bool
        ensures { result ≡ each (λ n. not (is_made (past_of self.now) n)) (makes body.now) }
    {
        match *body {
            Body::Begin(t, _) => !self.has_transaction(t),
            Body::Open(s, o) => !self.has_scope(s) && self.opens_new(o),
            Body::Volatile(_, e, _, _)
            | Body::Durable(_, e, _, _)
            | Body::Promotable(_, e, _, _, _, _) => !self.has_enlistment(e),
            Body::Clone(_, c, _) => !self.has_clone(c),
            _ => true,
        }
    }

    /// Whether the connection's enlistment was made.
    fn connects_known(&self, c: Conn) -> bool
        ensures { result ≡ each (λ n. is_made (past_of self.now) n) (connection_uses c) }
    {
        match c {
            Conn::Enl(e) | Conn::Again(e) => self.has_enlistment(e),
            _ => true,
        }
    }

    /// Whether the names that the command uses were made.
    fn uses_known(&self, body: &Body) -> bool
        ensures { result ≡ each (λ n. is_made (past_of self.now) n) (uses body.now) }
    {
        match *body {
            Body::Finish(s) | Body::Close(s) => self.has_scope(s),
            Body::Complete(c) => self.has_clone(c),
            Body::Gone(e) | Body::Reenlist(e) => self.has_enlistment(e),
            Body::Lose(t, c, _, _) => self.has_transaction(t) && self.connects_known(c),
            Body::Volatile(t, _, _, _)
            | Body::Durable(t, _, _, _)
            | Body::Promotable(t, _, _, _, _, _)
            | Body::Clone(t, _, _)
            | Body::Commit(t)
            | Body::Rollback(t)
            | Body::Marshal(t)
            | Body::Status(t)
            | Body::Await(t)
            | Body::Tick(t, _)
            | Body::Do(t, _, _)
            | Body::Recovered(t, _) => self.has_transaction(t),
            _ => true,
        }
    }

    /// Whether the connection's enlistment is a durable or promotable one of this transaction.
    fn is_connection_of(&self, t: TxNo, c: Conn) -> bool
        ensures { result ≡ is_connection_of (past_of self.now) t.value c }
    {
        match c {
            Conn::Enl(e) | Conn::Again(e) => self.is_made_lasting_of(t, e),
            _ => true,
        }
    }

    /// Whether each enlistment that the command names is of the kind that it asks for.
    fn is_of_kind(&self, body: &Body) -> bool
        ensures { result ≡ is_of_kind (past_of self.now) body.now }
    {
        match *body {
            Body::Gone(e) | Body::Reenlist(e) => self.is_made_lasting(e),
            Body::Lose(t, c, _, _) => self.is_connection_of(t, c),
            _ => true,
        }
    }

    /// The first fault of a line's names after these lines.
    pub fn fault(&self, line: &Line) -> Option<BadCause>
        ensures { result ≡ name_fault (past_of self.now) line.now }
    {
        if !self.makes_new(&line.body) {
            return Some(BadCause::NameTwice);
        }
        if !self.uses_known(&line.body) {
            return Some(BadCause::NameUnknown);
        }
        if !self.is_of_kind(&line.body) {
            return Some(BadCause::WrongKind);
        }
        if line.body == Body::Par && self.has_par() {
            return Some(BadCause::ParTwice);
        }
        None
    }

    /// Adds a line at the end, whose names have no fault.
    pub fn push(&mut self, line: Line) -> Result<(), AllocError>
        requires { name_fault (past_of self.old) line ≡ None }
        ensures { OnOk result (self.new ≡ self.old ++ line ∷ []) }
    {
        self.lines.push(line)?;
        match line.body {
            Body::Begin(t, _) => self.transactions[t.index()] = true,
            Body::Open(s, o) => {
                self.scopes[s.index()] = true;
                match o {
                    Opening::Required(t, _, _) | Opening::RequiresNew(t, _, _) => {
                        self.transactions[t.index()] = true;
                    }
                    Opening::Suppress => {}
                }
            }
            Body::Volatile(_, e, _, _) => self.enlistments[e.index()] = true,
            Body::Durable(t, e, _, _) | Body::Promotable(t, e, _, _, _, _) => {
                let place = e.index();
                self.enlistments[place] = true;
                self.owners[place] = Some(t);
            }
            Body::Clone(_, c, _) => self.clones[c.index()] = true,
            Body::Par => self.par = true,
            _ => {}
        }
        Ok(())
    }

    /// The script of these lines.
    pub fn into_script(self) -> Script
        ensures { result ≡ self }
    {
        Script::new(self.lines)
    }
}
