//! Names: actors, transactions, enlistments, clones, scopes, managers and connections.
ghost use Rattle.std.specs.Prelude.{◌≡◌, ◌≤◌, ◌+◌, ◌∷◌, ◌++◌, ℕ, IfSome, Some, decimal, length, true};
ghost use Rattle.dtx_values.specs.declared.message.Conn.{Conn};
ghost use Rattle.dtx_values.specs.declared.number.ActorNo.{ActorNo};
ghost use Rattle.dtx_values.specs.declared.number.CloneNo.{CloneNo};
ghost use Rattle.dtx_values.specs.declared.number.EnlNo.{EnlNo};
ghost use Rattle.dtx_values.specs.declared.number.RmNo.{RmNo};
ghost use Rattle.dtx_values.specs.declared.number.ScopeNo.{ScopeNo};
ghost use Rattle.dtx_values.specs.declared.number.TxNo.{TxNo};
ghost use Rattle.dtx_model.specs.Grammar.{actor_name, clone_name, connection_word, enlistment_name, is_from, manager_name, scope_name, transaction_name};
ghost use Rattle.line_tail.specs.declared.tail.TheConstants.{LINE_ROOM, NUMBER_ROOM};
ghost use Rattle.line_words.specs.declared.widths.TheConstants.{NAME_ROOM};

use crate::numbers::number_from;
use dtx_values::{ActorNo, CloneNo, Conn, EnlNo, RmNo, ScopeNo, TxNo};
use line_tail::Tail;

/// The letter of an actor's name.
pub const ACTOR_LETTER: u8 = b'a';

/// The letter of a transaction's name.
pub const TRANSACTION_LETTER: u8 = b't';

/// The letter of an enlistment's name, and of its connection.
pub const ENLISTMENT_LETTER: u8 = b'e';

/// The letter of a clone's name.
pub const CLONE_LETTER: u8 = b'c';

/// The letter of a scope's name.
pub const SCOPE_LETTER: u8 = b's';

/// The letter of a manager's name.
pub const MANAGER_LETTER: u8 = b'r';

/// The letter of the connection of a reenlistment.
pub const REENLISTMENT_LETTER: u8 = b'x';

const BEGIN: &[u8] = b"b";

const VOTER: &[u8] = b"v";

/// Puts a word and a number.
#[inline(always)]
pub fn put_numbered(tail: &mut Tail, word: &[u8], n: u64)
    requires { length word.now + NUMBER_ROOM + length tail.old ≤ LINE_ROOM }
    ensures text { tail.new ≡ word.now ++ decimal n ++ tail.old }
    ensures length { length tail.new ≤ length word.now + NUMBER_ROOM + length tail.old }
{
    tail.put_number(n);
    tail.put(word);
}

/// The number of a name of this letter, from 1 to `most`.
fn name_of(word: &[u8], letter: u8, most: u32) -> Option<u32>
    ensures some { IfSome result (λ n. (word.now ≡ letter ∷ decimal n) × (is_from 1 most n ≡ true)) }
    ensures of { (n : ℕ) → is_from 1 most n ≡ true → word.now ≡ letter ∷ decimal n → result ≡ Some n }
{
    if word.is_empty() || word[0] != letter {
        return None;
    }
    number_from(&word[1..], 1, most)
}

/// The enlistment whose number comes after this letter.
fn enlisted(word: &[u8], letter: u8) -> Option<EnlNo>
    ensures some { IfSome result (λ e. word.now ≡ letter ∷ decimal e.value) }
    ensures of { (e : EnlNo) → word.now ≡ letter ∷ decimal e.value → result ≡ Some e }
{
    EnlNo::new(name_of(word, letter, EnlNo::MAX)?)
}

/// Puts the name of an actor.
#[inline(always)]
pub fn put_actor(tail: &mut Tail, a: ActorNo)
    requires { NAME_ROOM + length tail.old ≤ LINE_ROOM }
    ensures text { tail.new ≡ actor_name a.value ++ tail.old }
    ensures length { length tail.new ≤ NAME_ROOM + length tail.old }
{
    put_numbered(tail, &[ACTOR_LETTER], u64::from(a.get()));
}

/// Reads an actor's name.
pub fn actor_of(word: &[u8]) -> Option<ActorNo>
    ensures some { IfSome result (λ a. word.now ≡ actor_name a.value) }
    ensures of { (a : ActorNo) → word.now ≡ actor_name a.value → result ≡ Some a }
{
    ActorNo::new(name_of(word, ACTOR_LETTER, ActorNo::MAX)?)
}

/// Puts the name of a transaction.
#[inline(always)]
pub fn put_transaction(tail: &mut Tail, t: TxNo)
    requires { NAME_ROOM + length tail.old ≤ LINE_ROOM }
    ensures text { tail.new ≡ transaction_name t.value ++ tail.old }
    ensures length { length tail.new ≤ NAME_ROOM + length tail.old }
{
    put_numbered(tail, &[TRANSACTION_LETTER], u64::from(t.get()));
}

/// Reads a transaction's name.
pub fn transaction_of(word: &[u8]) -> Option<TxNo>
    ensures some { IfSome result (λ t. word.now ≡ transaction_name t.value) }
    ensures of { (t : TxNo) → word.now ≡ transaction_name t.value → result ≡ Some t }
{
    TxNo::new(name_of(word, TRANSACTION_LETTER, TxNo::MAX)?)
}

/// Puts the name of an enlistment.
#[inline(always)]
pub fn put_enlistment(tail: &mut Tail, e: EnlNo)
    requires { NAME_ROOM + length tail.old ≤ LINE_ROOM }
    ensures text { tail.new ≡ enlistment_name e.value ++ tail.old }
    ensures length { length tail.new ≤ NAME_ROOM + length tail.old }
{
    put_numbered(tail, &[ENLISTMENT_LETTER], u64::from(e.get()));
}

/// Reads an enlistment's name.
pub fn enlistment_of(word: &[u8]) -> Option<EnlNo>
    ensures some { IfSome result (λ e. word.now ≡ enlistment_name e.value) }
    ensures of { (e : EnlNo) → word.now ≡ enlistment_name e.value → result ≡ Some e }
{
    enlisted(word, ENLISTMENT_LETTER)
}

/// Puts the name of a clone.
#[inline(always)]
pub fn put_clone(tail: &mut Tail, c: CloneNo)
    requires { NAME_ROOM + length tail.old ≤ LINE_ROOM }
    ensures text { tail.new ≡ clone_name c.value ++ tail.old }
    ensures length { length tail.new ≤ NAME_ROOM + length tail.old }
{
    put_numbered(tail, &[CLONE_LETTER], u64::from(c.get()));
}

/// Reads a clone's name.
pub fn clone_of(word: &[u8]) -> Option<CloneNo>
    ensures some { IfSome result (λ c. word.now ≡ clone_name c.value) }
    ensures of { (c : CloneNo) → word.now ≡ clone_name c.value → result ≡ Some c }
{
    CloneNo::new(name_of(word, CLONE_LETTER, CloneNo::MAX)?)
}

/// Puts the name of a scope.
#[inline(always)]
pub fn put_scope(tail: &mut Tail, s: ScopeNo)
    requires { NAME_ROOM + length tail.old ≤ LINE_ROOM }
    ensures text { tail.new ≡ scope_name s.value ++ tail.old }
    ensures length { length tail.new ≤ NAME_ROOM + length tail.old }
{
    put_numbered(tail, &[SCOPE_LETTER], u64::from(s.get()));
}

/// Reads a scope's name.
pub fn scope_of(word: &[u8]) -> Option<ScopeNo>
    ensures some { IfSome result (λ s. word.now ≡ scope_name s.value) }
    ensures of { (s : ScopeNo) → word.now ≡ scope_name s.value → result ≡ Some s }
{
    ScopeNo::new(name_of(word, SCOPE_LETTER, ScopeNo::MAX)?)
}

/// Puts the name of a manager.
#[inline(always)]
pub fn put_manager(tail: &mut Tail, r: RmNo)
    requires { NAME_ROOM + length tail.old ≤ LINE_ROOM }
    ensures text { tail.new ≡ manager_name r.value ++ tail.old }
    ensures length { length tail.new ≤ NAME_ROOM + length tail.old }
{
    put_numbered(tail, &[MANAGER_LETTER], u64::from(r.get()));
}

/// Reads a manager's name.
pub fn manager_of(word: &[u8]) -> Option<RmNo>
    ensures some { IfSome result (λ r. word.now ≡ manager_name r.value) }
    ensures of { (r : RmNo) → word.now ≡ manager_name r.value → result ≡ Some r }
{
    RmNo::new(name_of(word, MANAGER_LETTER, RmNo::MAX)?)
}

/// Puts the word of a connection.
#[inline]
pub fn put_connection(tail: &mut Tail, c: Conn)
    requires { NAME_ROOM + length tail.old ≤ LINE_ROOM }
    ensures text { tail.new ≡ connection_word c ++ tail.old }
    ensures length { length tail.new ≤ NAME_ROOM + length tail.old }
{
    match c {
        Conn::Begin => tail.put(BEGIN),
        Conn::Voter => tail.put(VOTER),
        Conn::Enl(e) => put_enlistment(tail, e),
        Conn::Again(e) => put_numbered(tail, &[REENLISTMENT_LETTER], u64::from(e.get())),
    }
}

/// Reads a connection: `b`, `v`, that of an enlistment, or that of its reenlistment.
pub fn connection_of(word: &[u8]) -> Option<Conn>
    ensures some { IfSome result (λ c. word.now ≡ connection_word c) }
    ensures of { (c : Conn) → word.now ≡ connection_word c → result ≡ Some c }
{
    if word == BEGIN {
        return Some(Conn::Begin);
    }
    if word == VOTER {
        return Some(Conn::Voter);
    }
    if let Some(e) = enlistment_of(word) {
        return Some(Conn::Enl(e));
    }
    Some(Conn::Again(enlisted(word, REENLISTMENT_LETTER)?))
}
