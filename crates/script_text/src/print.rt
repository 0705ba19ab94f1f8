//! Prints scripts: each line has one text. A line is made from its end to its start.
ghost use Rattle.std.specs.Prelude.{◌≡◌, ◌≤◌, ◌+◌, ◌*◌, [], ◌∷◌, ◌++◌, IfOk, codes, length, true};
ghost use Rattle.std.specs.List.{join_with_byte};
ghost use Rattle.dtx_values.specs.declared.script.Body.TheVariants.{Begin, Open, Volatile, Durable, Promotable, Clone, Tick, Do, Lose, Recovered, Stop};
ghost use Rattle.line_tail.specs.declared.tail.TheConstants.{LINE_ROOM};
ghost use Rattle.line_words.specs.declared.widths.TheConstants.{NAME_ROOM, WORD_ROOM};
ghost use Rattle.script_text.specs.declared.print.TheConstants.{COMMAND_ROOM};
ghost use Rattle.script_text.specs.Print.{is_simple};
ghost use Rattle.dtx_model.specs.Grammar.{IsScript, Reads, asked_iso_word, command_words, enlistment_name, line_text, manager_name, scope_name, script_text, timeout_word, transaction_name};

use dtx_values::{
    Body, CloneKind, CloneNo, Conn, EnlNo, EnlistOption, Image, IsoWord, Line, Opening, Outcome,
    RmNo, ScopeNo, Script, Support, Timeout, TxNo, Vote,
};
use line_reader::verbs::{
    AWAIT, BEGIN, CLONE, CLOSE, COMMIT, COMPLETE, CURRENT, DO, DURABLE, FINISH, GONE, LOSE,
    MARSHAL, OPEN, PAR, PROMOTABLE, RECOVERED, REENLIST, REQUIRED, REQUIRES_NEW, RESTART, ROLLBACK,
    SINGLE_PHASE, STATUS, STOP, SUPPRESS, TICK, TWO_PHASE, VOLATILE,
};
use line_tail::Tail;
use line_words::{
    put_actor, put_asked_isolation, put_clone, put_connection, put_enlistment, put_image, put_kind,
    put_manager, put_option, put_owner_plan, put_promotion_plan, put_scope, put_timeout,
    put_transaction, put_vote_plan,
};
use std::alloc::{AllocError, Global};

/// The bytes that are set aside for each line of a script: a little more than the mean.
const MEAN_LINE: usize = 32;

/// Room for the longest command.
const COMMAND_ROOM: usize = 127;

/// Puts a word and a space.
#[inline(always)]
fn put_word(tail: &mut Tail, word: &[u8])
    requires { length word.now + 1 + length tail.old ≤ LINE_ROOM }
    ensures text { tail.new ≡ word.now ++ 32 ∷ tail.old }
    ensures length { length tail.new ≡ length word.now + 1 + length tail.old }
{
    tail.put(b" ");
    tail.put(word);
}

/// Puts a word, a space and a transaction.
fn put_of(tail: &mut Tail, word: &[u8], t: TxNo)
    requires { length word.now + 1 + NAME_ROOM + length tail.old ≤ LINE_ROOM }
    ensures text { tail.new ≡ word.now ++ 32 ∷ transaction_name t.value ++ tail.old }
    ensures length { length tail.new ≤ length word.now + 1 + NAME_ROOM + length tail.old }
{
    put_transaction(tail, t);
    put_word(tail, word);
}

/// Puts the words of a begin.
fn put_begin(tail: &mut Tail, t: TxNo, d: Timeout)
    requires { COMMAND_ROOM + length tail.old ≤ LINE_ROOM }
    ensures text { tail.new ≡ join_with_byte 32 (command_words (Begin t d)) ++ tail.old }
    ensures length { length tail.new ≤ COMMAND_ROOM + length tail.old }
{
    put_timeout(tail, d);
    tail.put(b" ");
    put_of(tail, BEGIN, t);
}

/// Puts the words of a scope that may make a transaction; `word` is that of its option.
fn put_opened(tail: &mut Tail, s: ScopeNo, word: &[u8], t: TxNo, d: Timeout, i: IsoWord)
    requires short { length word.now ≤ WORD_ROOM }
    requires room { COMMAND_ROOM + length tail.old ≤ LINE_ROOM }
    ensures text { tail.new ≡ join_with_byte 32 (codes "open" ∷ scope_name s.value ∷ word.now ∷ transaction_name t.value ∷ timeout_word d ∷ asked_iso_word i ∷ []) ++ tail.old }
    ensures length { length tail.new ≤ COMMAND_ROOM + length tail.old }
{
    put_asked_isolation(tail, i);
    tail.put(b" ");
    put_timeout(tail, d);
    tail.put(b" ");
    put_transaction(tail, t);
    tail.put(b" ");
    tail.put(word);
    tail.put(b" ");
    put_scope(tail, s);
    put_word(tail, OPEN);
}

/// Puts the words that open a scope.
fn put_open(tail: &mut Tail, s: ScopeNo, o: Opening)
    requires { COMMAND_ROOM + length tail.old ≤ LINE_ROOM }
    ensures text { tail.new ≡ join_with_byte 32 (command_words (Open s o)) ++ tail.old }
    ensures length { length tail.new ≤ COMMAND_ROOM + length tail.old }
{
    match o {
        Opening::Required(t, d, i) => put_opened(tail, s, REQUIRED, t, d, i),
        Opening::RequiresNew(t, d, i) => put_opened(tail, s, REQUIRES_NEW, t, d, i),
        Opening::Suppress => {
            tail.put(SUPPRESS);
            tail.put(b" ");
            put_scope(tail, s);
            put_word(tail, OPEN);
        }
    }
}

/// Puts the words of a volatile enlistment.
fn put_volatile(tail: &mut Tail, t: TxNo, e: EnlNo, o: EnlistOption, v: Option<Vote>)
    requires { COMMAND_ROOM + length tail.old ≤ LINE_ROOM }
    ensures text { tail.new ≡ join_with_byte 32 (command_words (Volatile t e o v)) ++ tail.old }
    ensures length { length tail.new ≤ COMMAND_ROOM + length tail.old }
{
    put_vote_plan(tail, v);
    tail.put(b" ");
    put_option(tail, o);
    tail.put(b" ");
    put_enlistment(tail, e);
    tail.put(b" ");
    put_of(tail, VOLATILE, t);
}

/// Puts the words of a durable or promotable enlistment up to its manager; `word` is that of its command.
fn put_lasting(tail: &mut Tail, word: &[u8], t: TxNo, e: EnlNo, r: RmNo)
    requires { length word.now + 3 + 3 * NAME_ROOM + length tail.old ≤ LINE_ROOM }
    ensures text { tail.new ≡ word.now ++ 32 ∷ transaction_name t.value ++ 32 ∷ enlistment_name e.value ++ 32 ∷ manager_name r.value ++ tail.old }
    ensures length { length tail.new ≤ length word.now + 3 + 3 * NAME_ROOM + length tail.old }
{
    put_manager(tail, r);
    tail.put(b" ");
    put_enlistment(tail, e);
    tail.put(b" ");
    put_of(tail, word, t);
}

/// Puts the words of a durable enlistment.
fn put_durable(tail: &mut Tail, t: TxNo, e: EnlNo, r: RmNo, s: Support)
    requires { COMMAND_ROOM + length tail.old ≤ LINE_ROOM }
    ensures text { tail.new ≡ join_with_byte 32 (command_words (Durable t e r s)) ++ tail.old }
    ensures length { length tail.new ≤ COMMAND_ROOM + length tail.old }
{
    match s {
        Support::SinglePhase(v, o) => {
            put_owner_plan(tail, o);
            tail.put(b" ");
            put_vote_plan(tail, v);
            put_word(tail, SINGLE_PHASE);
            tail.put(b" ");
        }
        Support::TwoPhase(v) => {
            put_vote_plan(tail, v);
            put_word(tail, TWO_PHASE);
            tail.put(b" ");
        }
    }
    put_lasting(tail, DURABLE, t, e, r);
}

/// Puts the words of a promotable enlistment.
fn put_promotable(
    tail: &mut Tail,
    t: TxNo,
    e: EnlNo,
    r: RmNo,
    v: Option<Vote>,
    o: Option<Outcome>,
    p: Option<bool>,
)
    requires { COMMAND_ROOM + length tail.old ≤ LINE_ROOM }
    ensures text { tail.new ≡ join_with_byte 32 (command_words (Promotable t e r v o p)) ++ tail.old }
    ensures length { length tail.new ≤ COMMAND_ROOM + length tail.old }
{
    put_promotion_plan(tail, p);
    tail.put(b" ");
    put_owner_plan(tail, o);
    tail.put(b" ");
    put_vote_plan(tail, v);
    tail.put(b" ");
    put_lasting(tail, PROMOTABLE, t, e, r);
}

/// Puts the words that make a clone.
fn put_clone_made(tail: &mut Tail, t: TxNo, c: CloneNo, k: CloneKind)
    requires { COMMAND_ROOM + length tail.old ≤ LINE_ROOM }
    ensures text { tail.new ≡ join_with_byte 32 (command_words (Clone t c k)) ++ tail.old }
    ensures length { length tail.new ≤ COMMAND_ROOM + length tail.old }
{
    put_kind(tail, k);
    tail.put(b" ");
    put_clone(tail, c);
    tail.put(b" ");
    put_of(tail, CLONE, t);
}

/// Puts the words of a tick.
fn put_tick(tail: &mut Tail, t: TxNo, n: u32)
    requires { COMMAND_ROOM + length tail.old ≤ LINE_ROOM }
    ensures text { tail.new ≡ join_with_byte 32 (command_words (Tick t n)) ++ tail.old }
    ensures length { length tail.new ≤ COMMAND_ROOM + length tail.old }
{
    tail.put_number(u64::from(n));
    tail.put(b" ");
    put_of(tail, TICK, t);
}

/// Puts the words that do a pending step: which, and how often.
fn put_do(tail: &mut Tail, t: TxNo, k: u8, n: u16)
    requires { COMMAND_ROOM + length tail.old ≤ LINE_ROOM }
    ensures text { tail.new ≡ join_with_byte 32 (command_words (Do t k n)) ++ tail.old }
    ensures length { length tail.new ≤ COMMAND_ROOM + length tail.old }
{
    tail.put_number(u64::from(n));
    tail.put(b" ");
    tail.put_number(u64::from(k));
    tail.put(b" ");
    put_of(tail, DO, t);
}

/// Puts the words that lose a connection, and how many messages are kept upward and downward.
fn put_lose(tail: &mut Tail, t: TxNo, c: Conn, up: u16, down: u16)
    requires { COMMAND_ROOM + length tail.old ≤ LINE_ROOM }
    ensures text { tail.new ≡ join_with_byte 32 (command_words (Lose t c up down)) ++ tail.old }
    ensures length { length tail.new ≤ COMMAND_ROOM + length tail.old }
{
    tail.put_number(u64::from(down));
    tail.put(b" ");
    tail.put_number(u64::from(up));
    tail.put(b" ");
    put_connection(tail, c);
    tail.put(b" ");
    put_of(tail, LOSE, t);
}

/// Puts the words that say that a manager has recovered.
fn put_recovered(tail: &mut Tail, t: TxNo, r: RmNo)
    requires { COMMAND_ROOM + length tail.old ≤ LINE_ROOM }
    ensures text { tail.new ≡ join_with_byte 32 (command_words (Recovered t r)) ++ tail.old }
    ensures length { length tail.new ≤ COMMAND_ROOM + length tail.old }
{
    put_manager(tail, r);
    tail.put(b" ");
    put_of(tail, RECOVERED, t);
}

/// Puts the words of a stop.
fn put_stop(tail: &mut Tail, n: u8, i: Image)
    requires { COMMAND_ROOM + length tail.old ≤ LINE_ROOM }
    ensures text { tail.new ≡ join_with_byte 32 (command_words (Stop n i)) ++ tail.old }
    ensures length { length tail.new ≤ COMMAND_ROOM + length tail.old }
{
    put_image(tail, i);
    tail.put(b" ");
    tail.put_number(u64::from(n));
    put_word(tail, STOP);
}

/// Puts a command that names a scope, a clone or an enlistment alone, or nothing.
fn put_simple(tail: &mut Tail, b: Body)
    requires { COMMAND_ROOM + length tail.old ≤ LINE_ROOM }
    ensures text { is_simple b ≡ true → tail.new ≡ join_with_byte 32 (command_words b) ++ tail.old }
    ensures length { length tail.new ≤ COMMAND_ROOM + length tail.old }
{
    match b {
        Body::Finish(s) => {
            put_scope(tail, s);
            put_word(tail, FINISH);
        }
        Body::Close(s) => {
            put_scope(tail, s);
            put_word(tail, CLOSE);
        }
        Body::Current => tail.put(CURRENT),
        Body::Complete(c) => {
            put_clone(tail, c);
            put_word(tail, COMPLETE);
        }
        Body::Gone(e) => {
            put_enlistment(tail, e);
            put_word(tail, GONE);
        }
        Body::Reenlist(e) => {
            put_enlistment(tail, e);
            put_word(tail, REENLIST);
        }
        Body::Restart => tail.put(RESTART),
        Body::Par => tail.put(PAR),
        _ => {}
    }
}

/// Puts a command.
fn put_command(tail: &mut Tail, b: Body)
    requires { COMMAND_ROOM + length tail.old ≤ LINE_ROOM }
    ensures text { tail.new ≡ join_with_byte 32 (command_words b) ++ tail.old }
    ensures length { length tail.new ≤ COMMAND_ROOM + length tail.old }
{
    match b {
        Body::Begin(t, d) => put_begin(tail, t, d),
        Body::Open(s, o) => put_open(tail, s, o),
        Body::Volatile(t, e, o, v) => put_volatile(tail, t, e, o, v),
        Body::Durable(t, e, r, s) => put_durable(tail, t, e, r, s),
        Body::Promotable(t, e, r, v, o, p) => put_promotable(tail, t, e, r, v, o, p),
        Body::Clone(t, c, k) => put_clone_made(tail, t, c, k),
        Body::Commit(t) => put_of(tail, COMMIT, t),
        Body::Rollback(t) => put_of(tail, ROLLBACK, t),
        Body::Marshal(t) => put_of(tail, MARSHAL, t),
        Body::Status(t) => put_of(tail, STATUS, t),
        Body::Await(t) => put_of(tail, AWAIT, t),
        Body::Tick(t, n) => put_tick(tail, t, n),
        Body::Do(t, k, n) => put_do(tail, t, k, n),
        Body::Lose(t, c, up, down) => put_lose(tail, t, c, up, down),
        Body::Recovered(t, r) => put_recovered(tail, t, r),
        Body::Stop(n, i) => put_stop(tail, n, i),
        _ => put_simple(tail, b),
    }
}

/// Makes a line.
fn put_line(tail: &mut Tail, l: &Line)
    requires { tail.old ≡ [] }
    ensures { tail.new ≡ line_text l.now }
{
    tail.put(b"\n");
    put_command(tail, l.body);
    tail.put(b" ");
    put_actor(tail, l.actor);
}

/// The text of a script, by which it is read again.
///
/// # Errors
///
/// [`AllocError`] where memory ran out.
pub fn print_script(alloc: Global, s: &Script) -> Result<Vec<u8>, AllocError>
    ensures text { IfOk result (λ v. v.items ≡ script_text s.now) }
    ensures read { IfOk result (λ v. IsScript s.now → Reads v.items s.now) }
{
    let lines = s.lines();
    let mut text = Vec::with_capacity(alloc, lines.len().saturating_mul(MEAN_LINE))?;
    let mut tail = Tail::new();
    for l in lines {
        tail.clear();
        put_line(&mut tail, l);
        text.extend_from_slice(tail.as_slice())?;
    }
    Ok(text)
}
