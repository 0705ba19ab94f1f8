//! The words beside a mark.
ghost use Rattle.std.specs.Prelude.{◌≡◌, ◌∷◌, ◌++◌, [], IfOk, OnOk, codes};
ghost use Rattle.dtx_model.specs.Grammar.{connection_word, line_text};
ghost use Rattle.dtx_model.specs.TraceText.{answer_text, entry_text, message_text};
ghost use Rattle.trace_page.specs.Labels.{command_of, label_text};
ghost use Rattle.dtx_model.specs.Words.{kth};

use dtx_values::{Answer, Conn, Entry, Line, Message, Script};
use line_tail::{Tail, parts};
use line_words::put_connection;
use script_text::print_script;
use std::alloc::{AllocError, Global};
use trace_lines::{put_answer, put_entry, put_message};
use trace_picture::{Label, line_at};

/// The text of a line, with its client and its end.
#[tactic(auto, using(crate::proofs::Before::one_line))]
fn line_text(alloc: Global, l: &Line) -> Result<Vec<u8>, AllocError>
    ensures { IfOk result (λ v. v.items ≡ line_text l.now) }
{
    let mut lines = Vec::new(alloc);
    lines.push(*l)?;
    print_script(alloc, &Script::new(lines))
}

/// Appends the words of a line after its client.
fn push_command_of(alloc: Global, text: &mut Vec<u8>, l: Option<Line>) -> Result<(), AllocError>
    ensures { OnOk result (text.new.items ≡ text.old.items ++ command_of l) }
{
    let Some(l) = l else {
        return Ok(());
    };
    let line = line_text(alloc, &l)?;
    let (_, words) = parts(&line, b' ');
    let (command, _) = parts(words, b'\n');
    text.extend_from_slice(command)
}

/// Appends an answer.
fn push_answer(text: &mut Vec<u8>, answer: Answer) -> Result<(), AllocError>
    ensures { OnOk result (text.new.items ≡ text.old.items ++ answer_text answer) }
{
    let mut tail = Tail::new();
    put_answer(&mut tail, answer);
    text.extend_from_slice(tail.as_slice())
}

/// Appends a message on its connection.
fn push_message(text: &mut Vec<u8>, c: Conn, m: Message) -> Result<(), AllocError>
    ensures { OnOk result (text.new.items ≡ text.old.items ++ (connection_word c ++ codes " " ++ message_text m)) }
{
    let mut tail = Tail::new();
    put_message(&mut tail, m);
    tail.put(b" ");
    put_connection(&mut tail, c);
    text.extend_from_slice(tail.as_slice())
}

/// Appends an entry.
fn push_entry(text: &mut Vec<u8>, x: Entry) -> Result<(), AllocError>
    ensures { OnOk result (text.new.items ≡ text.old.items ++ entry_text x) }
{
    let mut tail = Tail::new();
    put_entry(&mut tail, x);
    text.extend_from_slice(tail.as_slice())
}

/// Appends a call and its answer.
fn push_call(
    alloc: Global,
    text: &mut Vec<u8>,
    lines: &[Line],
    n: u32,
    answer: Answer,
) -> Result<(), AllocError>
    ensures { OnOk result (text.new.items ≡ text.old.items ++ (command_of (kth lines.now n) ++ (codes " -&gt; " ++ answer_text answer))) }
{
    push_command_of(alloc, text, line_at(lines, n))?;
    text.extend_from_slice(b" -&gt; ")?;
    push_answer(text, answer)
}

/// Appends the words beside a mark.
pub(crate) fn push_label(
    alloc: Global,
    text: &mut Vec<u8>,
    lines: &[Line],
    label: Label,
) -> Result<(), AllocError>
    ensures { OnOk result (text.new.items ≡ text.old.items ++ label_text lines.now label) }
{
    match label {
        Label::Call(n, answer) => push_call(alloc, text, lines, n, answer),
        Label::Message(c, m) => push_message(text, c, m),
        Label::Entry(x) => push_entry(text, x),
    }
}
