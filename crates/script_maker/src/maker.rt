//! The lines put together, and their text.
ghost use Rattle.std.specs.Prelude.{◌≡◌, ◌≤◌, ◌++◌, IfOk, List, false};
ghost use Rattle.dtx_values.specs.declared.script.Line.{Line};
ghost use Rattle.dtx_model.specs.Grammar.{Reads, script_text};
ghost use Rattle.script_maker.specs.Gen.{gen, work_lines};
ghost use Rattle.dtx_model.specs.AtLog.{has_log_line};

use crate::lines::{
    begin, commit, first_durable, owner, par, rollback_clone, second_durable, volatile,
};
use dtx_values::{Line, Script, TxNo, Vote};
use script_text::print_script;
use std::alloc::{AllocError, Global};

/// Pushes what comes of transaction k after `par`.
fn push_work(lines: &mut Vec<Line>, k: u32) -> Result<(), AllocError>
    requires low { 1 ≤ k }
    requires high { k ≤ TxNo.MAX }
    ensures { IfOk result (λ u. script_text lines.new.items ≡ script_text lines.old.items ++ work_lines k) }
{
    match k % 5 {
        0 => lines.push(volatile(k, Vote::Yes))?,
        1 => lines.push(volatile(k, Vote::No))?,
        2 => lines.push(owner(k))?,
        3 => {
            lines.push(first_durable(k))?;
            lines.push(second_durable(k))?;
        }
        _ => lines.push(rollback_clone(k))?,
    }
    lines.push(commit(k))?;
    Ok(())
}

/// The lines of the made script of n transactions.
fn made_script(alloc: Global, n: u32) -> Result<Script, AllocError>
    requires { n ≤ TxNo.MAX }
    ensures { IfOk result (λ s. script_text s ≡ gen n) }
{
    let mut lines = Vec::with_capacity(alloc, n as usize * 4 + 1)?;
    for done in 0..n {
        lines.push(begin(done + 1))?;
    }
    lines.push(par())?;
    for done in 0..n {
        push_work(&mut lines, done + 1)?;
    }
    Ok(Script::new(lines))
}

/// The text of a script of n transactions, n from 1 to 256. Twelve actors begin them in turn, then the threads begin, and then each
/// transaction is worked on and asked to commit. By the remainder of its number by 5:
///
/// | remainder | what is in it | how it ends |
/// |---|---|---|
/// | 0 | a volatile that votes yes | committed |
/// | 1 | a volatile that votes no | aborted |
/// | 2 | a durable that owns the commit | committed |
/// | 3 | two durables of two managers, by two actors: it is promoted | committed |
/// | 4 | a clone that isn't complete | aborted |
///
/// The text is a script. None of its lines arms a stop of the log or opens it again.
///
/// # Errors
///
/// [`AllocError`] where memory ran out.
pub fn make_script(alloc: Global, n: u16) -> Result<Vec<u8>, AllocError>
    requires low { 1 ≤ n }
    requires high { n ≤ TxNo.MAX }
    ensures text { IfOk result (λ v. v.items ≡ gen n) }
    ensures script { (s : List Line) × Reads (gen n) s }
    ensures no_log_line { (s : List Line) → Reads (gen n) s → has_log_line s ≡ false }
{
    let script = made_script(alloc, u32::from(n))?;
    print_script(alloc, &script)
}
