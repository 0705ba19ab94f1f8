//! Writes texts to a sink, as the last thing that is done.
ghost use Rattle.std.specs.Prelude.{◌≡◌, ◌≢◌, ◌⊎◌, ◌++◌, Some, IfErr, OnErr, OnOk};
ghost use Rattle.std.specs.Option.{ForSome};
ghost use Rattle.outside.specs.Faults.{Rose};
ghost use Rattle.trace_text.specs.Forms.{lines_text};
ghost use Rattle.program_io.specs.FormText.{form_text};
ghost use Rattle.program_io.specs.Transfer.{IsPartWritten};

use crate::exit::Exit;
use crate::transfer::{WriteStop, write_all};
use outside::Sink;
use program_words::Form;
use script_text::Script;
use std::alloc::Global;
use trace_text::{Trace, json_trace, page, print_lines, summary, why_text};

/// How many lines of a trace are printed and written as one piece, at most.
const LINES: usize = 2_048;

/// Writes the text of a trace in the plain form, or in the form wire, to the sink, a piece at a time: so it takes no room for the whole text, and who reads it needn't wait for its end.
fn write_lines<K: Sink>(
    alloc: Global,
    sink: &mut K,
    trace: &Trace,
    wire: bool,
) -> Result<(), WriteStop>
    ensures all { OnOk result (ForSome (K.written sink.old) (λ w. K.written sink.new ≡ Some (w ++ lines_text wire trace.now))) }
    ensures part { OnErr result (ForSome (K.written sink.old) (λ w. IsPartWritten w (lines_text wire trace.now) (K.written sink.new))) }
    ensures cause { IfErr result (λ e. e ≡ WriteStop.Fault → Rose (K.faults sink.old) (K.faults sink.new)) }
    ensures smooth { OnOk result (K.faults sink.new ≡ K.faults sink.old) }
    ensures memory { IfErr result (λ e. e ≡ WriteStop.Memory → K.faults sink.new ≡ K.faults sink.old) }
{
    let mut piece = Vec::new(alloc);
    let mut at = 0;
    while at < trace.len() {
        let to = at.saturating_add(LINES).min(trace.len());
        piece.clear();
        let Ok(()) = print_lines(&mut piece, trace, at, to, wire) else {
            return Err(WriteStop::Memory);
        };
        match write_all(sink, &piece) {
            Ok(()) => at = to,
            Err(stop) => return Err(stop),
        }
    }
    Ok(())
}

/// Writes the bytes to the sink.
pub fn written<K: Sink>(sink: &mut K, bytes: &[u8]) -> Exit
    ensures all { result ≡ Exit.Fine → ForSome (K.written sink.old) (λ w. K.written sink.new ≡ Some (w ++ bytes.now)) }
    ensures part { result ≢ Exit.Fine → ForSome (K.written sink.old) (λ w. IsPartWritten w bytes.now (K.written sink.new)) }
    ensures fault { result ≡ Exit.WriteFault → Rose (K.faults sink.old) (K.faults sink.new) }
    ensures smooth { result ≢ Exit.WriteFault → K.faults sink.new ≡ K.faults sink.old }
    ensures answers { (result ≡ Exit.Fine) ⊎ ((result ≡ Exit.WriteFault) ⊎ (result ≡ Exit.Memory)) }
{
    match write_all(sink, bytes) {
        Ok(()) => Exit::Fine,
        Err(WriteStop::Fault) => Exit::WriteFault,
        Err(WriteStop::Memory) => Exit::Memory,
    }
}

/// Writes the text of a trace in the plain form, or in the form wire, to the sink.
fn written_lines<K: Sink>(alloc: Global, sink: &mut K, trace: &Trace, wire: bool) -> Exit
    ensures all { result ≡ Exit.Fine → ForSome (K.written sink.old) (λ w. K.written sink.new ≡ Some (w ++ lines_text wire trace.now)) }
    ensures part { result ≢ Exit.Fine → ForSome (K.written sink.old) (λ w. IsPartWritten w (lines_text wire trace.now) (K.written sink.new)) }
    ensures fault { result ≡ Exit.WriteFault → Rose (K.faults sink.old) (K.faults sink.new) }
    ensures smooth { result ≢ Exit.WriteFault → K.faults sink.new ≡ K.faults sink.old }
    ensures answers { (result ≡ Exit.Fine) ⊎ ((result ≡ Exit.WriteFault) ⊎ (result ≡ Exit.Memory)) }
{
    match write_lines(alloc, sink, trace, wire) {
        Ok(()) => Exit::Fine,
        Err(WriteStop::Fault) => Exit::WriteFault,
        Err(WriteStop::Memory) => Exit::Memory,
    }
}

/// Writes the text of a trace of this script in this form to the sink.
pub fn written_in<K: Sink>(
    alloc: Global,
    sink: &mut K,
    form: Form,
    script: &Script,
    trace: &Trace,
) -> Exit
    ensures all { result ≡ Exit.Fine → ForSome (K.written sink.old) (λ w. K.written sink.new ≡ Some (w ++ form_text form script.now trace.now)) }
    ensures cut { result ≡ Exit.WriteFault → ForSome (K.written sink.old) (λ w. IsPartWritten w (form_text form script.now trace.now) (K.written sink.new)) }
    ensures memory { result ≡ Exit.Memory → (sink.new ≡ sink.old) ⊎ ForSome (K.written sink.old) (λ w. IsPartWritten w (form_text form script.now trace.now) (K.written sink.new)) }
    ensures fault { result ≡ Exit.WriteFault → Rose (K.faults sink.old) (K.faults sink.new) }
    ensures smooth { result ≢ Exit.WriteFault → K.faults sink.new ≡ K.faults sink.old }
    ensures answers { (result ≡ Exit.Fine) ⊎ ((result ≡ Exit.WriteFault) ⊎ (result ≡ Exit.Memory)) }
{
    let text = match form {
        Form::Plain => return written_lines(alloc, sink, trace, false),
        Form::Wire => return written_lines(alloc, sink, trace, true),
        Form::Json => json_trace(alloc, trace),
        Form::Summary => summary(alloc, trace),
        Form::Why => why_text(alloc, script, trace),
        Form::Html => page(alloc, script, trace),
    };
    match text {
        Ok(text) => written(sink, &text),
        Err(_) => Exit::Memory,
    }
}
