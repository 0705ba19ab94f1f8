//! Checks a trace, and writes what is said of it.
ghost use Rattle.std.specs.Prelude.{◌≡◌, ◌≢◌, ◌⊎◌, ◌≤◌, ◌++◌, Some, length};
ghost use Rattle.std.specs.Option.{ForSome};
ghost use Rattle.outside.specs.Faults.{Rose};
ghost use Rattle.program_io.specs.Transfer.{IsPartWritten};
ghost use Rattle.program_io.specs.Verdict.{verdict_text, why_word};
ghost use Rattle.trace_checker.specs.Keeps.{IsChecked};
ghost use Rattle.trace_checker.specs.declared.checked.Checked.{Checked};

use crate::exit::Exit;
use crate::writing::written;
use line_tail::Tail;
use outside::Sink;
use std::alloc::Global;
use trace_checker::{Checked, Why, check_trace};
use trace_text::Trace;

/// What a bad entry loses, as a word.
fn why_word(why: Why) -> &'static [u8]
    ensures word { result.now ≡ why_word why }
    ensures short { length result.now ≤ 9 }
{
    match why {
        Why::Justified => b"justified",
        Why::Agree => b"agree",
        Why::Wire => b"wire",
    }
}

/// The line that says what was found.
fn verdict_line(found: Checked) -> Tail
    ensures { result ≡ verdict_text found }
{
    let mut line = Tail::new();
    line.put(b"\n");
    match found {
        Checked::Fine => line.put(b"fine"),
        Checked::Bad(n, why) => {
            line.put(why_word(why));
            line.put(b" ");
            line.put_number(n);
            line.put(b"bad ");
        }
    }
    line
}

/// Checks the trace, and writes to the sink what was found.
pub fn verdict_written<K: Sink>(alloc: Global, sink: &mut K, trace: &Trace) -> Exit
    ensures all { result ≡ Exit.Fine → (v : Checked) × IsChecked trace.now v
        × ForSome (K.written sink.old) (λ w. K.written sink.new ≡ Some (w ++ verdict_text v)) }
    ensures cut { result ≡ Exit.WriteFault → (v : Checked) × IsChecked trace.now v
        × ForSome (K.written sink.old) (λ w. IsPartWritten w (verdict_text v) (K.written sink.new)) }
    ensures memory { result ≡ Exit.Memory → (sink.new ≡ sink.old) ⊎ ((v : Checked) × IsChecked trace.now v
        × ForSome (K.written sink.old) (λ w. IsPartWritten w (verdict_text v) (K.written sink.new))) }
    ensures fault { result ≡ Exit.WriteFault → Rose (K.faults sink.old) (K.faults sink.new) }
    ensures smooth { result ≢ Exit.WriteFault → K.faults sink.new ≡ K.faults sink.old }
    ensures answers { (result ≡ Exit.Fine) ⊎ ((result ≡ Exit.WriteFault) ⊎ (result ≡ Exit.Memory)) }
{
    match check_trace(alloc, trace) {
        Ok(found) => written(sink, verdict_line(found).as_slice()),
        Err(_) => Exit::Memory,
    }
}
