//! The top call.
ghost use Rattle.std.specs.Prelude.{◌≡◌, ◌≢◌, ◌⊎◌, ◌↔◌, ◌≤◌, ◌++◌, Some, map, true, vec_len, IsTrue};
ghost use Rattle.std.specs.Option.{ForSome};
ghost use Rattle.std.specs.String.{string_bytes};
ghost use Rattle.outside.specs.Faults.{Rose};
ghost use Rattle.dtx_values.specs.declared.number.RmNo.{RmNo};
ghost use Rattle.dtx_model.specs.Caused.{Manager};
ghost use Rattle.heard_notes.specs.Whose.{whose};
ghost use Rattle.coordinator_log.specs.declared.layout.TheConstants.{LOG_BYTES};
ghost use Rattle.program_io.specs.Transfer.{IsPartWritten};
ghost use Rattle.program_io.specs.declared.way.Way.{Way};
ghost use Rattle.program_words.specs.Commands.{Asks, AsksNothing, is_command, is_count};
ghost use Rattle.program_words.specs.declared.command.Command.{Command};
ghost use Rattle.program_words.specs.declared.command.Form.{Form};
ghost use Rattle.replay_runs.specs.Ending.{AreOwnLogs, IsLog};
ghost use Rattle.replay_runs.specs.LogRun.{MetNoFault};
ghost use Rattle.script_maker.specs.Gen.{gen};
ghost use Rattle.script_runner.specs.Program.{IsRunBy};
ghost use Rattle.script_runner.specs.Promises.{Does, RunsScript, TellsFaults, WritesRun, devices, telling};

use crate::arrows::each_run_has_its_arrows;
use crate::checks::check_in;
use crate::running::traced_anew;
use crate::tables::table_in;
use dtx_values::{Resource, RmNo};
use heard_notes::Of;
use outside::{Disk, Gate, Sink, Source, SureSource};
use program_io::{Exit, Way, list_in, script_from, written, written_in};
use program_words::{Command, Form, command_of};
use script_maker::make_script;
use script_text::{BadCause, reads_exactly};
use std::alloc::Global;
use std::sync::Wait;
use std::thread::Threads;
use thread_runs::Setting;
use trace_text::one_trace;

/// Reads the script from the source, formats the log on the disk, runs the script this way, and writes the trace in this form to the sink.
fn run_in<S: Source, K: Sink, D: Disk + Send, G: Gate + Sync, R: Threads + Wait + Sync>(
    way: Way,
    form: Form,
    source: &mut S,
    sink: &mut K,
    disk: D,
    setting: Setting<G, R>,
) -> (Exit, D)
    requires { LOG_BYTES ≤ D.size disk }
    ensures runs { RunsScript
        (telling S.left S.faults K.written K.faults D.honest D.seen D.image D.size D.faults)
        way form (vec_len setting.entry.resources)
        (devices source.old sink.old disk) result.0 (devices source.new sink.new result.1) }
    ensures room { LOG_BYTES ≤ D.size result.1 }
{
    // This does nothing when it runs. It brings in that bytes are one script or have one first bad line, and never both, so that the answer which
    // is given is the only one that fits.
    reads_exactly();
    // Nor does this. It brings in that the text which is written has one trace, up to what a message's line leaves out.
    one_trace();
    // Nor this: each message that comes has its arrow in a picture.
    each_run_has_its_arrows();
    let alloc = setting.alloc;
    let script = match script_from(alloc, way, source) {
        Ok(script) => script,
        Err(exit) => return (exit, disk),
    };
    let (traced, disk) = traced_anew(way, &script, disk, setting);
    match traced {
        Ok(trace) => (written_in(alloc, sink, form, &script, &trace), disk),
        Err(exit) => (exit, disk),
    }
}

/// Writes the made script of n transactions to the sink.
fn make_in<K: Sink>(alloc: Global, n: u16, sink: &mut K) -> Exit
    requires { is_count n ≡ true }
    ensures made { result ≡ Exit.Fine → ForSome (K.written sink.old) (λ w. K.written sink.new ≡ Some (w ++ gen n)) }
    ensures short { (result ≡ Exit.WriteFault) ⊎ (result ≡ Exit.Memory) → (sink.new ≡ sink.old) ⊎ ForSome (K.written sink.old) (λ w. IsPartWritten w (gen n) (K.written sink.new)) }
    ensures write_fault { result ≡ Exit.WriteFault → Rose (K.faults sink.old) (K.faults sink.new) }
    ensures write_smooth { result ≢ Exit.WriteFault → K.faults sink.new ≡ K.faults sink.old }
    ensures answers { (result ≡ Exit.Fine) ⊎ ((result ≡ Exit.WriteFault) ⊎ (result ≡ Exit.Memory)) }
{
    let Ok(text) = make_script(alloc, n) else {
        return Exit::Memory;
    };
    written(sink, &text)
}

/// Replays the made script of n transactions, and writes the summary to the sink.
fn demo_in<K: Sink, D: Disk + Send, G: Gate + Sync, R: Threads + Wait + Sync>(
    n: u16,
    sink: &mut K,
    disk: D,
    setting: Setting<G, R>,
) -> (Exit, D)
    requires room { LOG_BYTES ≤ D.size disk }
    requires count { is_count n ≡ true }
    ensures writes { WritesRun K.written
        (IsRunBy Way.Replay (vec_len setting.entry.resources) (D.faults disk) (D.faults result.1) D.honest (D.image result.1))
        Form.Summary (Some (gen n)) sink.old result.0 sink.new }
    ensures answers { (result.0 ≡ Exit.Fine) ⊎ ((result.0 ≡ Exit.LogFault) ⊎ ((result.0 ≡ Exit.WriteFault) ⊎ (result.0 ≡ Exit.Memory))) }
    ensures log_fault { result.0 ≡ Exit.LogFault → Rose (D.faults disk) (D.faults result.1) }
    ensures write_fault { result.0 ≡ Exit.WriteFault → Rose (K.faults sink.old) (K.faults sink.new) }
    ensures log_grows { result.0 ≢ Exit.LogFault → D.faults disk ≤ D.faults result.1 }
    ensures write_smooth { result.0 ≢ Exit.WriteFault → K.faults sink.new ≡ K.faults sink.old }
    ensures room { LOG_BYTES ≤ D.size result.1 }
    ensures logs { IsTrue D.honest → result.0 ≢ Exit.LogFault → (result.1 ≡ disk) ⊎ AreOwnLogs (D.image result.1) }
    ensures given_up_whole { IsTrue D.honest → result.0 ≡ Exit.Memory → MetNoFault D.faults disk result.1 → (result.1 ≡ disk) ⊎ IsLog (D.image result.1) }
{
    // This does nothing when it runs. It brings in that the made bytes, which are a script, are never bad.
    reads_exactly();
    let Ok(bytes) = make_script(setting.alloc, n) else {
        return (Exit::Memory, disk);
    };
    let mut source = SureSource::new(bytes);
    let way = Way::Replay;
    run_in(way, Form::Summary, &mut source, sink, disk, setting)
}

/// The enlistments of manager r1.
fn of_first_manager() -> Of
    ensures { (r : RmNo) → r.value ≡ 1 → whose result ≡ Manager r }
{
    match RmNo::new(1) {
        Some(first) => Of::Manager(first),
        None => unreachable!(),
    }
}

/// Does what a command says.
fn run_command<S: Source, K: Sink, D: Disk + Send, G: Gate + Sync, R: Threads + Wait + Sync>(
    command: Command,
    source: &mut S,
    sink: &mut K,
    disk: D,
    setting: Setting<G, R>,
) -> (Exit, D)
    requires command { is_command command ≡ true }
    requires room { LOG_BYTES ≤ D.size disk }
    ensures does { Does
        (telling S.left S.faults K.written K.faults D.honest D.seen D.image D.size D.faults)
        command (vec_len setting.entry.resources)
        (devices source.old sink.old disk) result.0 (devices source.new sink.new result.1) }
    ensures asked { result.0 ≢ Exit.Usage }
    ensures room { LOG_BYTES ≤ D.size result.1 }
{
    match command {
        Command::Replay(form) => run_in(Way::Replay, form, source, sink, disk, setting),
        Command::Threads(helpers, form) => {
            run_in(Way::Threads(helpers), form, source, sink, disk, setting)
        }
        Command::Make(n) => (make_in(setting.alloc, n, sink), disk),
        Command::Demo(n) => demo_in(n, sink, disk, setting),
        Command::Log => list_in(setting.alloc, sink, disk),
        Command::Check => check_in(setting.alloc, source, sink, disk),
        Command::Store => table_in(setting.alloc, of_first_manager(), source, sink, disk),
        Command::Map => table_in(setting.alloc, Of::Volatiles, source, sink, disk),
    }
}

/// Runs the program on its words: a script in the order of a replay or on threads, from the source to the text of its trace at the sink, over a log on the disk.
///
/// | words | what it does |
/// |---|---|
/// | `replay`, `replay --wire`, `replay --json`, `replay --summary`, `replay --why`, `replay --html` | reads the script from the source, formats the log on the disk, replays the script, and writes the trace in that form to the sink |
/// | `threads H`, `threads H --summary`, `threads H --why` | reads the script, formats the log, runs the script on threads with H helpers, H from 1 to 16, and writes the trace, its summary, or why |
/// | `make N` | writes the made script of N transactions, N from 1 to 256 |
/// | `demo N` | formats the log, replays that script, and writes the summary |
/// | `log` | reads the log that is on the disk, changes nothing of it, and writes a line for each slot whose gate is open, and one that says how many there are |
/// | `check` | reads a trace in the plain form from the source, and writes whether it is fine, or its first bad entry and what that loses |
/// | `store` | reads puts and a script from the source, formats the log, replays the script over a new key store that has the puts and hears the notes of manager r1's enlistments, and writes the rows that are in it at the end |
/// | `map` | the same over a map in memory that hears the notes of all volatiles |
///
/// The object at place k of `resources`, from 0, is that of manager r(k + 1): it hears the notes of its manager's enlistments to which a reply is due, and its answers are the replies. Where the list has no object for a
/// manager, and for volatiles, the script's plans reply. On threads the gate is called before each reply. `store` and `map` don't use the list: for who hasn't the table as object, the plans reply.
///
/// It hands the disk back, which has at least [`LOG_BYTES`](crate::LOG_BYTES) bytes: [`Disk::len`] tells whether it has.
///
/// The source is read to its end, or one byte past the longest script, input or trace, before anything is judged. The disk is touched only where a script is run or the log is listed, and the sink only where
/// the log was formatted or read, or a script is made. A fault is answered as the fault that it is, but for one of the disk after the log
/// was formatted: that stops the log, which the trace says.
pub fn run_program<S: Source, K: Sink, D: Disk + Send, G: Gate + Sync, R: Threads + Wait + Sync>(
    rt: &R,
    alloc: Global,
    words: &[String],
    source: &mut S,
    sink: &mut K,
    disk: D,
    gate: &G,
    resources: Vec<Box<dyn Resource + Send>>,
) -> (Exit, D)
    requires { LOG_BYTES ≤ D.size disk }

    // The words ask for one command, or for none. Usage comes exactly by the words, and then nothing is read, written or touched.
    ensures asked { ((c : Command) × Asks (map string_bytes words.now) c)
        ⊎ AsksNothing (map string_bytes words.now) }
    ensures usage { (result.0 ≡ Exit.Usage) ↔ AsksNothing (map string_bytes words.now) }
    ensures idle { AsksNothing (map string_bytes words.now)
        → devices source.new sink.new result.1 ≡ devices source.old sink.old disk }

    // What each command does, with the cause of each answer: for a script that is run, the headline. A fault of the disk after the log was formatted stops the log, which
    // the trace says, and is no answer of its own.
    ensures headline { (c : Command) → Asks (map string_bytes words.now) c → Does
        (telling S.left S.faults K.written K.faults D.honest D.seen D.image D.size D.faults)
        c (vec_len resources)
        (devices source.old sink.old disk) result.0 (devices source.new sink.new result.1) }
    ensures faults { TellsFaults
        (telling S.left S.faults K.written K.faults D.honest D.seen D.image D.size D.faults)
        (devices source.old sink.old disk) result.0 (devices source.new sink.new result.1) }
    ensures room { LOG_BYTES ≤ D.size result.1 }
{
    let setting = Setting {
        rt,
        alloc,
        gate,
        resources,
    };
    match command_of(words) {
        Some(command) => run_command(command, source, sink, disk, setting),
        None => (Exit::Usage, disk),
    }
}
