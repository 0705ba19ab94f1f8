//! Runs of the program over a source, a sink and a disk in memory whose calls fail. Each line of the standard input is a run, and what came of it is printed.
//!
//! A line has items, with a semicolon and a space between them. Each is a word, and what is said of it:
//!
//! | item | meaning |
//! |---|---|
//! | `words W ..` | the words of the program |
//! | `script L/L/..` | its input: lines, with a slash between them |
//! | `unended` | the input ends without its last newline |
//! | `made N` | its input: the script that is made of the number N |
//! | `disk N`, `read N`, `write N` | the N-th call of the disk, the source or the sink fails |
//! | `piece N` | a read and a write take N bytes at most |
//! | `recorded` | before the run the disk has a log with one record, made in eight calls |
//! | `lost` | after the run the disk loses what wasn't synced |
//! | `all` | prints what was written |
//! | `bytes` | prints how many bytes that are |
//! | `first N` | prints its first N lines |
//! | `lines TEXT` | prints its lines that begin with this text, without their numbers |
//! | `many` | prints how many lines it has |
//! | `last` | prints the last line, without its number |
//! | `judged` | prints the verdict on the history of each transaction |
//! | `told` | prints for each transaction what its client was told: `c`, `a` or `i`, `-` where no connection was cut, and `?` where nothing was told or the history isn't as it should be |
//! | `log` | prints how many records are found when the log is opened after the run, or why it isn't one |
//!
//! In front of these stands how the run ended.
#![tactic(auto)]

mod items;
mod runs;
mod shown;

use items::Case;
use runs::ran;
use shown::show;
use std::io;

fn main(rt: HostRuntime) -> io::Result<()> {
    let mut number = 0_u32;
    for line in rt.lines(rt.alloc()) {
        let line = line?;
        number = number.saturating_add(1);
        let case = Case::of(line.as_str());
        let ending = ran(&rt, rt.alloc(), &case)?;
        let exit = ending.exit;
        println!(rt; "run {number}: {exit:?}")?;
        show(&rt, rt.alloc(), line.as_str(), &ending)?;
    }
    Ok(())
}
