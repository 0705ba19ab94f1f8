//! Where the threads of a script begin.
ghost use Rattle.std.specs.Prelude.{◌≡◌};
ghost use Rattle.script_calls.specs.FirstCalls.{par_line};

use dtx_values::{Body, Line};

/// The number of the `par` line, from 1: the calls of the lines before it are made first. 0 where there is none.
pub fn par_line(s: &[Line]) -> usize
    ensures { result ≡ par_line s.now }
{
    for i in 0..s.len() {
        if matches!(s[i].body, Body::Par) {
            return i + 1;
        }
    }
    0
}
