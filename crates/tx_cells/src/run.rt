//! The name of a run.
use std::marker::Brand;

/// Names one run. It has no function: its members are plain data, which stay as they are for the whole run, and stand in proofs alone. What a lock or a board gives back
/// is known by its type alone, so each such type has the name of its run. One call picks the name, by the arguments that it has.
pub trait Run {
    ghost use Rattle.std.specs.Prelude.{ℕ, Bool, List};
    ghost use Rattle.dtx_values.specs.declared.script.Line.{Line};

    /// The lines of the script.
    ghost script: { List Line };

    /// How many resource managers have an object: the first so many.
    ghost objects: { ℕ };

    /// Whether the disk of the log tells what it holds.
    ghost honest: { Bool };

    /// The disk's count of faults at the start.
    ghost faults: { ℕ };
}

impl Run for Brand {
    ghost use Rattle.std.specs.Prelude.{true, []};

    ghost script = { [] };

    ghost objects = { 0 };

    ghost honest = { true };

    ghost faults = { 0 };
}
