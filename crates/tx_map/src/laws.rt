//! What a map is for, over all lists of calls.
ghost use Rattle.tx_map.specs.Laws.{IsFold, IsUndone};

/// A law: after any list of calls the base is the fold, over the notes Commit in the order in which they were heard, of the writes that were live for the note's pair then.
pub fn commits_are_folded()
    ensures { IsFold }
{}

/// A law: puts of a pair that had no live write, and then its Rollback, leave the map as it was.
pub fn rollback_undoes()
    ensures { IsUndone }
{}
