//! Lemmas on the histories that `history_table` speaks of, as they come to an end, which the laws of `outcome_law` cite: where nothing is pending the promotion
//! is over, who came back was told, and what can commit is committed, whatever was lost, stopped and started again. No function stands here.
#![tactic(auto)]
