//! Lemmas on the histories of scripts, which the laws of `outcome_law` cite: the names and the calls that a script's lines give, replays and traces, with
//! examples of them; what is told is just; promotions come in order; and what a history comes to in which nothing is promoted. No function stands here.
#![tactic(auto)]
