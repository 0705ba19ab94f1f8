//! Lemmas on the histories of one transaction, promoted or not, which the crates above cite: the table of what must stand before each entry, what the blocks of
//! steps have and don't have, what each side knows, and that the history of each world that steps made keeps the table, where each restart found what may be
//! found. No function stands here: what is public of these lemmas are the laws of `outcome_law` and `world_laws`.
#![tactic(auto)]
