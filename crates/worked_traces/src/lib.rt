//! Worked traces: false ones, each refused by what is promised of a run; and one of a promoted commit in a single phase, of which the laws speak. The crate has no code, and no other stands on it.
#![tactic(auto)]
