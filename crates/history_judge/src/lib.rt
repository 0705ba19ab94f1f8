//! The judge of histories: the code of what `dtx_model` defines of evidence, vetoes and doubt, and the first place at which a history breaks the rules of one outcome.
#![tactic(auto)]

mod doubt;
mod entries;
mod evidence;
mod messages;
mod scans;
mod verdict;
mod veto;

pub use doubt::{ended_there, has_doubt};
pub use entries::is_record;
pub use evidence::{all_vote, has_evidence, newest_durable};
pub use messages::{is_begin_end, is_voter_end};
pub use scans::{has_commit, has_completed, has_promotion, has_record};
pub use verdict::{Verdict, judge};
pub use veto::{is_first_veto, is_lone, is_veto_end};
