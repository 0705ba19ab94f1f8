//! The words, names and numbers that scripts and traces are written in: each is spelled once, with what puts it before a line's end
//! and what reads it.
#![tactic(auto)]

mod ask;
mod cause;
mod class;
mod defaults;
mod direction;
mod enlist_option;
mod found;
mod identifier;
mod image;
mod isolation;
mod kind;
mod names;
mod numbers;
mod outcome;
mod plans;
mod reply;
mod request;
mod vote;
mod widths;

pub use ask::{ask_of, put_ask};
pub use cause::{cause_of, put_cause};
pub use class::{class_of, put_class};
pub use defaults::{asked_isolation_of, put_asked_isolation, put_timeout, timeout_of};
pub use direction::{direction_of, put_direction};
pub use enlist_option::{option_of, put_option};
pub use found::{found_of, put_found};
pub use identifier::{identifier_of, put_identifier};
pub use image::{image_of, put_image};
pub use isolation::{isolation_of, put_isolation};
pub use kind::{kind_of, put_kind};
pub use names::{
    ACTOR_LETTER, CLONE_LETTER, ENLISTMENT_LETTER, MANAGER_LETTER, REENLISTMENT_LETTER,
    SCOPE_LETTER, TRANSACTION_LETTER, actor_of, clone_of, connection_of, enlistment_of, manager_of,
    put_actor, put_clone, put_connection, put_enlistment, put_manager, put_numbered, put_scope,
    put_transaction, scope_of, transaction_of,
};
pub use numbers::{number_from, number_of, number8_of, number16_of, number32_of};
pub use outcome::{ABORTED, COMMITTED, IN_DOUBT, outcome_of, put_outcome};
pub use plans::{
    owner_plan_of, promotion_plan_of, put_owner_plan, put_promotion_plan, put_vote_plan,
    vote_plan_of,
};
pub use reply::{put_reply, reply_of};
pub use request::{put_request, request_of};
pub use vote::{put_vote, vote_of};
pub use widths::{IDENTIFIER_ROOM, NAME_ROOM, WORD_ROOM};
