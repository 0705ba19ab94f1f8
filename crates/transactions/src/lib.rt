//! System.Transactions for a program of one's own: a transaction manager over a log on a disk.
//!
//! [`TransactionManager`] begins transactions, enlists resource managers in them, and commits or aborts each as one unit. A program's objects hear of it by
//! [`ResourceManager`], one call a note; a program that wants no objects asks by [`TransactionManager::next`] what comes next, and replies by [`TransactionManager::answer`].
//!
//! ```text
//! let mut manager = TransactionManager::create(alloc, disk, clock)?;
//! let scope = manager.open_scope(&mut ambient, ScopeOption::Required, timeout, isolation)?;
//! // The work: enlistments, and what is to be done as one unit.
//! let worked = work(&mut manager, &scope, &mut objects);
//! manager.finish(&mut ambient, scope, worked, &mut objects)
//! ```
//!
//! Neither a scope nor a transaction that its holder may commit can be dropped: a `?` between `open_scope` and `finish` doesn't compile.
//!
//! [`TransactionManager::open`] takes up the log of an earlier process. No number of a transaction comes twice in the life of a log ([`TransactionManager::begin`]). What an
//! earlier process left in doubt at a [`Recoverable`] is finished there ([`TransactionManager::recover`]). Another one asks what came of what it had
//! prepared ([`TransactionManager::recovered_outcome`]), and then says at a [`RecoveryDesk`] that it has recovered, which frees what nobody will ask for
//! ([`TransactionManager::recovery_complete`]).
//!
//! What holds of each transaction, on every disk: all that anybody was told in it has its cause, and no two were told opposite outcomes ([`TransactionManager::is_lawful`]).
#![tactic(auto)]

mod ambient;
mod desk;
mod error;
mod event;
mod finishing;
mod handle;
mod kind;
mod live;
mod manager;
mod recovered;
mod recovering;
mod usage;
mod work;

pub use ambient::Ambient;
pub use desk::RecoveryDesk;
pub use error::{CommitError, OpenError, ScopeError, TxError};
pub use event::{Event, Next};
pub use handle::{CommittableTransaction, DependentTransaction, Phases, TransactionScope};
pub use kind::Kind;
pub use manager::TransactionManager;
pub use recovered::{Finished, RecoverRefusal, Recovered};
pub use resource_managers::{Enlistment, Held, Recoverable, ResourceManager};
pub use work::Work;
