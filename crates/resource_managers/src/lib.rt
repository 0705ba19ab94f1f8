//! What a transaction manager asks of a program's resource managers: that they hear notes ([`ResourceManager`]), and that they recover after a crash ([`Recoverable`]).
#![tactic(auto)]

mod enlistment;
mod held;
mod recoverable;
mod resource_manager;

pub use enlistment::Enlistment;
pub use held::Held;
pub use recoverable::Recoverable;
pub use resource_manager::ResourceManager;
