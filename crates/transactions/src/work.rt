//! The work that a program does in a scope.
use crate::ambient::Ambient;
use crate::error::CommitError;
use crate::handle::TransactionScope;
use crate::manager::TransactionManager;
use outside::{Clock, Disk};
use resource_managers::ResourceManager;

/// The work that a program does in a scope. Its meaning is the relation `does`: the work; the manager, the open scopes, its scope and the objects before it; what it comes to; and the
/// manager, the open scopes and the objects after it.
pub trait Work<D: Disk + Drop, C: Clock + Drop, O: ResourceManager, T>: Drop {
    ghost use Rattle.std.specs.Prelude.{Result};
    ghost use Rattle.scope_context.specs.Standing.{Standing as Scopes};
    ghost use Rattle.transactions.specs.declared.error.CommitError.{CommitError};
    ghost use Rattle.transactions.specs.declared.handle.TransactionScope.{TransactionScope};
    ghost use Rattle.transactions.specs.Slots.{Standing as Manager};

    ghost does: { Self → Manager D C → Scopes → TransactionScope → O → Result T CommitError → Manager D C → Scopes → O → Type 0 };

    /// Does the work.
    ///
    /// # Errors
    ///
    /// The work isn't done, and its transaction is to be rolled back.
    fn run(
        self,
        manager: &mut TransactionManager<D, C>,
        a: &mut Ambient,
        s: &TransactionScope,
        o: &mut O,
    ) -> Result<T, CommitError>
        ensures { does self manager.old a.old s.now o.old result manager.new a.new o.new };
}
