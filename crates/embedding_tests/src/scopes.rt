//! Work in scopes.
use crate::objects::{Manager, Objects};
use dtx_values::{EnlistOption, IsoWord, ScopeOption, Timeout};
use outside::{MemClock, SureDisk};
use std::alloc::Global;
use transactions::{Ambient, CommitError, TransactionScope, Work};

/// Work that enlists a volatile in the transaction of its scope.
#[derive(Drop)]
struct EnlistsOne;

impl Work<SureDisk, MemClock, Objects, ()> for EnlistsOne {
    ghost does = { λ work manager scopes scope o r manager' scopes' o'. Unit {0} };

    fn run(
        self,
        manager: &mut Manager,
        _: &mut Ambient,
        s: &TransactionScope,
        _: &mut Objects,
    ) -> Result<(), CommitError> {
        let tx = s.transaction().ok_or(CommitError::Aborted)?;
        manager.enlist_volatile(tx, EnlistOption::Plain)?;
        Ok(())
    }
}

/// Two scopes, the first of which has no work to do; what came of both.
pub fn works(
    manager: &mut Manager,
    alloc: Global,
) -> Option<(Result<u32, CommitError>, Result<(), CommitError>)> {
    let (required, timeout, isolation) = (
        ScopeOption::Required,
        Timeout::Default,
        IsoWord::Default,
    );
    let mut o = Objects {
        heard: [0; 4],
        put_off: None,
    };
    let mut a = Ambient::new(alloc).ok()?;
    let s = manager
        .open_scope(&mut a, required, timeout, isolation)
        .ok()?;
    let finished = manager.finish(&mut a, s, Ok(7), &mut o);
    let worked = manager.in_scope(&mut a, required, timeout, isolation, &mut o, EnlistsOne);
    Some((finished, worked))
}
