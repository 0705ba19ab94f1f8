//! Why a context refuses.
use dtx_values::{Iso, ScopeNo};

/// Why a scope isn't opened, completed or closed, or the ambient transaction isn't given. The first that applies is given.
#[derive(Clone, Copy, PartialEq, Eq, Debug)]
pub enum ScopeRefusal {
    /// So many scopes are open: 64.
    TooDeep(u8),
    /// The isolation asked for, and that of the ambient transaction, which Required would join.
    IsolationDiffers(Iso, Iso),
    /// No such scope is open here.
    NoScope(ScopeNo),
    /// This scope is complete.
    AlreadyComplete(ScopeNo),
    /// This scope stands on the top, above the one that is closed.
    NestedWrongly(ScopeNo),
}
