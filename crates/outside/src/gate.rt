// A place at which a reply may be held on its way.

/// A place that each reply on threads goes by on its way, where a test may hold it. A definition of this project.
pub trait Gate {
    /// Called between a delivery to enlistment `e` of transaction `t` and its reply, while the caller holds no
    /// lock. The numbers are those of their names. Nothing is promised of it but that it is called.
    fn at(&self, t: u16, e: u16);
}

/// A gate that holds nothing. A definition of this project.
#[derive(Clone, Copy, Debug, PartialEq, Eq)]
pub struct OpenGate;

impl Gate for OpenGate {
    fn at(&self, _t: u16, _e: u16) {}
}
