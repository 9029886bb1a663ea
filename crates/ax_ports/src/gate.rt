/// Where an actor stands before it handles a batch, outside of every lock.
pub trait Gate {
    /// Called with the actor's number.
    fn enter(&self, actor: u32);
}

/// A gate that does nothing.
#[derive(Clone, Copy, Debug, PartialEq, Eq)]
pub struct OpenGate;

impl Gate for OpenGate {
    fn enter(&self, _actor: u32) {}
}
