//! What variables hold.

/// What a variable holds.
#[derive(Clone, Copy)]
pub enum VariableKind {
    Int,
    Status,
    Request,
    Communicator,
}
