//! The ways out of statements.

/// The way out of a statement.
#[derive(Drop)]
pub enum Flow {
    Next,
    Broke,
    Again,
    Back(i32),
}
