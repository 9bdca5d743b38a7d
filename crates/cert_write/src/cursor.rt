//! How far a walk over a body has come.

/// The number of the next statement, and the position of the note that is looked at first for it.
#[derive(Clone, Copy)]
pub struct Cursor {
    pub next: usize,
    pub at: usize,
}
