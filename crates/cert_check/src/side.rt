//! Which of a statement's maps.

/// Which of a statement's maps: at the head of a loop, or after a loop or a choice.
#[derive(Clone, Copy)]
pub enum Side {
    Around,
    Following,
}
