//! What is known of a key of a head.

/// A type that a place gives to a key, and that place as a byte of the source counted from 0.
#[derive(Clone, Copy)]
pub struct Typing {
    pub type_id: u32,
    pub at: u32,
}

/// Where a key of a head stands, and the type of its object.
#[derive(Clone, Copy)]
pub struct Facts {
    /// By its first place in the text, from 0.
    pub number: u32,
    pub in_result: bool,
    pub in_result_again: bool,
    /// The result is `tracked(K)` of it.
    pub is_result_key: bool,
    pub in_parameters: bool,
    /// A parameter is `tracked(K)` of it.
    pub is_tracked_parameter: bool,
    /// An unknown name in a parameter leaves open of which type its object is.
    pub is_left_open: bool,
    pub in_clause: bool,
    pub in_clause_again: bool,
    /// The clause has it as `new`.
    pub is_fresh: bool,
    pub typing: Option<Typing>,
}
