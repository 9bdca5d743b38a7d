//! Values.

use c_memory::Ref;

/// A value. A null reference goes to no block.
#[derive(Clone, Copy, Debug, PartialEq, Eq)]
pub enum Value {
    Number(i64),
    Reference(Option<Ref>),
}
