//! Values, objects, frames and worlds, as the definition of runs has them.

use vlt_base::{Items, TypeId};

/// A number, where a bool is 0 or 1; a reference that may be copied; or an object that the value owns. An object goes by
/// its position in the list of all objects.
#[derive(Clone, Copy)]
pub enum Part {
    Number(i64),
    Reference(usize),
    Owned(usize),
}

#[derive(Drop)]
pub enum Value {
    One(Part),
    /// Of a variant: its case, its payload, and the objects of its case's keys.
    OfCase {
        case: u8,
        parts: Items<Part>,
        keys: Items<usize>,
    },
}

/// Who has an object.
#[derive(Clone, Copy)]
pub enum Owner {
    /// The running function at this depth, under a key.
    Held { depth: u32, key: u32 },
    /// The running function at this depth, while a focus has lent it.
    Lent { depth: u32, key: u32 },
    /// A value that owns it.
    Loose,
    /// An owning field of an object.
    Inside(usize),
    /// The object that adopted it.
    AdoptedBy(usize),
    /// The host.
    Out,
    /// Nobody, since it was released.
    Gone,
}

#[derive(Drop)]
pub struct Object {
    pub type_id: TypeId,
    pub state: u8,
    pub cells: Items<Value>,
    pub owner: Owner,
}

/// An object with its position.
#[derive(Clone, Copy)]
pub struct Named<'a> {
    pub number: usize,
    pub object: &'a Object,
}

/// A running function's depth, the value of each variable that has one, and the object that each key names.
#[derive(Drop)]
pub struct Frame {
    pub depth: u32,
    pub vars: Items<Option<Value>>,
    pub keys: Items<Option<usize>>,
}

/// What a run writes.
#[derive(Drop)]
pub enum Event {
    Printed(i64),
    /// A call of an external with its arguments.
    Called { name: Items<u8>, args: Items<Value> },
}

/// Objects stand in order of creation, and none is ever taken out.
#[derive(Drop)]
pub struct World {
    pub objects: Vec<Object>,
    pub fuel: u64,
    /// The next number is the last one.
    pub input: Items<i64>,
    /// The next answer is the last one; its numbers stand in order.
    pub answers: Items<Items<i64>>,
    /// How many answers were taken.
    pub taken: u64,
    pub events: Vec<Event>,
}
