//! The rules on names and types by name. Each has a number, which is what a refusal shows.
//!
//! Rules 1 to 6 are on declared names, 7 to 17 on declared types, 18 to 26 on heads, and 27 to 44 on bodies; 7 to 13
//! and 18 hold of each type wherever it stands. Rule 45 is on declared state sets, 46 on heads.

/// No function with a body is named `main`.
pub const NO_MAIN: u8 = 1;

/// A global name is declared twice.
pub const DECLARED_AGAIN: u8 = 2;

/// A state, field, case or header key is repeated in its declaration.
pub const REPEATED_PART: u8 = 3;

/// The name of an external isn't ASCII.
pub const EXTERN_NOT_ASCII: u8 = 4;

/// A header key has a global name.
pub const HEADER_KEY_TAKEN: u8 = 5;

/// `@` is followed by a name under which no state set is declared.
pub const NOT_A_SET: u8 = 6;

/// A type is named that isn't declared.
pub const NOT_A_TYPE: u8 = 7;

/// The number of key arguments isn't the header's.
pub const KEY_COUNT: u8 = 8;

/// A key in a field's or payload's type isn't one of the header.
pub const KEY_NOT_IN_HEADER: u8 = 9;

/// A prefix doesn't suit its type: `tracked(K)` and `tracked@S` are for structs and abstract types, `K:` for structs.
pub const WRONG_PREFIX: u8 = 10;

/// An owning variant is written without `tracked`, or another variant with it.
pub const WRONG_OWNERSHIP: u8 = 11;

/// A struct or an abstract type stands alone.
pub const BARE_OBJECT: u8 = 12;

/// A state isn't in the set that the type has, is said twice in one list, or is said of a type that has no set.
pub const NOT_A_STATE: u8 = 13;

/// A field has a type that no field may have: `tracked(K)`, or a keyed variant.
pub const FIELD_TYPE: u8 = 14;

/// A payload is neither int, bool nor guarded, nor an owning struct or abstract type.
pub const PAYLOAD_TYPE: u8 = 15;

/// A case lists a key that isn't one of the header or has no type there, or one key twice.
pub const CASE_KEY: u8 = 16;

/// The type of a header key is a variant.
pub const HEADER_TYPE: u8 = 17;

/// The type of a key argument isn't the header's.
pub const KEY_ARGUMENT: u8 = 18;

/// Two things in a head have one name, or one has a global name. A key may stand there more than once as a key.
pub const HEAD_NAME: u8 = 19;

/// One key has two types.
pub const TWO_KEY_TYPES: u8 = 20;

/// A clause names a key twice.
pub const CLAUSE_KEY_AGAIN: u8 = 21;

/// A key of a clause, a `new` one aside, is in no type of a parameter.
pub const CLAUSE_KEY_UNBOUND: u8 = 22;

/// `new` stands on a key that isn't the one of a `tracked(K)` result, or on more than one; or the result has a key, no
/// `new` one, that no parameter's type has.
pub const RESULT_KEY: u8 = 23;

/// States stand on a key without a type.
pub const STATES_UNTYPED: u8 = 24;

/// An external has a parameter or a result that no host gives or takes, or a clause key or a result's case key that no
/// `tracked(K)` parameter has.
pub const EXTERN_HEAD: u8 = 25;

/// `main` has a parameter, or is neither without result and clause nor `tracked(K) T` with just `new K`.
pub const MAIN_HEAD: u8 = 26;

/// A variable, function, field or key isn't known.
pub const UNKNOWN_NAME: u8 = 27;

/// A name that is bound is in scope, or is a global name.
pub const NAME_TAKEN: u8 = 28;

/// An expression, operand, target or argument is of another type than is wanted.
pub const WRONG_TYPE: u8 = 29;

/// There are too few or too many arguments, payloads or opened variables, or the fields of a `new` aren't the struct's.
pub const WRONG_COUNT: u8 = 30;

/// At a call two keys of the callee's clause mean the same key of the caller.
pub const CLAUSE_KEYS_MEET: u8 = 31;

/// One key of a callee would stand for two names.
pub const TWO_CALLER_KEYS: u8 = 32;

/// A call drops an owning result or a fresh key.
pub const DROPPED_RESULT: u8 = 33;

/// A statement stands after one that ends.
pub const AFTER_END: u8 = 34;

/// The body of a function with a result doesn't end.
pub const NO_END: u8 = 35;

/// A `break` or `continue` stands outside a loop or leaves a focus, or a `return` stands in a focus.
pub const WRONG_JUMP: u8 = 36;

/// A `switch` is on no variant, or a case is missing, repeated or unknown.
pub const WRONG_SWITCH: u8 = 37;

/// A `become` is on anything but a `tracked(K)` variable of a struct.
pub const WRONG_BECOME: u8 = 38;

/// What is released can't be, what is opened is no `tracked(K)` struct, or what is adopted is no droppable struct.
pub const WRONG_RELEASE: u8 = 39;

/// A guarded object's field isn't permitted in all states in which the object may be released.
pub const GUARDED_FIELD: u8 = 40;

/// A `new` is of a type that isn't a struct, or where its first state isn't allowed.
pub const WRONG_NEW: u8 = 41;

/// A `swap` is on no `tracked(K)` variable or on no owning field, or an owning field is read or assigned.
pub const WRONG_SWAP: u8 = 42;

/// The key that is returned for a `new` key is a clause key that is held after.
pub const RETURNED_KEY: u8 = 43;

/// A `return` has a value where the function gives none, or none where it gives one.
pub const WRONG_RETURN: u8 = 44;

/// In a state set `<` leads from a state to itself.
pub const ORDER_LOOP: u8 = 45;

/// A clause has a second bound entry, or its state variable has the name of something else.
pub const SECOND_BOUND: u8 = 46;
