//! The limits of the product. Each has a number, which is what a report of it shows.

ghost use Rattle.std.specs.Prelude.{◌≡◌, ◌≤◌};
ghost use Rattle.vlt_base.specs.Limits.{limit_of};

/// Bytes of a source, input or answers file.
pub const SOURCE_BYTES: u8 = 1;

/// Bytes of a C file.
pub const C_BYTES: u8 = 2;

pub const TOKENS: u8 = 3;

pub const DECLARATIONS: u8 = 4;

/// States of a set.
pub const STATES: u8 = 5;

/// Fields of a struct.
pub const FIELDS: u8 = 6;

/// Cases of a variant.
pub const CASES: u8 = 7;

/// Payload types of a case.
pub const PAYLOADS: u8 = 8;

/// Parameters of a function, and of a type's header.
pub const PARAMETERS: u8 = 9;

/// Variables of a function, hidden ones included.
pub const VARIABLES: u8 = 10;

/// Keys of a function, hidden ones included.
pub const KEYS: u8 = 11;

/// Depth of blocks, and of an expression.
pub const DEPTH: u8 = 12;

/// Value slots of a machine.
pub const VALUE_SLOTS: u8 = 13;

/// Depth of C blocks.
pub const C_BLOCK_DEPTH: u8 = 14;

/// Depth of a C expression.
pub const C_EXPRESSION_DEPTH: u8 = 15;

/// The most that is taken of the quantity of this number, from 1 to 15.
pub fn limit(n: u8) -> u64
    requires from { 1 ≤ n }
    requires to { n ≤ 15 }
    ensures { result ≡ limit_of n }
{
    match n {
        SOURCE_BYTES => 1_048_576,
        C_BYTES => 67_108_864,
        TOKENS => 262_144,
        DECLARATIONS => 4_096,
        STATES | FIELDS | CASES => 32,
        PAYLOADS => 8,
        PARAMETERS => 16,
        VARIABLES | KEYS => 256,
        DEPTH => 64,
        VALUE_SLOTS => 16_777_216,
        C_BLOCK_DEPTH => 192,
        _ => 16,
    }
}
