//! The operators: an operator and its operands go in, the number that it gives comes out, or why it gives none.
//! Read `specs/Operator.antt` first; the rows stand once, in the macro `operators!`, for all code on each operator.
//! Used by: the parser, the runs of the source and of C, and what is written for operators.
#![tactic(auto)]

ghost use Rattle.std.specs.Prelude.{◌≡◌, if◌then◌else◌, ok_or, pos};
ghost use Rattle.vlt_ops.specs.Operator.{applied, bool_number, equals, is_true, row_of, trap_number};

mod rows;
/// An operator. `-` is `Negate` before one operand and `Subtract` between two.
#[derive(Clone, Copy, Debug, PartialEq, Eq, Hash)]
pub enum Op {
    Negate,
    Not,
    Multiply,
    Divide,
    Remainder,
    Add,
    Subtract,
    Less,
    LessOrEqual,
    Greater,
    GreaterOrEqual,
    Equal,
    NotEqual,
    BitAnd,
    BitXor,
    BitOr,
    And,
    Or,
}

/// What the operands of an operator are. `Either` stands for two ints or two bools.
#[derive(Clone, Copy, Debug, PartialEq, Eq, Hash)]
pub enum Takes {
    Int,
    Bool,
    Either,
}

/// Why an operator gives no value.
#[derive(Clone, Copy, Debug, PartialEq, Eq, Hash)]
pub enum TrapKind {
    /// The value is out of the range of 64 bits. A remainder traps where its quotient is.
    Overflow = 1,
    /// A quotient or a remainder by 0.
    ZeroDivisor = 2,
}

impl TrapKind {
    /// The number by which the trap is told, 1 or 2.
    pub fn number(self) -> u8
        ensures { result ≡ trap_number self }
    {
        self as u8
    }
}

/// One row of the table.
#[derive(Clone, Copy, Debug)]
pub struct OpRow {
    /// The operator's place in the table, from 0.
    pub number: u8,
    pub sign: &'static str,
    /// How many operands it has, 1 or 2.
    pub arity: u8,
    /// How tightly it binds, from 2 to 11. The higher level binds tighter.
    pub level: u8,
    pub takes: Takes,
    /// Whether it gives an int, and not a bool.
    pub gives_int: bool,
}

/// A table of operators, each at its number.
#[derive(Clone, Copy)]
pub struct OpTable<const N: usize> {
    pub rows: [OpRow; N],
}

macro_rules! table {
    (() $($arity:tt { $($op:ident = $number:tt, $sign:tt, $level:tt, $takes:ident -> $gives:ident, $how:ident $by:tt;)* })*) => {
        OpTable {
            rows: [
                $($(OpRow {
                    number: $number,
                    sign: $sign,
                    arity: $arity,
                    level: $level,
                    takes: Takes::$takes,
                    gives_int: is_int!($gives),
                },)*)*
            ],
        }
    };
}

macro_rules! is_int {
    (Int) => { true };
    (Bool) => { false };
}

/// The operators of the language.
pub const TABLE: OpTable<18> = operators!(table!());

macro_rules! row_at {
    (($at:expr) $($arity:tt { $($op:ident = $number:tt, $sign:tt, $level:tt, $takes:ident -> $gives:ident, $how:ident $by:tt;)* })*) => {
        match $at {
            $($(Op::$op => OpRow {
                number: $number,
                sign: $sign,
                arity: $arity,
                level: $level,
                takes: Takes::$takes,
                gives_int: is_int!($gives),
            },)*)*
        }
    };
}

/// The row of an operator in `TABLE`.
pub fn row(op: Op) -> OpRow
    ensures number { result.number ≡ (row_of op).number }
    ensures sign { result.sign.now ≡ (row_of op).sign }
    ensures arity { result.arity ≡ (row_of op).arity }
    ensures level { result.level ≡ (row_of op).level }
    ensures takes { result.takes ≡ (row_of op).takes }
    ensures gives_int { result.gives_int ≡ (row_of op).gives_int }
{
    operators!(row_at!(op))
}

macro_rules! apply_each {
    (($applied:expr, $a:ident, $b:ident)
    $($arity:tt { $($op:ident = $number:tt, $sign:tt, $level:tt, $takes:ident -> $gives:ident, $how:ident $by:tt;)* })*) => {
        match $applied {
            $($(Op::$op => answer!($arity $how $by, $a, $b),)*)*
        }
    };
}

macro_rules! answer {
    (1 fits $method:ident, $a:ident, $b:ident) => { fit($a.$method()) };
    (2 fits $method:ident, $a:ident, $b:ident) => { fit($a.$method($b)) };
    (2 divides $method:ident, $a:ident, $b:ident) => { divide($b, $a.$method($b)) };
    (2 compares $sign:tt, $a:ident, $b:ident) => { Ok(to_number($a $sign $b)) };
    (2 combines $sign:tt, $a:ident, $b:ident) => { Ok($a $sign $b) };
    (1 decides $sign:tt, $a:ident, $b:ident) => { Ok(to_number($sign to_bool($a))) };
    (2 decides $sign:tt, $a:ident, $b:ident) => { Ok(to_number(to_bool($a) $sign to_bool($b))) };
}

/// What the operator gives for `a` and `b`, or why it traps. A bool is 0 or 1, and every number but 0 is true.
/// An operator with one operand ignores `b`.
#[inline(always)]
pub fn apply(op: Op, a: i64, b: i64) -> Result<i64, TrapKind>
    ensures { result ≡ applied op a b }
{
    operators!(apply_each!(op, a, b))
}

fn to_bool(a: i64) -> bool
    ensures { result ≡ is_true a }
{
    a != 0
}

fn to_number(b: bool) -> i64
    ensures { result ≡ bool_number b }
{
    i64::from(b)
}

fn fit(value: Option<i64>) -> Result<i64, TrapKind>
    ensures { result ≡ ok_or value TrapKind.Overflow }
{
    value.ok_or(TrapKind::Overflow)
}

/// A quotient or a remainder by `b`, where there is one.
fn divide(b: i64, value: Option<i64>) -> Result<i64, TrapKind>
    ensures { result ≡ ok_or value (if equals b
        (pos 0) then TrapKind.ZeroDivisor else TrapKind.Overflow) }
{
    value.ok_or(if b == 0 {
        TrapKind::ZeroDivisor
    } else {
        TrapKind::Overflow
    })
}
