/// Hands the rows of the table to the macro that it names, after what stands in that macro's parentheses.
/// So code for each operator is written once, over the rows:
///
/// ```
/// macro_rules! level_between {
///     (($sign:expr) 1 $prefix:tt 2 {
///         $($op:ident = $number:tt, $text:tt, $level:tt, $takes:ident -> $gives:ident, $how:ident $by:tt;)*
///     }) => {
///         match $sign { $($text => Some((Op::$op, $level)),)* _ => None }
///     };
/// }
///
/// vlt_ops::operators!(level_between!(sign))
/// ```
///
/// The rows stand in two groups, `1 { .. }` of those with one operand and `2 { .. }` of those with two. A row is the
/// operator with its number, sign and level, what it takes and gives, and how it is computed:
///
/// | How | The value | Traps |
/// |---|---|---|
/// | `fits METHOD` | what the checked method of `i64` gives | where that is out of range |
/// | `divides METHOD` | the same | for the divisor 0, and where the quotient is out of range |
/// | `compares SIGN`, `combines SIGN` | what the sign gives for two `i64` | never |
/// | `decides SIGN` | what the sign gives for the operands as bools | never |
#[macro_export]
macro_rules! operators {
    ($with:ident!($($context:tt)*)) => {
        $with! {
            ($($context)*)
            1 {
                Negate = 0, "-", 11, Int -> Int, fits checked_neg;
                Not = 1, "!", 11, Bool -> Bool, decides !;
            }
            2 {
                Multiply = 2, "*", 10, Int -> Int, fits checked_mul;
                Divide = 3, "/", 10, Int -> Int, divides checked_div;
                Remainder = 4, "%", 10, Int -> Int, divides checked_rem;
                Add = 5, "+", 9, Int -> Int, fits checked_add;
                Subtract = 6, "-", 9, Int -> Int, fits checked_sub;
                Less = 7, "<", 8, Int -> Bool, compares <;
                LessOrEqual = 8, "<=", 8, Int -> Bool, compares <=;
                Greater = 9, ">", 8, Int -> Bool, compares >;
                GreaterOrEqual = 10, ">=", 8, Int -> Bool, compares >=;
                Equal = 11, "==", 7, Either -> Bool, compares ==;
                NotEqual = 12, "!=", 7, Either -> Bool, compares !=;
                BitAnd = 13, "&", 6, Int -> Int, combines &;
                BitXor = 14, "^", 5, Int -> Int, combines ^;
                BitOr = 15, "|", 4, Int -> Int, combines |;
                And = 16, "&&", 3, Bool -> Bool, decides &&;
                Or = 17, "||", 2, Bool -> Bool, decides ||;
            }
        }
    };
}
