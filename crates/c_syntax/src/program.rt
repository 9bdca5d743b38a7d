//! The tree of a C program: one type for each thing of its grammar, one variant for each form of it.

ghost use Rattle.std.specs.Prelude.{◌≡◌};
ghost use Rattle.c_syntax.specs.Tokens.{prim_text};

use vlt_base::{Boxed, Items};
use vlt_ops::Op;

/// A C program.
#[derive(Drop)]
pub struct CProgram {
    /// The functions `e0`, `e1`, .. that stand for externals, in the order of their bodies.
    pub glue: Items<CFunc>,
    /// The functions `f0`, `f1`, .., in the order of their bodies.
    pub fns: Items<CFunc>,
    /// The position in `fns` of the function that a run begins with.
    pub main: u32,
}

/// A function: `long long f0 ( long long n0 ) { vr_ref p0 ; return n0 ; }`.
#[derive(Drop)]
pub struct CFunc {
    /// The number after the letter of its name.
    pub number: u64,
    pub result: CResult,
    /// The parameters, in the order of the text.
    pub params: Items<CVar>,
    /// The variables that the body declares, those of numbers first, both ascending.
    pub vars: Items<CVar>,
    pub body: Items<CStmt>,
}

/// What a function gives.
#[derive(Clone, Copy, Debug, PartialEq, Eq)]
pub enum CResult {
    /// `void`
    Nothing,
    /// `long long`
    Number,
    /// `vr_ref`
    Reference,
}

/// A variable: `n0` of type `long long`, or `p0` of type `vr_ref`. In order come the `n` variables first.
#[derive(Clone, Copy, Debug, PartialEq, Eq, PartialOrd, Ord)]
pub struct CVar {
    /// Whether it is a `p` variable.
    pub reference: bool,
    pub number: u64,
}

/// The name of a function: `f0`, or `e0` of glue.
#[derive(Clone, Copy, Debug, PartialEq, Eq)]
pub struct CName {
    /// Whether it is an `e` name.
    pub glue: bool,
    pub number: u64,
}

/// A statement.
#[derive(Drop)]
pub enum CStmt {
    /// `n0 = 1 ;`
    Set(CVar, CExpr),
    /// `n0 = f0 ( ) ;`
    SetCall(CVar, CCall),
    /// `f0 ( ) ;`
    Call(CCall),
    /// `p0 -> n [ 0 ] = 1 ;`
    Put(CCell, CExpr),
    /// `if ( n0 ) { }`
    If(CExpr, Items<CStmt>),
    /// `if ( n0 ) { } else { }`
    IfElse(CExpr, Items<CStmt>, Items<CStmt>),
    /// `while ( 1 ) { }`
    While(Items<CStmt>),
    /// `break ;`
    Break,
    /// `continue ;`
    Continue,
    /// `return ;` or `return 1 ;`
    Return(Option<CExpr>),
}

/// A cell of the block that the `p` variable of the number `base` refers to.
#[derive(Clone, Copy, Debug, PartialEq, Eq)]
pub enum CCell {
    /// `p0 -> n [ 0 ]`
    Number { base: u64, index: u64 },
    /// `p0 -> r [ 0 ]`
    Reference { base: u64, index: u64 },
}

/// A call.
#[derive(Drop)]
pub enum CCall {
    /// `f0 ( 1 , n0 )` or `e0 ( )`
    Function(CName, Items<CArg>),
    /// `vr_new ( 1 , 0 )`
    Primitive(CPrim, Items<CArg>),
}

/// A primitive of the runtime.
#[derive(Clone, Copy, Debug, PartialEq, Eq)]
pub enum CPrim {
    New,
    Own,
    Disown,
    Parent,
    Release,
    Trap,
    Print,
    Read,
    More,
    PutN,
    GetN,
    PutP,
    GetP,
    Call,
    ArgN,
    ArgP,
    Ask,
    Int,
    Pick,
    Out,
    Back,
    End,
}

impl CPrim {
    /// Each primitive once.
    pub const ALL: [CPrim; 22] = [
        CPrim::New,
        CPrim::Own,
        CPrim::Disown,
        CPrim::Parent,
        CPrim::Release,
        CPrim::Trap,
        CPrim::Print,
        CPrim::Read,
        CPrim::More,
        CPrim::PutN,
        CPrim::GetN,
        CPrim::PutP,
        CPrim::GetP,
        CPrim::Call,
        CPrim::ArgN,
        CPrim::ArgP,
        CPrim::Ask,
        CPrim::Int,
        CPrim::Pick,
        CPrim::Out,
        CPrim::Back,
        CPrim::End,
    ];

    /// Its name.
    pub fn text(self) -> &'static str
        ensures { result.now ≡ prim_text self }
    {
        match self {
            CPrim::New => "vr_new",
            CPrim::Own => "vr_own",
            CPrim::Disown => "vr_disown",
            CPrim::Parent => "vr_parent",
            CPrim::Release => "vr_release",
            CPrim::Trap => "vr_trap",
            CPrim::Print => "vr_print",
            CPrim::Read => "vr_read",
            CPrim::More => "vr_more",
            CPrim::PutN => "vr_put_n",
            CPrim::GetN => "vr_get_n",
            CPrim::PutP => "vr_put_p",
            CPrim::GetP => "vr_get_p",
            CPrim::Call => "vr_call",
            CPrim::ArgN => "vr_arg_n",
            CPrim::ArgP => "vr_arg_p",
            CPrim::Ask => "vr_ask",
            CPrim::Int => "vr_int",
            CPrim::Pick => "vr_pick",
            CPrim::Out => "vr_out",
            CPrim::Back => "vr_back",
            CPrim::End => "vr_end",
        }
    }
}

/// An argument.
#[derive(Drop)]
pub enum CArg {
    Number(i64),
    Var(CVar),
    /// `vr_null`
    Null,
    /// A name between quotes.
    Text(Items<u8>),
}

/// An expression.
#[derive(Drop)]
pub enum CExpr {
    Number(i64),
    Var(CVar),
    Cell(CCell),
    /// `vr_null`
    Null,
    /// `( - n0 )` or `( ! n0 )`
    Unary(Op, Boxed<CExpr>),
    /// `( n0 + 1 )`
    Binary(Op, Boxed<CExpr>, Boxed<CExpr>),
}
