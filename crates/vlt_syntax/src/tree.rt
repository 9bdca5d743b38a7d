//! The tree: one type for each thing of the grammar, one variant for each form of it.
//!
//! A span goes from a thing's first byte to after its last.

use crate::name_text::NameText;
use vlt_base::{Boxed, Items, Span};
use vlt_ops::Op;

/// A file: declarations in the order of the text.
#[derive(Drop)]
pub struct Tree {
    pub decls: Items<Decl>,
}

/// A name. That of a variant's case has its `'` before it.
#[derive(Drop)]
pub struct Name {
    pub text: NameText,
    pub at: Span,
}

#[derive(Drop)]
pub enum Decl {
    /// `stateset name { a < b, c }`, with one state or more, each as often as it is written.
    StateSet {
        name: Name,
        states: Items<SetState>,
        at: Span,
    },
    /// `abstract name;` or `abstract name@states;`
    Abstract {
        name: Name,
        states: Option<Name>,
        at: Span,
    },
    /// `struct name<K, L: T> @ states { int x; release s; }`
    Struct {
        name: Name,
        params: Items<HeaderKey>,
        states: Option<Name>,
        fields: Items<Field>,
        release: Option<States>,
        at: Span,
    },
    /// `variant name<K: T> { 'A, 'B(int) { K@s } }`, with one case or more.
    Variant {
        name: Name,
        params: Items<HeaderKey>,
        cases: Items<Case>,
        at: Span,
    },
    /// `extern void f(int x);`
    Extern {
        head: Head,
        at: Span,
    },
    /// `void f(int x) { }`
    Function {
        head: Head,
        body: Block,
        at: Span,
    },
}

/// A state in the declaration of its set. `above` where a `<` leads to it from the state before it, which the first has not.
#[derive(Drop)]
pub struct SetState {
    pub name: Name,
    pub above: bool,
}

/// A key in a type's header, with the type of its object where one is given: `K` or `K: T`.
#[derive(Drop)]
pub struct HeaderKey {
    pub key: Name,
    pub key_type: Option<Name>,
}

/// `int x;` or `int x@s;`
#[derive(Drop)]
pub struct Field {
    pub ty: Ty,
    pub name: Name,
    pub states: Option<States>,
    pub at: Span,
}

/// A case of a variant: `'A`, `'A(int)`, `'A { K@s }`.
#[derive(Drop)]
pub struct Case {
    pub name: Name,
    pub payload: Items<Ty>,
    pub keys: Items<KeyStates>,
    pub at: Span,
}

/// `K` or `K@s`.
#[derive(Drop)]
pub struct KeyStates {
    pub key: Name,
    pub states: Option<States>,
}

/// `s` or `{ s, t }`, with one state or more.
#[derive(Drop)]
pub enum States {
    One(Name),
    Several(Items<Name>, Span),
}

/// The head of a function, which says how it is called. Its clause is the list between `[` and `]`.
#[derive(Drop)]
pub struct Head {
    pub result_type: ResultType,
    pub name: Name,
    pub parameters: Items<Parameter>,
    pub clause: Option<Items<Entry>>,
    pub at: Span,
}

/// What a function gives.
#[derive(Drop)]
pub enum ResultType {
    Void(Span),
    Value(Ty),
}

#[derive(Drop)]
pub struct Parameter {
    pub ty: Ty,
    pub name: Name,
}

/// An entry of a function's clause.
#[derive(Drop)]
pub enum Entry {
    /// `K` or `K@s`.
    Held(KeyStates),
    /// `K@s->t`.
    Changed {
        key: Name,
        before: States,
        after: States,
    },
    /// `K@(s <= b)`: held in whatever state up to the bound, which the variable stands for.
    Bound {
        key: Name,
        variable: Name,
        state: Name,
    },
    /// `-K` or `-K@s`.
    Taken(KeyStates, Span),
    /// `+K` or `+K@s`.
    Given(KeyStates, Span),
    /// `new K` or `new K@s`.
    Fresh(KeyStates, Span),
}

#[derive(Drop)]
pub enum Ty {
    Int(Span),
    Bool(Span),
    /// `tracked(K) T`.
    Tracked {
        key: Name,
        named: Named,
        at: Span,
    },
    /// `tracked T` or `tracked@s T`.
    Owning {
        states: Option<States>,
        named: Named,
        at: Span,
    },
    /// `K:T`.
    Guarded {
        key: Name,
        named: Named,
    },
    /// `T`.
    Plain(Named),
}

/// The name of a type with its key arguments: `T` or `T<K, L>`.
#[derive(Drop)]
pub struct Named {
    pub name: Name,
    pub keys: Items<Name>,
}

/// A list of statements between braces.
#[cycle(statements)]
#[derive(Drop)]
pub struct Block {
    pub stmts: Items<Stmt>,
    pub at: Span,
}

#[cycle(statements)]
#[derive(Drop)]
pub enum Stmt {
    /// `int x = 1;`
    Declare {
        ty: Ty,
        name: Name,
        value: Right,
        at: Span,
    },
    /// `x = 1;`
    Assign {
        name: Name,
        value: Right,
        at: Span,
    },
    /// `x.f = 1;`
    Put {
        base: Name,
        field: Name,
        value: Expr,
        at: Span,
    },
    /// `f(1);`
    Call(Call, Span),
    /// `print(1);`
    Print(Expr, Span),
    Block(Block),
    If(If),
    /// `while (c) { }`
    While {
        condition: Expr,
        body: Block,
        at: Span,
    },
    Break(Span),
    Continue(Span),
    /// `return;`, `return 1;` or `return 'A;`
    Return(Returned, Span),
    /// `switch (v) { case 'A: { } }`, with one arm or more.
    Switch {
        variable: Name,
        arms: Items<Arm>,
        at: Span,
    },
    /// `release x;`
    Release(Name, Span),
    /// `become x@s;`
    Become {
        variable: Name,
        state: Name,
        at: Span,
    },
    /// `swap x.f, v;`
    Swap {
        base: Name,
        field: Name,
        variable: Name,
        at: Span,
    },
    /// `open x into (v, w);`, with one variable or more.
    Open {
        variable: Name,
        parts: Items<Name>,
        at: Span,
    },
    /// `focus y as tracked(K) z { }`
    Focus {
        variable: Name,
        key: Name,
        alias: Name,
        body: Block,
        at: Span,
    },
}

/// `if (c) { }`, with what stands after `else`.
#[cycle(statements)]
#[derive(Drop)]
pub struct If {
    pub condition: Expr,
    pub then_block: Block,
    pub otherwise: Else,
    pub at: Span,
}

#[cycle(statements)]
#[derive(Drop)]
pub enum Else {
    Nothing,
    Last(Block),
    Chained(Boxed<If>),
}

/// `case 'A(v, w): { }`
#[cycle(statements)]
#[derive(Drop)]
pub struct Arm {
    pub case: Name,
    pub variables: Items<Name>,
    pub body: Block,
    pub at: Span,
}

/// What a `return` gives.
#[derive(Drop)]
pub enum Returned {
    Nothing,
    Value(Expr),
    Build(Build),
}

/// The right side of a declaration or an assignment.
#[derive(Drop)]
pub enum Right {
    Value(Expr),
    Build(Build),
    Call(Call),
    /// `input()`
    Input(Span),
    /// `more()`
    More(Span),
    /// `new T { f: 1 }` or `new(r) T { f: 1 }`
    New {
        owner: Option<Name>,
        named: Named,
        fields: Items<Init>,
        at: Span,
    },
    /// `adopt x into r`
    Adopt {
        variable: Name,
        owner: Name,
        at: Span,
    },
}

/// A value of a variant: `'A` or `'A(1, 2)`.
#[derive(Drop)]
pub struct Build {
    pub case: Name,
    pub payload: Items<Expr>,
    pub at: Span,
}

/// `f(1, 2)`
#[derive(Drop)]
pub struct Call {
    pub function: Name,
    pub arguments: Items<Expr>,
    pub at: Span,
}

/// A field of a `new` with its value: `f: 1`.
#[derive(Drop)]
pub struct Init {
    pub field: Name,
    pub value: Expr,
}

#[cycle(expressions)]
#[derive(Drop)]
pub enum Expr {
    Number(i64, Span),
    True(Span),
    False(Span),
    Variable(Name),
    /// `x.f`
    Field {
        base: Name,
        field: Name,
    },
    /// An expression in parentheses.
    Group(Boxed<Expr>, Span),
    /// An operator before its operand.
    Unary {
        op: Op,
        operand: Boxed<Expr>,
        at: Span,
    },
    /// An operator between its operands.
    Binary {
        op: Op,
        operands: Boxed<Operands>,
        at: Span,
    },
}

/// What stands on both sides of an operator.
#[cycle(expressions)]
#[derive(Drop)]
pub struct Operands {
    pub left: Expr,
    pub right: Expr,
}
