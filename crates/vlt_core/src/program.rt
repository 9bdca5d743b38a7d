//! The core program: what a source file becomes once its names are numbers.
//!
//! Types, functions, keys, variables and fields go by their positions, from 0. A place is a byte of the source, counted
//! from 0; in a program that comes from a certificate each place is 0.

use crate::held::Tok;
use vlt_base::{Boxed, FnId, Items, KeyId, SetId, StateSet, TypeId, VarId};
use vlt_ops::Op;

/// A program. Sets, types and functions stand in the order of the text.
#[derive(Drop)]
pub struct Program {
    pub sets: Items<SetDecl>,
    pub types: Items<TypeDecl>,
    pub fns: Items<Func>,
    /// The function that a run begins with.
    pub main: FnId,
}

/// `stateset conn { raw, ready }`
#[derive(Drop)]
pub struct SetDecl {
    pub name: Items<u8>,
    pub states: Items<Items<u8>>,
    /// The links as written; none of a set without order.
    pub links: Items<Link>,
}

/// `low < mid` in a set: the first state stands right below the second one.
#[derive(Clone, Copy, Debug, PartialEq, Eq)]
pub struct Link {
    pub lower: u8,
    pub upper: u8,
}

/// A declared type. In its fields and cases a `KeyId` is the position of a key of the header. The header has for each of
/// its keys the type of the key's object, where one is given.
#[derive(Drop)]
pub enum TypeDecl {
    /// `abstract sock@conn;`
    Abstract {
        name: Items<u8>,
        set: Option<SetId>,
    },
    /// `struct cell<K: region>@ab { int v; release a; }`, where `release` has the states in which an object may be released
    Struct {
        name: Items<u8>,
        header: Items<Option<TypeId>>,
        set: Option<SetId>,
        release: StateSet,
        fields: Items<FieldDecl>,
    },
    /// `variant status<K: sock> { 'Ok { K@named }, 'Error(int) { K@raw } }`
    Variant {
        name: Items<u8>,
        header: Items<Option<TypeId>>,
        cases: Items<CaseDecl>,
    },
}

/// `tracked list next@{ a, b };`
#[derive(Drop)]
pub struct FieldDecl {
    pub name: Items<u8>,
    pub ty: Ty,
    /// The states in which the field may be touched.
    pub states: StateSet,
}

/// A case of a variant. Its name is what follows the tick.
#[derive(Drop)]
pub struct CaseDecl {
    pub name: Items<u8>,
    pub payload: Items<Ty>,
    /// The keys that it lists, by their positions in the header, each with the states of its object.
    pub keys: Items<(u32, StateSet)>,
}

/// The type of a field, a payload, a result or a variable. The list of keys says what stands for the header's keys.
#[derive(Drop)]
pub enum Ty {
    /// A signed number of 64 bits.
    Int,
    Bool,
    /// `tracked(K) T`: a reference to an object that is touched only while K is held.
    Key(KeyId, TypeId, Items<KeyId>),
    /// `tracked@S T`: a value that owns an object in one of these states.
    Own(StateSet, TypeId, Items<KeyId>),
    /// `K:T`: a reference to an object that the object of K adopted.
    Guard(KeyId, TypeId, Items<KeyId>),
    /// A variant that is copied.
    Var(TypeId, Items<KeyId>),
    /// `tracked V`: a variant that owns objects.
    OwnVar(TypeId, Items<KeyId>),
}

/// A function, or an external.
#[derive(Drop)]
pub struct Func {
    pub name: Items<u8>,
    /// An external has an empty body and the `end` 0.
    pub external: bool,
    pub result: Option<Ty>,
    /// So many of the first variables are the parameters.
    pub params: u32,
    pub clause: Items<Entry>,
    /// The keys, in order of binding.
    pub keys: Items<KeyDecl>,
    /// The variables, in order of binding.
    pub vars: Items<VarDecl>,
    pub body: Items<Stmt>,
    /// The place of the body's closing brace.
    pub end: u32,
}

/// An entry of a clause. A side is `None` where the key is absent on it, and where the entry names no states.
#[derive(Clone, Copy, Debug, PartialEq, Eq)]
pub struct Entry {
    pub mode: Mode,
    pub key: KeyId,
    pub before: Option<StateSet>,
    pub after: Option<StateSet>,
}

/// Where the key of an entry is held.
#[derive(Clone, Copy, Debug, PartialEq, Eq)]
pub enum Mode {
    /// `K`: before the call and after it.
    Kept,
    /// `-K`: before it.
    Taken,
    /// `+K`: after it.
    Given,
    /// `new K`: after it, for an object that the call makes.
    New,
    /// `K@(s <= b)`: before it, in any state up to this one, and after it, in the state that it had. Both sides are `None`.
    Bound(u8),
}

#[derive(Drop)]
pub struct KeyDecl {
    /// Empty for a hidden key.
    pub name: Items<u8>,
    /// The type of the key's object, where one is given.
    pub key_type: Option<TypeId>,
}

#[derive(Drop)]
pub struct VarDecl {
    /// Empty for a hidden variable.
    pub name: Items<u8>,
    pub ty: Ty,
}

/// What is handed over.
#[derive(Drop)]
pub enum Operand {
    /// The value of an expression.
    Pure(Expr),
    /// The value of an owning variable, which is empty after it.
    Move(VarId),
    /// The object of a tracked variable, in one of these states, whose key is gone after it.
    Pack(VarId, StateSet),
}

/// An expression. It has no effect but traps and touches.
#[derive(Drop)]
pub enum Expr {
    Number(i64),
    Bool(bool),
    Var(VarId),
    /// A field of a tracked or guarded variable's object.
    Field(VarId, u32),
    Un(Op, Boxed<Expr>),
    Bin(Op, Boxed<Expr>, Boxed<Expr>),
}

/// Statements with the keys and owning variables that they bind.
#[cycle(core)]
#[derive(Drop)]
pub struct Block {
    pub stmts: Items<Stmt>,
    /// Keys first, each kind in ascending order.
    pub bound: Items<Tok>,
    /// The place of the closing brace; of a block that isn't written, that of its statement's last one.
    pub end: u32,
}

/// An arm of a switch, with the variables that take its payloads.
#[cycle(core)]
#[derive(Drop)]
pub struct Arm {
    pub case: u8,
    pub vars: Items<VarId>,
    pub body: Block,
}

/// A statement at its place.
#[cycle(core)]
#[derive(Drop)]
pub struct Stmt {
    pub at: u32,
    pub form: Form,
}

/// What a statement does.
#[cycle(core)]
#[derive(Drop)]
pub enum Form {
    /// `v = e;`
    Set {
        v: VarId,
        e: Expr,
    },
    /// `v = input();`, and `v = more();`
    Input {
        v: VarId,
        more: bool,
    },
    /// `print(e);`
    Print {
        e: Expr,
    },
    /// `x.f = e;`
    Put {
        x: VarId,
        field: u32,
        e: Expr,
    },
    /// `tracked(K) T x = new T { .. };` with K bound here
    New {
        x: VarId,
        args: Items<Operand>,
    },
    /// `become x@s;`
    Become {
        x: VarId,
        state: u8,
    },
    /// `release x;` of a tracked variable
    Release {
        x: VarId,
    },
    /// `release v;` of an owning variable
    Drop {
        v: VarId,
    },
    /// `tracked@S T v = ..;`: an owning variable is filled
    Own {
        v: VarId,
        value: Operand,
    },
    /// `tracked(K) T x = v;` with K bound here
    Unpack {
        x: VarId,
        v: VarId,
    },
    /// `v = 'Case(..);`
    Build {
        v: VarId,
        case: u8,
        args: Items<Operand>,
    },
    /// `target = f(..);`; `keys` has for each key of f's head the key that stands for it here
    Call {
        f: FnId,
        target: Option<VarId>,
        keys: Items<KeyId>,
        args: Items<Operand>,
    },
    /// `swap x.f, v;`
    Swap {
        x: VarId,
        field: u32,
        v: VarId,
    },
    /// `open x into (..);`
    Open {
        x: VarId,
        into: Items<VarId>,
    },
    /// `G:T y = adopt x into r;`
    Adopt {
        y: VarId,
        x: VarId,
        r: VarId,
    },
    /// `if (cond) .. else ..`
    If {
        cond: Expr,
        then_block: Block,
        else_block: Block,
    },
    /// `while (cond) ..`
    While {
        cond: Expr,
        body: Block,
    },
    /// `switch (v) { case 'A(..): .. }`; `end` is the place of its closing brace
    Switch {
        v: VarId,
        arms: Items<Arm>,
        end: u32,
    },
    /// `focus y as tracked(K) z ..`
    Focus {
        y: VarId,
        z: VarId,
        body: Block,
    },
    /// A block that stands as a statement.
    Scope {
        body: Block,
    },
    /// `return ..;`
    Return {
        value: Option<Operand>,
    },
    /// `continue;` or `break;`
    Jump {
        continues: bool,
    },
}
