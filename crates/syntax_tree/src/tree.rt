use item_types::{Boxed, Seq, Text};

/// The number that stands for a name that isn't declared, in a tree whose names aren't checked yet.
pub const NO_NUMBER: u32 = 4294967295;

/// A step's body.
#[derive(Drop)]
pub struct Body {
    pub stmts: Seq<Stmt>,
}

/// A recorder's method.
#[derive(Drop)]
pub struct Method {
    pub stmts: Seq<Stmt>,
}

/// The methods of all recorders: for each recorder the list of its methods, in declared order.
#[derive(Drop)]
pub struct Methods {
    pub lists: Seq<Seq<Method>>,
}

/// A recorded call, `call R.m(..)`. `at` is the number of the token `call`; the recorder and its
/// method stand as numbers.
#[derive(Drop)]
pub struct Invoke {
    pub at: u32,
    pub recorder: u32,
    pub method: u32,
    pub args: Seq<Expr>,
}

/// A statement. `at` is the number of its first token, `dot` that of its `.`.
#[derive(Drop)]
pub enum Stmt {
    /// `let n = e;`
    Let {
        at: u32,
        name: Text,
        value: Expr,
    },
    /// `let n = call R.m(..);`
    LetCall {
        at: u32,
        name: Text,
        call: Invoke,
    },
    /// `call R.m(..);`
    CallOf {
        call: Invoke,
    },
    /// `produce T(e);`
    Produce {
        at: u32,
        item: u32,
        value: Expr,
    },
    /// `for n in e { .. }`
    For {
        at: u32,
        name: Text,
        list: Expr,
        block: Seq<Stmt>,
    },
    /// `if e { .. }`, or with `else { .. }` behind it.
    If {
        at: u32,
        cond: Expr,
        block: Seq<Stmt>,
        other: Option<Seq<Stmt>>,
    },
    /// `fail e;`
    FailWith {
        at: u32,
        value: Expr,
    },
    /// `print e;`
    Print {
        at: u32,
        value: Expr,
    },
    /// `return e;`
    Return {
        at: u32,
        value: Expr,
    },
    /// `add(l, e);`
    Add {
        at: u32,
        list: Expr,
        value: Expr,
    },
    /// `static.f = e;`
    SetStatic {
        at: u32,
        field: Text,
        value: Expr,
    },
    /// `self.f = e;`
    SetSelf {
        at: u32,
        dot: u32,
        field: Text,
        value: Expr,
    },
    /// `n.f = e;`
    SetField {
        at: u32,
        dot: u32,
        name: Text,
        field: Text,
        value: Expr,
    },
}

/// One `.f` of a chain of fields: the number of its `.`, and the field.
#[derive(Drop)]
pub struct Link {
    pub dot: u32,
    pub field: Text,
}

/// An expression. `at` is the number of its first token, `sign` and `signs` are those of the
/// signs between its parts. Items and beans stand as numbers, variables and fields as texts.
#[derive(Drop)]
pub enum Expr {
    /// `null`
    Null {
        at: u32,
    },
    /// `true` and `false`
    Bool {
        at: u32,
        value: bool,
    },
    /// A whole number.
    Long {
        at: u32,
        value: i64,
    },
    /// A quoted text.
    Str {
        at: u32,
        value: Text,
    },
    /// A variable.
    Name {
        at: u32,
        name: Text,
    },
    /// `get T`
    Get {
        at: u32,
        item: u32,
    },
    /// `all T`
    All {
        at: u32,
        item: u32,
    },
    /// `new B{f: e, ..}`, its fields in written order.
    New {
        at: u32,
        bean: u32,
        fields: Seq<(Text, Expr)>,
    },
    /// `[e, ..]`
    ListOf {
        at: u32,
        parts: Seq<Expr>,
    },
    /// `e.f.g`: an expression and one or more fields behind it.
    Fields {
        inner: Boxed<Expr>,
        links: Seq<Link>,
    },
    /// `len e`
    Len {
        at: u32,
        inner: Boxed<Expr>,
    },
    /// `!e`
    Not {
        at: u32,
        inner: Boxed<Expr>,
    },
    /// `a + b + ..`, two parts or more.
    Sum {
        parts: Seq<Expr>,
        signs: Seq<u32>,
    },
    /// `a && b && ..`, two parts or more.
    Both {
        parts: Seq<Expr>,
        signs: Seq<u32>,
    },
    /// `a == b`
    Equal {
        left: Boxed<Expr>,
        sign: u32,
        right: Boxed<Expr>,
    },
    /// `a < b`
    Less {
        left: Boxed<Expr>,
        sign: u32,
        right: Boxed<Expr>,
    },
    /// `(e)`
    Paren {
        at: u32,
        inner: Boxed<Expr>,
    },
    /// `self`
    Me {
        at: u32,
    },
    /// `static.f`
    StaticOf {
        at: u32,
        field: Text,
    },
}
