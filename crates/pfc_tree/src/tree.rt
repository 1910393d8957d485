//! The tree of a program. It keeps every optional token, so it determines the kinds of its tokens.
//!
//! A place is that of one token. A struct keeps it in `place`, a variant in its last field, and a name or an
//! operator that is no node of its own in a pair. A statement whose last field need not be the place of its
//! first token keeps that of its first token in the field before.

use pfc_base::{Name, Place, Text};

/// A program: `program sum (input, output); var n: integer; begin end.`
#[derive(Drop)]
pub struct Tree {
    pub name: (Name, Place),
    /// The names in parentheses; an empty list writes no parentheses.
    pub params: Vec<(Name, Place)>,
    pub parts: Vec<Part>,
    pub body: Body,
    /// The place of `program`.
    pub place: Place,
}

/// A part of a declaration list. A monitor, a resource and a process stand only in the program's list.
#[derive(Drop)]
#[cycle(parts)]
pub enum Part {
    /// `const a = 1; b = -a;`
    Consts(Vec<ConstItem>),
    /// `type t = integer; row = array [1..9] of t;`
    Types(Vec<TypeItem>),
    /// `var i, j: integer; s: semaphore;`
    Vars(Vec<VarItem>),
    /// A procedure, a function or a guarded procedure.
    Sub(Sub),
    /// `monitor m; export p; procedure p; begin end; end;`
    Monitor(Module),
    /// `resource r; export p; guarded procedure p when b; begin end; end;`
    Resource(Module),
    /// `process p; begin end;`
    Process(Process),
}

/// `a = 1;` behind `const`. Its place is the name's.
#[derive(Drop)]
pub struct ConstItem {
    pub name: Name,
    pub value: Constant,
    pub place: Place,
}

/// `t = integer;` behind `type`. Its place is the name's.
#[derive(Drop)]
pub struct TypeItem {
    pub name: Name,
    pub form: TypeNode,
    pub place: Place,
}

/// `i, j: integer`, a group of variables or of a record's fields.
#[derive(Drop)]
#[cycle(types)]
pub struct VarItem {
    pub names: Vec<(Name, Place)>,
    pub form: TypeNode,
}

/// `+` or `-` before a constant or a term.
#[derive(Clone, Copy, PartialEq, Eq, Drop)]
pub enum Sign {
    Plus,
    Minus,
}

/// A constant. Its place is that of its number, name or literal, behind the sign.
#[derive(Drop)]
pub enum Constant {
    /// `10` or `-10`
    Number(Option<(Sign, Place)>, i32, Place),
    /// `size` or `-size`
    Named(Option<(Sign, Place)>, Name, Place),
    /// `'a'`
    Literal(Text, Place),
}

/// A type as it is written. Its place is that of its first token.
#[derive(Drop)]
#[cycle(types)]
pub enum TypeNode {
    /// `integer`
    Named(Name, Place),
    /// `channel of integer`
    Channel(Box<TypeNode>, Place),
    /// `array [1..9, char] of integer`
    Array(Vec<Range>, Box<TypeNode>, Place),
    /// `record x, y: integer; c: char; end`, with whether a last `;` stands before `end`
    Fields(Vec<VarItem>, bool, Place),
}

/// `1..9`, the bounds of an index.
#[derive(Drop)]
pub struct Range {
    pub low: Constant,
    pub high: Constant,
}

/// A procedure, a function or a guarded procedure. Its place is the name's.
#[derive(Drop)]
#[cycle(parts)]
pub struct Sub {
    pub name: Name,
    pub formals: Vec<Group>,
    pub kind: SubKind,
    pub parts: Vec<Part>,
    pub body: Body,
    pub place: Place,
}

/// What a sub is.
#[derive(Drop)]
pub enum SubKind {
    /// `procedure p;`
    Procedure,
    /// `function f: integer;`, with the name of the result's type
    Function(Name, Place),
    /// `guarded procedure p when n > 0;`, with the place of `when`
    Guarded(Expr, Place),
}

/// `var a, b: integer`, a group of parameters with the name of its type.
#[derive(Drop)]
pub struct Group {
    pub reference: bool,
    pub names: Vec<(Name, Place)>,
    pub form: (Name, Place),
}

/// A monitor or a resource. Its place is the name's.
#[derive(Drop)]
#[cycle(parts)]
pub struct Module {
    pub name: Name,
    /// The names of each `export`.
    pub exports: Vec<Vec<(Name, Place)>>,
    pub parts: Vec<Part>,
    /// The initialising body, where there is one.
    pub body: Option<Body>,
    /// The place of the last `end`, which is the body's where there is one.
    pub last: Place,
    pub place: Place,
}

/// A process, `process p;`, or a process type, `process type p;`. Its place is the name's.
#[derive(Drop)]
#[cycle(parts)]
pub struct Process {
    /// Whether it is a process type.
    pub many: bool,
    pub name: Name,
    pub formals: Vec<Group>,
    pub entries: Vec<Entry>,
    pub parts: Vec<Part>,
    pub body: Body,
    pub place: Place,
}

/// `entry e (n: integer);` Its place is the name's.
#[derive(Drop)]
pub struct Entry {
    pub name: Name,
    pub formals: Vec<Group>,
    pub place: Place,
}

/// `begin x := 1; y := 2 end`, with the places of `begin` and `end`.
#[derive(Drop)]
#[cycle(stmts)]
pub struct Body {
    pub stmts: Vec<Stmt>,
    pub first: Place,
    pub last: Place,
}

/// A statement. Its last field is the place of its first token, where nothing else is said.
#[derive(Drop)]
#[cycle(stmts)]
pub enum Stmt {
    /// Nothing, as between two `;`.
    Empty,
    /// `null`
    Null(Place),
    /// `begin x := 1 end`
    Block(Body, Place),
    /// `if b then x := 1 else x := 2`
    If(Box<Expr>, Box<Stmt>, Option<Box<Stmt>>, Place),
    /// `case n of 1, 2: x := 1; 3: x := 2; end`, with whether a last `;` stands before `end`
    Case(Box<Expr>, Vec<CaseArm>, bool, Place),
    /// `while b do x := 1`
    While(Box<Expr>, Box<Stmt>, Place),
    /// `repeat x := 1 until b`, or `repeat x := 1 forever`
    Repeat(Vec<Stmt>, Option<Box<Expr>>, Place),
    /// `for i := 1 to 9 do x := 1`, or with `downto`, where the flag says so. Its last field is the place of the
    /// variable.
    For(Name, Box<Expr>, bool, Box<Expr>, Box<Stmt>, Place, Place),
    /// `cobegin p; q coend`, with the place of `coend` before its own
    Cobegin(Vec<Stmt>, Place, Place),
    /// `accept e (n: integer) do x := n`
    Accept(Accept, Place),
    /// `requeue p (1)`
    Requeue((Name, Place), Vec<Actual>, Place),
    /// `pri select c ? n or terminate else x := 1 end`, where the flag says whether `pri` stands, with the place of
    /// `else`. Its last field is the place of `select`.
    Select(bool, Vec<Alt>, Option<(Vec<Stmt>, Place)>, Place, Place),
    /// `x := 1`. Its last field is the place of `:=`.
    Assign(Desig, Box<Expr>, Place, Place),
    /// `c ! 1`. Its last field is the place of `!`.
    Send(Desig, Box<Expr>, Place, Place),
    /// `c ? x`. Its last field is the place of `?`.
    Receive(Desig, Box<Desig>, Place, Place),
    /// `p (1, 2)`
    Call(Desig, Vec<Actual>, Place),
}

/// `1, 2: x := 1`, an arm of a `case`.
#[derive(Drop)]
#[cycle(stmts)]
pub struct CaseArm {
    pub labels: Vec<Constant>,
    pub stmt: Box<Stmt>,
}

/// `e (n: integer) do x := n` behind `accept`. Its place is the name's.
#[derive(Drop)]
#[cycle(stmts)]
pub struct Accept {
    pub name: Name,
    pub formals: Vec<Group>,
    pub stmt: Option<Box<Stmt>>,
    pub place: Place,
}

/// `for k := 1 to 3 replicate`, before an alternative that stands once for each value of `k`. Its place is the name's.
#[derive(Drop)]
pub struct Spread {
    pub name: Name,
    pub low: Constant,
    pub high: Constant,
    pub place: Place,
}

/// `for k := 1 to 3 replicate when b => c[k] ? x; y := 1`, an alternative of a `select`. A `timeout` or a `terminate` has
/// no spread.
#[derive(Drop)]
#[cycle(stmts)]
pub struct Alt {
    pub spread: Option<Spread>,
    pub guard: Option<Expr>,
    pub comm: Comm,
    pub rest: Vec<Stmt>,
}

/// What an alternative waits for. Its last field is the place of its first token, where nothing else is said.
#[derive(Drop)]
#[cycle(stmts)]
pub enum Comm {
    /// `accept e do x := 1`
    Accept(Accept, Place),
    /// `c ! 1`, with the place of `!`
    Send(Desig, Expr, Place),
    /// `c ? x`, with the place of `?`
    Receive(Desig, Desig, Place),
    /// `timeout 10`
    Timeout(Expr, Place),
    /// `terminate`
    Terminate(Place),
}

/// `a + b < c`, with at most one relation. Its place is that of its first token.
#[derive(Drop)]
#[cycle(exprs)]
pub struct Expr {
    pub left: Simple,
    pub right: Option<((Relation, Place), Box<Simple>)>,
    pub place: Place,
}

/// `=`, `<>`, `<`, `<=`, `>` or `>=`.
#[derive(Clone, Copy, PartialEq, Eq, Drop)]
pub enum Relation {
    Eq,
    Ne,
    Lt,
    Le,
    Gt,
    Ge,
}

/// `-a + b or c`
#[derive(Drop)]
#[cycle(exprs)]
pub struct Simple {
    pub sign: Option<(Sign, Place)>,
    pub first: Term,
    pub rest: Vec<((AddOp, Place), Term)>,
}

/// `+`, `-` or `or`.
#[derive(Clone, Copy, PartialEq, Eq, Drop)]
pub enum AddOp {
    Add,
    Sub,
    Or,
}

/// `a * b and c`
#[derive(Drop)]
#[cycle(exprs)]
pub struct Term {
    pub first: Factor,
    pub rest: Vec<((MulOp, Place), Factor)>,
}

/// `*`, `div`, `mod` or `and`.
#[derive(Clone, Copy, PartialEq, Eq, Drop)]
pub enum MulOp {
    Mul,
    Div,
    Mod,
    And,
}

/// A factor. Its place is that of its first token.
#[derive(Drop)]
#[cycle(exprs)]
pub enum Factor {
    /// `10`
    Number(i32, Place),
    /// `'a'`
    Literal(Text, Place),
    /// `not b`
    Not(Box<Factor>, Place),
    /// `(a + b)`
    Paren(Box<Expr>, Place),
    /// `a[i].x`, a variable or a constant, or `f (1, 2)`, a call; an empty list of arguments writes no parentheses
    Use(Desig, Vec<Actual>, Place),
}

/// `a[i].x`, a name with its selectors. Its place is the name's.
#[derive(Drop)]
#[cycle(exprs)]
pub struct Desig {
    pub name: Name,
    pub selectors: Vec<Selector>,
    pub place: Place,
}

/// A step from a variable to a part of it.
#[derive(Drop)]
#[cycle(exprs)]
pub enum Selector {
    /// `[i, j]`, with the place of `[`
    Index(Vec<Expr>, Place),
    /// `.x`, with the place of the name
    Field(Name, Place),
}

/// `x` or `x: 8`, an argument and its width.
#[derive(Drop)]
#[cycle(exprs)]
pub struct Actual {
    pub value: Expr,
    pub width: Option<Box<Expr>>,
}
