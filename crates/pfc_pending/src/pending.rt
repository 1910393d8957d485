//! What a process has still to do behind what is at hand.

use crate::{Actuals, Choosing, OneStmt, Stmts};
use pfc_base::Place;
use pfc_facts::Function;
use pfc_program::{Guard, Names};
use pfc_store::{Spot, TypedSpot, Value};
use pfc_tree::{AddOp, Desig, Expr, Factor, MulOp, Relation, Selector, Sign, Simple, Term};
use pfc_types::{Formal, TypeId};
use pfc_values::Simple as SimpleType;

/// A part that is pending: it waits for a statement to end or for a value. The parts of a process stand one on another, the innermost
/// last.
#[derive(Drop)]
pub enum Pending<'a> {
    // ## behind a statement
    /// The end of a body, whose `end` has this line.
    Ends(u32),
    /// These statements, whose next scope of the text has this number.
    Perform(u32, Stmts<'a>),
    /// From here on these names are in view.
    InNames(Names),
    /// The items of a `write` that are left, with the line, and whether it is a `writeln`.
    WriteOn(u32, Actuals<'a>, bool),
    /// The variables of a `read` that are left, with the line, and whether it is a `readln`.
    ReadOn(u32, Actuals<'a>, bool),
    /// The `coend` with this line.
    AtCoend(u32),
    /// The end of an accept with this line, whose caller is a process.
    PartFrom(u32, u32),
    /// The write of a replicated alternative that was chosen.
    WriteAgain(crate::Replica),
    /// A select with this line whose replica was written.
    GoThrough(u32, Box<Choosing<'a>>),
    /// The guard of the own procedure; the next turn of a scan; the guard that it found.
    TryGuard(Bar<'a>),
    ScanOn(Scan<'a>),
    TryOther(Tried<'a>, Scan<'a>),
    // ## in a statement
    /// A statement that is under way, whose next scope of the text has this number: what of it comes next.
    Within(u32, OneStmt<'a>, Point),
    // ## for a value
    /// The first term of a sum, with its sign and the terms behind it.
    BeginSum(Option<(Sign, Place)>, &'a [((AddOp, Place), Term)]),
    /// The right operand, with the left one and the terms behind both.
    AddTo(i64, AddOp, &'a [((AddOp, Place), Term)]),
    BeginProduct(&'a [((MulOp, Place), Factor)]),
    MultiplyBy(i64, MulOp, &'a [((MulOp, Place), Factor)]),
    /// The left side of a relation, with the right one; then the right side.
    CompareWith(Relation, &'a Simple),
    CompareTo(i64, Relation),
    Invert,
    /// The argument of a function, and its type.
    Apply(Function, Option<TypeId>),
    /// An index, with the part that it leads into, the indices and selectors behind it, and what waits for the variable.
    IndexInto(TypedSpot, &'a [Expr], &'a [Selector], Goal<'a>),
    /// An argument by value, with what is passed behind it.
    PassValue(Passing<'a>),
    /// The value of an assignment.
    StoreAt(Spot),
    /// An item of a `write`, of this type; with its width; the width of a piece.
    Show(Option<TypeId>),
    ShowWide(Option<TypeId>, &'a Expr),
    Pad(Piece<'a>),
    /// The count of `initial`, the rank of `delay`, the seconds of `sleep`, the message to a channel.
    SetCount(Spot),
    DelayWith(Spot),
    SleepFor,
    SendOn(Spot),
    /// In a select: the guard of an alternative, its message, its seconds.
    OpenIf(Box<Choosing<'a>>),
    OfferValue(Spot, Box<Choosing<'a>>),
    OfferWait(Box<Choosing<'a>>),
    /// The own guard, and that of a barred process.
    PassOwn(Bar<'a>),
    PassOther(Tried<'a>, Scan<'a>),
}

/// What of a statement that is under way comes next.
#[derive(Clone, Copy)]
pub enum Point {
    // ## behind a statement
    /// The way back of a loop; behind it, the loop once more.
    Turn,
    Again,
    /// The test of `repeat ss until e`, whose statements are done.
    Until,
    /// The statement of a `for`, whose value is written; a `for` behind its statement; one whose next value is to be written.
    Pass(Count),
    BehindPass(Count),
    NextPass(Count),
    // ## for a value
    /// The test of an `if`; the value of a `case`; the tests of `while` and of `repeat`.
    Choose,
    ChooseArm,
    WhileTrue,
    UntilTrue,
    /// The first bound of a `for`, with its variable; then the second, with the first.
    CountFrom(Counter),
    CountTo(Counter, i64),
}

/// The variable of a `for`, by the scope that declares it and its place there.
#[derive(Clone, Copy)]
pub struct Counter {
    pub scope: u32,
    pub variable: u32,
}

/// A running `for`: its variable, the value that is kept, and the last one.
#[derive(Clone, Copy)]
pub struct Count {
    pub at: Counter,
    pub kept: i64,
    pub last: i64,
}

/// What waits for a variable, or for a part of one.
#[derive(Drop)]
pub enum Goal<'a> {
    /// An expression; the condition of `empty`.
    Read,
    AskEmpty,
    /// An argument for a reference.
    Pass(Passing<'a>),
    /// The target of an assignment, with its value.
    AssignTo(&'a Expr),
    /// A variable that is read, of this type.
    InputTo(Option<TypeId>),
    /// A process that is activated, with its parameters and arguments; one whose entry is called.
    ActivateWith(&'a [Formal], Actuals<'a>),
    EnterWith(u32, &'a [Formal], Actuals<'a>),
    /// The semaphore of `initial` with its count, of `wait` and of `signal`.
    InitialTo(&'a Expr),
    WaitAt,
    SignalAt,
    /// The condition of `delay`, with its rank where one is given, and of `resume`.
    DelayAt(Option<&'a Expr>),
    ResumeAt,
    /// The channel of `c ! e`, with its message unless that is `any`; of `c ? v`, with its variable unless that is `any`; then that
    /// variable.
    SendTo(Option<&'a Expr>),
    ReceiveFrom(Option<&'a Desig>),
    ReceiveInto(Spot),
    /// The same in a select.
    OfferTo(Option<&'a Expr>, Box<Choosing<'a>>),
    OfferFrom(Option<&'a Desig>, Box<Choosing<'a>>),
    OfferInto(Spot, Box<Choosing<'a>>),
}

/// The arguments of a call: the parameters and arguments that are left, those that are given, and what is called.
#[derive(Drop)]
pub struct Passing<'a> {
    pub formals: &'a [Formal],
    pub rest: Actuals<'a>,
    pub given: Vec<Argument>,
    pub callee: Callee,
}

/// An argument: a value, or the variable for which a reference parameter is to stand.
#[derive(Drop)]
pub enum Argument {
    Value(Value),
    Reference(Spot),
}

/// What is called: a procedure or a function of the program by its scope, an exported procedure of a module by the module's number, the
/// procedure of a requeue, a process that is activated, or an entry of one by its number there.
#[derive(Drop)]
pub enum Callee {
    Procedure(u32),
    Function(u32),
    Module(u32, u32),
    Requeue(u32),
    Process(Spot),
    Entry(Spot, u32),
}

/// The bytes of an output piece: a text, or a value of a simple type.
#[derive(Clone, Copy)]
pub enum Piece<'a> {
    Text(&'a [u8]),
    Shown(SimpleType, i64),
}

/// A guard of a resource, with the number of its procedure.
#[derive(Clone, Copy)]
pub struct Bar<'a> {
    pub resource: u32,
    pub procedure: u32,
    pub guard: &'a Guard<'a>,
}

/// A scan of the barred processes of a resource past a ticket, with the line of the resource's final `end`. Behind it the process leaves
/// the resource, or tries the guard of the procedure to which it has requeued.
#[derive(Clone, Copy)]
pub struct Scan<'a> {
    pub resource: u32,
    pub line: u32,
    pub after: Option<u64>,
    pub own: Option<Bar<'a>>,
}

/// A barred process whose guard a scan tries, with its ticket.
#[derive(Clone, Copy)]
pub struct Tried<'a> {
    pub process: u32,
    pub ticket: u64,
    pub bar: Bar<'a>,
}
