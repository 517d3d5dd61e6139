//! A checked module: the tree with every name resolved.
//!
//! Numbers of types, variables, parameters and locals count from 0, in the order of their
//! declarations.

use pra_base::ProcId;
use pra_list::{Owned, Seq};

/// A module that breaks no rule and keeps within the limits.
#[derive(Drop)]
pub struct Checked {
    /// The module's name, as the bytes of the source spell it.
    pub name: Seq<u8>,
    /// Type 0 is INTEGER and type 1 is BOOLEAN. The others are those of the ARRAY and RECORD
    /// expressions, in the order of the last tokens of these, the inner one first. A type names
    /// only types of smaller numbers.
    pub types: Seq<Shape>,
    pub vars: Seq<ModuleVar>,
    /// The module's body first, then the procedures in the order of their headings.
    pub procs: Seq<CheckedProc>,
    /// Words of the module's variables.
    pub data_words: u32,
}

#[derive(Debug, PartialEq, Eq, Drop)]
pub enum Shape {
    Integer,
    Boolean,
    /// The length, and the number of the elements' type.
    Array(u32, u32),
    /// The numbers of the fields' types.
    Record(Seq<u32>),
}

/// A variable of the module, and its first data word.
#[derive(Clone, Copy, Debug, PartialEq, Eq)]
pub struct ModuleVar {
    pub type_id: u32,
    pub word: u32,
}

/// A procedure, or the module's body, which has neither parameters nor locals.
#[derive(Drop)]
pub struct CheckedProc {
    pub id: ProcId,
    pub name: Seq<u8>,
    pub params: Seq<Param>,
    pub locals: Seq<Local>,
    /// Words of its arrays, records and addressed scalar locals.
    pub aggregate_words: u32,
    /// Identifiers, numbers, operators, `:=`, `[`, `.`, IF, ELSIF, WHILE and REPEAT of its
    /// statements.
    pub nodes: u32,
    pub body: Seq<RStmt>,
}

/// A parameter. A value parameter is addressed where it is lent to a VAR parameter.
#[derive(Clone, Copy, Debug, PartialEq, Eq)]
pub struct Param {
    pub by_var: bool,
    pub type_id: u32,
    pub addressed: bool,
}

/// A local variable. A scalar one is addressed where it is lent to a VAR parameter. An aggregate
/// and an addressed scalar have their first word among the aggregate words of the procedure, any
/// other word 0.
#[derive(Clone, Copy, Debug, PartialEq, Eq)]
pub struct Local {
    pub type_id: u32,
    pub addressed: bool,
    pub word: u32,
}

/// A statement.
#[cycle(resolved_statements)]
#[derive(Drop)]
pub enum RStmt {
    Assign(RVar, RExpr),
    /// IF and each ELSIF, and the statements of ELSE.
    If(Seq<RArm>, Seq<RStmt>),
    While(RExpr, Seq<RStmt>),
    Repeat(Seq<RStmt>, RExpr),
    Call(ProcId, Seq<RArg>),
    Read(RVar),
    Write(RExpr),
    WriteLine,
}

#[cycle(resolved_statements)]
#[derive(Drop)]
pub struct RArm {
    pub test: RExpr,
    pub body: Seq<RStmt>,
}

/// An argument: a value, or a variable for a VAR parameter.
#[derive(Drop)]
pub enum RArg {
    Value(RExpr),
    Lent(RVar),
}

/// An expression. A chain of operators is as deep to the left as it is long.
#[cycle(resolved_expressions)]
pub enum RExpr {
    Number(i32),
    Truth(bool),
    Var(RVar),
    Negate(Owned<RExpr>),
    Not(Owned<RExpr>),
    Binary(ROp, Owned<RExpr>, Owned<RExpr>),
}

impl RExpr {
    ghost use Rattle.std.specs.Prelude.{◌≡◌};
    ghost use Rattle.ob_syntax.specs.Variables.{variable_of};

    /// The variable that the expression is, or None where it is another one.
    pub fn into_variable(self) -> Option<RVar>
        ensures { result ≡ variable_of self }
    {
        match self {
            RExpr::Var(variable) => Some(variable),
            RExpr::Number(_) | RExpr::Truth(_) => None,
            RExpr::Negate(_) | RExpr::Not(_) => None,
            RExpr::Binary(_, _, _) => None,
        }
    }
}

impl Drop for RExpr {
    /// Gives up left operands one after the other, so that a chain takes no more stack than one of
    /// its operators.
    #[cycle(resolved_expressions)]
    fn drop(mut self) {
        loop {
            match self {
                RExpr::Number(_) | RExpr::Truth(_) => return,
                RExpr::Var(variable) => {
                    drop(variable);
                    return;
                }
                RExpr::Negate(inner) | RExpr::Not(inner) => self = inner.into_inner(),
                RExpr::Binary(_, left, right) => {
                    drop(right.into_inner());
                    self = left.into_inner();
                }
            }
        }
    }
}

/// A variable with its selectors, and the type of the whole.
#[cycle(resolved_expressions)]
#[derive(Drop)]
pub struct RVar {
    pub root: Root,
    pub steps: Seq<RStep>,
    pub type_id: u32,
}

/// A field by its number in its record, or an index.
#[cycle(resolved_expressions)]
#[derive(Drop)]
pub enum RStep {
    Field(u32),
    Index(RExpr),
}

/// A variable of the module, or a parameter or local of the procedure whose body this is.
#[derive(Clone, Copy, Debug, PartialEq, Eq)]
pub enum Root {
    Module(u32),
    Param(u32),
    Local(u32),
}

/// An operator with two sides: `*`, DIV, MOD, `&`, `+`, `-`, OR, `=`, `#`, `<`, `<=`, `>`, `>=`.
#[derive(Clone, Copy, Debug, PartialEq, Eq)]
pub enum ROp {
    Mul,
    Div,
    Mod,
    Both,
    Add,
    Sub,
    Either,
    Equal,
    Unequal,
    Less,
    LessEqual,
    Greater,
    GreaterEqual,
}

/// The value of an expression: INTEGER or BOOLEAN.
#[derive(Clone, Copy, Debug, PartialEq, Eq)]
pub enum Value {
    Number(i32),
    Truth(bool),
}

/// A procedure that each module has without a declaration.
#[derive(Clone, Copy, Debug, PartialEq, Eq)]
pub enum Standard {
    Read,
    Write,
    WriteLine,
}

/// What a name means at a place.
#[derive(Clone, Copy, Debug, PartialEq, Eq)]
pub enum Meaning {
    Constant(Value),
    TypeName(u32),
    /// The procedure that declares it, where 0 is the module; itself; and its type.
    Variable(u32, Root, u32),
    Procedure(u32),
    Standard(Standard),
}

/// An expression with its type.
#[derive(Drop)]
pub struct Typed {
    pub type_id: u32,
    pub expr: RExpr,
}

/// A procedure, or the module's body, whose names are resolved but whose storage is not laid out.
#[derive(Drop)]
pub struct Draft {
    pub id: u32,
    /// The token of its name.
    pub name: u32,
    pub params: Seq<Param>,
    /// The types of its variables.
    pub vars: Seq<u32>,
    pub nodes: u32,
    pub body: Seq<RStmt>,
}
