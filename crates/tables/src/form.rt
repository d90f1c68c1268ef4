//! What a row is. A field that names a row holds the number as it stands in the table, an `i32` where it is
//! the arg and a `usize` where it is the tail; that there is such a row is a rule of its own.
ghost use Rattle.std.specs.Prelude.{◌≡◌};
ghost use Rattle.tables.specs.Forms.{expr_sort, sort_of};

#[derive(Clone, Copy, PartialEq, Eq, Debug)]
pub enum TypeForm {
    Bool,
    Nat,
    Int,
    /// the whole numbers from `low` to `low + span`
    Interval { low: i32, span: u32 },
    Array { length: u32, element: i32 },
}

/// Which way values pass a port, as the process sees it.
#[derive(Clone, Copy, PartialEq, Eq, Debug)]
pub enum Direction {
    Receives,
    Sends,
    Either,
}

// An enum of its own: `None` would not say that a plain port is one, and what for.
#[derive(Clone, Copy, PartialEq, Eq, Debug)]
pub enum PortForm {
    /// a port without values, where the process and its surroundings meet
    Plain,
    Carries { way: Direction, of: i32 },
}

#[derive(Clone, Copy, PartialEq, Eq, Debug)]
pub enum UnaryOp {
    Not,
    Minus,
    Coerce,
}

#[derive(Clone, Copy, PartialEq, Eq, Debug)]
pub enum BinaryOp {
    And,
    Or,
    Add,
    Sub,
    Mul,
    Div,
    Rem,
    Equal,
    Unequal,
    Less,
    AtMost,
    Greater,
    AtLeast,
}

/// Values, places and pairs. `of` is the row of the type. The second operand of a binary operator, the pair
/// of a conditional, the second side of a pair and the index of an element are the row before.
#[derive(Clone, Copy, PartialEq, Eq, Debug)]
pub enum ExprForm {
    Literal {
        of: usize,
        value: i32,
    },
    Read {
        of: usize,
        place: i32,
    },
    Unary {
        op: UnaryOp,
        of: usize,
        operand: i32,
    },
    Binary {
        op: BinaryOp,
        of: usize,
        left: i32,
    },
    Conditional {
        of: usize,
        condition: i32,
    },
    Pair {
        if_true: i32,
    },
    Variable {
        of: usize,
        variable: i32,
    },
    Element {
        of: usize,
        base: i32,
    },
}

#[derive(Clone, Copy, PartialEq, Eq, Debug)]
pub enum StmtForm {
    Null,
    On { guard: i32 },
    Assign { place: usize, value: i32 },
    /// one target more, beside those of the assignment before
    Further { place: usize, value: i32 },
    Any { place: i32 },
    While { condition: usize, body: i32 },
    /// the else part is the row before
    If { condition: usize, then: i32 },
    Sequence { first: usize, second: i32 },
    Select { left: usize, right: i32 },
    To { state: i32 },
    Loop,
    Synchronise { port: i32 },
    Send { port: usize, value: i32 },
    Receive { port: usize, place: i32 },
}

#[derive(Clone, Copy, PartialEq, Eq, Debug)]
pub enum Form {
    TypeRow(TypeForm),
    VariableRow { of: i32 },
    PortRow(PortForm),
    ExprRow(ExprForm),
    StmtRow(StmtForm),
    /// its statement, or -1
    StateRow { statement: i32 },
}

/// What a row can be named as.
#[derive(Clone, Copy, PartialEq, Eq, Debug)]
pub enum Sort {
    DataType,
    Variable,
    Port,
    Value,
    Place,
    Pair,
    Statement,
    State,
}

impl ExprForm {
    /// What the row can be named as.
    pub fn sort(self) -> Sort
        ensures { result ≡ expr_sort self }
    {
        match self {
            ExprForm::Literal { .. }
            | ExprForm::Read { .. }
            | ExprForm::Unary { .. }
            | ExprForm::Binary { .. }
            | ExprForm::Conditional { .. } => Sort::Value,
            ExprForm::Pair { .. } => Sort::Pair,
            ExprForm::Variable { .. } | ExprForm::Element { .. } => Sort::Place,
        }
    }
}

impl Form {
    /// What the row can be named as.
    pub fn sort(self) -> Sort
        ensures { result ≡ sort_of self }
    {
        match self {
            Form::TypeRow(_) => Sort::DataType,
            Form::VariableRow { .. } => Sort::Variable,
            Form::PortRow(_) => Sort::Port,
            Form::ExprRow(f) => f.sort(),
            Form::StmtRow(_) => Sort::Statement,
            Form::StateRow { .. } => Sort::State,
        }
    }
}
