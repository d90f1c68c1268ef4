//! Taking a row apart: the form that its kind, tail and arg stand for, if there is one.
ghost use Rattle.std.specs.Prelude.{◌≡◌};
ghost use Rattle.std.specs.Result.{result_ok};
ghost use Rattle.tables.specs.Forms.{type_of, port_of, way_of, unary_of, binary_of, operator_of, expr_of, stmt_of, form_of};

use crate::form::{BinaryOp, Direction, ExprForm, Form, PortForm, StmtForm, TypeForm, UnaryOp};
use crate::raw::Raw;
use crate::section::Section;

/// Numbers that stand for no form.
#[derive(Clone, Copy, PartialEq, Eq, Debug)]
pub struct NoForm;

// `tail as u32` loses nothing, since a tail has 25 bits; no `From` leads from `usize` to `u32`.
impl TryFrom<Raw> for TypeForm {
    type Error = NoForm;

    ghost try_from_gives = { λ w r. result_ok r ≡ type_of w.kind w.tail w.arg };

    fn try_from(raw: Raw) -> Result<TypeForm, NoForm> {
        match raw {
            Raw {
                kind: 0,
                tail: 0,
                arg: 0,
            } => Ok(TypeForm::Bool),
            Raw {
                kind: 1,
                tail: 0,
                arg: 0,
            } => Ok(TypeForm::Nat),
            Raw {
                kind: 2,
                tail: 0,
                arg: 0,
            } => Ok(TypeForm::Int),
            Raw { kind: 3, tail, arg } => Ok(TypeForm::Interval {
                low: arg,
                span: tail as u32,
            }),
            Raw { kind: 4, tail, arg } => Ok(TypeForm::Array {
                length: tail as u32,
                element: arg,
            }),
            _ => Err(NoForm),
        }
    }
}

impl TryFrom<usize> for Direction {
    type Error = NoForm;

    ghost try_from_gives = { λ tail r. result_ok r ≡ way_of tail };

    fn try_from(tail: usize) -> Result<Direction, NoForm> {
        match tail {
            1 => Ok(Direction::Receives),
            2 => Ok(Direction::Sends),
            3 => Ok(Direction::Either),
            _ => Err(NoForm),
        }
    }
}

impl TryFrom<Raw> for PortForm {
    type Error = NoForm;

    ghost try_from_gives = { λ w r. result_ok r ≡ port_of w.kind w.tail w.arg };

    fn try_from(raw: Raw) -> Result<PortForm, NoForm> {
        match raw {
            Raw {
                kind: 9,
                tail: 0,
                arg: 0,
            } => Ok(PortForm::Plain),
            Raw { kind: 9, tail, arg } => {
                let way = Direction::try_from(tail)?;
                Ok(PortForm::Carries { way, of: arg })
            }
            _ => Err(NoForm),
        }
    }
}

impl TryFrom<usize> for UnaryOp {
    type Error = NoForm;

    ghost try_from_gives = { λ kind r. result_ok r ≡ unary_of kind };

    fn try_from(kind: usize) -> Result<UnaryOp, NoForm> {
        match kind {
            12 => Ok(UnaryOp::Not),
            13 => Ok(UnaryOp::Minus),
            14 => Ok(UnaryOp::Coerce),
            _ => Err(NoForm),
        }
    }
}

impl TryFrom<usize> for BinaryOp {
    type Error = NoForm;

    ghost try_from_gives = { λ kind r. result_ok r ≡ binary_of kind };

    fn try_from(kind: usize) -> Result<BinaryOp, NoForm> {
        match kind {
            15 => Ok(BinaryOp::And),
            16 => Ok(BinaryOp::Or),
            17 => Ok(BinaryOp::Add),
            18 => Ok(BinaryOp::Sub),
            19 => Ok(BinaryOp::Mul),
            20 => Ok(BinaryOp::Div),
            21 => Ok(BinaryOp::Rem),
            22 => Ok(BinaryOp::Equal),
            23 => Ok(BinaryOp::Unequal),
            24 => Ok(BinaryOp::Less),
            25 => Ok(BinaryOp::AtMost),
            30 => Ok(BinaryOp::Greater),
            31 => Ok(BinaryOp::AtLeast),
            _ => Err(NoForm),
        }
    }
}

impl TryFrom<Raw> for ExprForm {
    type Error = NoForm;

    ghost try_from_gives = { λ w r. result_ok r ≡ expr_of w.kind w.tail w.arg };

    fn try_from(raw: Raw) -> Result<ExprForm, NoForm> {
        match raw {
            Raw {
                kind: 10,
                tail,
                arg,
            } => Ok(ExprForm::Literal {
                of: tail,
                value: arg,
            }),
            Raw {
                kind: 11,
                tail,
                arg,
            } => Ok(ExprForm::Read {
                of: tail,
                place: arg,
            }),
            Raw {
                kind: 26,
                tail,
                arg,
            } => Ok(ExprForm::Conditional {
                of: tail,
                condition: arg,
            }),
            Raw {
                kind: 27,
                tail: 0,
                arg,
            } => Ok(ExprForm::Pair { if_true: arg }),
            Raw {
                kind: 28,
                tail,
                arg,
            } => Ok(ExprForm::Variable {
                of: tail,
                variable: arg,
            }),
            Raw {
                kind: 29,
                tail,
                arg,
            } => Ok(ExprForm::Element {
                of: tail,
                base: arg,
            }),
            _ => raw.operator(),
        }
    }
}

impl TryFrom<Raw> for StmtForm {
    type Error = NoForm;

    ghost try_from_gives = { λ w r. result_ok r ≡ stmt_of w.kind w.tail w.arg };

    fn try_from(raw: Raw) -> Result<StmtForm, NoForm> {
        match raw {
            Raw {
                kind: 32,
                tail: 0,
                arg: 0,
            } => Ok(StmtForm::Null),
            Raw {
                kind: 33,
                tail: 0,
                arg,
            } => Ok(StmtForm::On { guard: arg }),
            Raw {
                kind: 34,
                tail,
                arg,
            } => Ok(StmtForm::Assign {
                place: tail,
                value: arg,
            }),
            Raw {
                kind: 35,
                tail,
                arg,
            } => Ok(StmtForm::Further {
                place: tail,
                value: arg,
            }),
            Raw {
                kind: 36,
                tail: 0,
                arg,
            } => Ok(StmtForm::Any { place: arg }),
            Raw {
                kind: 37,
                tail,
                arg,
            } => Ok(StmtForm::While {
                condition: tail,
                body: arg,
            }),
            Raw {
                kind: 38,
                tail,
                arg,
            } => Ok(StmtForm::If {
                condition: tail,
                then: arg,
            }),
            Raw {
                kind: 39,
                tail,
                arg,
            } => Ok(StmtForm::Sequence {
                first: tail,
                second: arg,
            }),
            Raw {
                kind: 40,
                tail,
                arg,
            } => Ok(StmtForm::Select {
                left: tail,
                right: arg,
            }),
            Raw {
                kind: 41,
                tail: 0,
                arg,
            } => Ok(StmtForm::To { state: arg }),
            Raw {
                kind: 42,
                tail: 0,
                arg: 0,
            } => Ok(StmtForm::Loop),
            Raw {
                kind: 43,
                tail: 0,
                arg,
            } => Ok(StmtForm::Synchronise { port: arg }),
            Raw {
                kind: 44,
                tail,
                arg,
            } => Ok(StmtForm::Send {
                port: tail,
                value: arg,
            }),
            Raw {
                kind: 45,
                tail,
                arg,
            } => Ok(StmtForm::Receive {
                port: tail,
                place: arg,
            }),
            _ => Err(NoForm),
        }
    }
}

impl Raw {
    // A value that an operator makes.
    fn operator(self) -> Result<ExprForm, NoForm>
        ensures { result_ok result ≡ operator_of (unary_of self.kind) (binary_of self.kind) self.tail self.arg }
    {
        let of = self.tail;
        let arg = self.arg;
        if let Ok(op) = UnaryOp::try_from(self.kind) {
            return Ok(ExprForm::Unary {
                op,
                of,
                operand: arg,
            });
        }
        let op = BinaryOp::try_from(self.kind)?;
        Ok(ExprForm::Binary { op, of, left: arg })
    }

    // The form of a row of this section.
    pub(crate) fn form(self, section: Section) -> Result<Form, NoForm>
        ensures { result_ok result ≡ form_of section self.kind self.tail self.arg }
    {
        match section {
            Section::Types => TypeForm::try_from(self).map(Form::TypeRow),
            Section::Variables => match self {
                Raw {
                    kind: 8,
                    tail: 0,
                    arg,
                } => Ok(Form::VariableRow { of: arg }),
                _ => Err(NoForm),
            },
            Section::Ports => PortForm::try_from(self).map(Form::PortRow),
            Section::Expressions => ExprForm::try_from(self).map(Form::ExprRow),
            Section::Statements => StmtForm::try_from(self).map(Form::StmtRow),
            Section::States => match self {
                Raw {
                    kind: 48,
                    tail: 0,
                    arg,
                } => Ok(Form::StateRow { statement: arg }),
                _ => Err(NoForm),
            },
        }
    }
}
