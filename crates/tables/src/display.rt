//! The names of sections and of ways, and the signs of operators.
ghost use Rattle.std.specs.Prelude.{Some};
ghost use Rattle.tables.specs.Signs.{section_name, way_name, unary_sign, binary_sign};

use crate::form::{BinaryOp, Direction, UnaryOp};
use crate::section::Section;
use std::fmt;

impl fmt::Display for Section {
    ghost output = { λ section. Some (section_name section) };

    fn fmt<W: fmt::Write>(&self, f: &mut fmt::Formatter<W>) -> fmt::Result {
        f.pad(match *self {
            Section::Types => "type",
            Section::Variables => "variable",
            Section::Ports => "port",
            Section::Expressions => "expression",
            Section::Statements => "statement",
            Section::States => "state",
        })
    }
}

impl fmt::Display for Direction {
    ghost output = { λ way. Some (way_name way) };

    fn fmt<W: fmt::Write>(&self, f: &mut fmt::Formatter<W>) -> fmt::Result {
        f.pad(match *self {
            Direction::Receives => "in",
            Direction::Sends => "out",
            Direction::Either => "in out",
        })
    }
}

// With the blank that parts a word from its operand.
impl fmt::Display for UnaryOp {
    ghost output = { λ op. Some (unary_sign op) };

    fn fmt<W: fmt::Write>(&self, f: &mut fmt::Formatter<W>) -> fmt::Result {
        f.pad(match *self {
            UnaryOp::Not => "not ",
            UnaryOp::Minus => "-",
            UnaryOp::Coerce => "$",
        })
    }
}

impl fmt::Display for BinaryOp {
    ghost output = { λ op. Some (binary_sign op) };

    fn fmt<W: fmt::Write>(&self, f: &mut fmt::Formatter<W>) -> fmt::Result {
        f.pad(match *self {
            BinaryOp::And => "and",
            BinaryOp::Or => "or",
            BinaryOp::Add => "+",
            BinaryOp::Sub => "-",
            BinaryOp::Mul => "*",
            BinaryOp::Div => "/",
            BinaryOp::Rem => "%",
            BinaryOp::Equal => "=",
            BinaryOp::Unequal => "<>",
            BinaryOp::Less => "<",
            BinaryOp::AtMost => "<=",
            BinaryOp::Greater => ">",
            BinaryOp::AtLeast => ">=",
        })
    }
}
