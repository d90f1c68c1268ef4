//! Judging expressions and places.
ghost use Rattle.std.specs.Prelude.{◌↔◌, IsTrue};
ghost use Rattle.tables.specs.declared.form.Form.TheVariants.{ExprRow};
ghost use Rattle.tables.specs.declared.form.ExprForm.TheVariants.{Literal, Read, Unary, Binary, Conditional, Pair, Variable, Element};
ghost use Rattle.tables.specs.Types.{IsBool, Fits};
ghost use Rattle.tables.specs.Forms.{Is};
ghost use Rattle.tables.specs.Rules.{UnaryTypes, BinaryTypes, ElementTypes};
ghost use Rattle.judging.specs.Judging.{Judges, Nothing};

use crate::candidate::Candidate;
use tables::form::{BinaryOp, ExprForm, Sort, TypeForm, UnaryOp};
use tables::row::row_named;
use tables::rule::Rule;

impl Candidate<'_> {
    ghost use Rattle.judging.specs.Candidates.{candidate_rows};

    fn judge_literal(self, of: usize, value: i32) -> Result<(), Rule>
        requires { Is (candidate_rows self) self.row.number (ExprRow (Literal of value)) }
        ensures { Judges (candidate_rows self.entry) self.entry.row.number (ExprRow (Literal of value)) Nothing result }
    {
        let own = self.own_type(of)?;
        if own.has(i64::from(value)) {
            Ok(())
        } else {
            Err(Rule::Typing)
        }
    }

    fn judge_read(self, of: usize, place: i32) -> Result<(), Rule>
        requires { Is (candidate_rows self) self.row.number (ExprRow (Read of place)) }
        ensures { Judges (candidate_rows self.entry) self.entry.row.number (ExprRow (Read of place)) Nothing result }
    {
        let own = self.own_type(of)?;
        let place = self.type_of(place, Sort::Place)?;
        if place.fits(own) {
            Ok(())
        } else {
            Err(Rule::Typing)
        }
    }

    fn judge_unary(self, op: UnaryOp, of: usize, operand: i32) -> Result<(), Rule>
        requires { Is (candidate_rows self) self.row.number (ExprRow (Unary op of operand)) }
        ensures { Judges (candidate_rows self.entry) self.entry.row.number (ExprRow (Unary op of operand)) Nothing result }
    {
        let own = self.own_type(of)?;
        let operand = self.type_of(operand, Sort::Value)?;
        if unary_types(op, own, operand) {
            Ok(())
        } else {
            Err(Rule::Typing)
        }
    }

    fn judge_binary(self, op: BinaryOp, of: usize, left: i32) -> Result<(), Rule>
        requires { Is (candidate_rows self) self.row.number (ExprRow (Binary op of left)) }
        ensures { Judges (candidate_rows self.entry) self.entry.row.number (ExprRow (Binary op of left)) Nothing result }
    {
        let own = self.own_type(of)?;
        let left = self.type_of(left, Sort::Value)?;
        let right = self.type_of(self.before(), Sort::Value)?;
        if binary_types(op, own, left, right) {
            Ok(())
        } else {
            Err(Rule::Typing)
        }
    }

    fn judge_conditional(self, of: usize, condition: i32) -> Result<(), Rule>
        requires { Is (candidate_rows self) self.row.number (ExprRow (Conditional of condition)) }
        ensures { Judges (candidate_rows self.entry) self.entry.row.number (ExprRow (Conditional of condition)) Nothing result }
    {
        let own = self.own_type(of)?;
        let condition = self.type_of(condition, Sort::Value)?;
        let (if_true, if_false) = self.types_of_pair()?;
        if conditional_types(own, condition, if_true, if_false) {
            Ok(())
        } else {
            Err(Rule::Typing)
        }
    }

    fn judge_pair(self, if_true: i32) -> Result<(), Rule>
        requires { Is (candidate_rows self) self.row.number (ExprRow (Pair if_true)) }
        ensures { Judges (candidate_rows self.entry) self.entry.row.number (ExprRow (Pair if_true)) Nothing result }
    {
        self.named(if_true, Sort::Value)?;
        self.named(self.before(), Sort::Value)?;
        Ok(())
    }

    fn judge_variable_place(self, of: usize, variable: i32) -> Result<(), Rule>
        requires { Is (candidate_rows self) self.row.number (ExprRow (Variable of variable)) }
        ensures { Judges (candidate_rows self.entry) self.entry.row.number (ExprRow (Variable of variable)) Nothing result }
    {
        self.named(of, Sort::DataType)?;
        let variable = self.named(variable, Sort::Variable)?;
        if row_named(variable.row.arg()) == of {
            Ok(())
        } else {
            Err(Rule::Typing)
        }
    }

    fn judge_element(self, of: usize, base: i32) -> Result<(), Rule>
        requires { Is (candidate_rows self) self.row.number (ExprRow (Element of base)) }
        ensures { Judges (candidate_rows self.entry) self.entry.row.number (ExprRow (Element of base)) Nothing result }
    {
        self.named(of, Sort::DataType)?;
        let base = self.type_of(base, Sort::Place)?;
        let index = self.type_of(self.before(), Sort::Value)?;
        if element_types(base, of, index) {
            Ok(())
        } else {
            Err(Rule::Typing)
        }
    }

    pub fn judge_expr(self, f: ExprForm) -> Result<(), Rule>
        requires { Is (candidate_rows self) self.row.number (ExprRow f) }
        ensures { Judges (candidate_rows self.entry) self.entry.row.number (ExprRow f) Nothing result }
    {
        match f {
            ExprForm::Literal { of, value } => self.judge_literal(of, value),
            ExprForm::Read { of, place } => self.judge_read(of, place),
            ExprForm::Unary { op, of, operand } => self.judge_unary(op, of, operand),
            ExprForm::Binary { op, of, left } => self.judge_binary(op, of, left),
            ExprForm::Conditional { of, condition } => self.judge_conditional(of, condition),
            ExprForm::Pair { if_true } => self.judge_pair(if_true),
            ExprForm::Variable { of, variable } => self.judge_variable_place(of, variable),
            ExprForm::Element { of, base } => self.judge_element(of, base),
        }
    }
}

// Whether an operator of one operand may have these types.
fn unary_types(op: UnaryOp, own: TypeForm, operand: TypeForm) -> bool
    ensures { IsTrue result ↔ (UnaryTypes op own operand) }
{
    match op {
        UnaryOp::Not => own.is_bool() && operand.is_bool(),
        UnaryOp::Minus => own.is_numeric() && operand.fits(own),
        UnaryOp::Coerce => own.is_numeric() && operand.is_numeric(),
    }
}

// Whether an operator of two operands may have these types.
fn binary_types(op: BinaryOp, own: TypeForm, a: TypeForm, b: TypeForm) -> bool
    ensures { IsTrue result ↔ (BinaryTypes op own a b) }
{
    match op {
        BinaryOp::And | BinaryOp::Or => own.is_bool() && a.is_bool() && b.is_bool(),
        BinaryOp::Add | BinaryOp::Sub | BinaryOp::Mul | BinaryOp::Div | BinaryOp::Rem =>
            own.is_numeric() && a.fits(own) && b.fits(own),
        BinaryOp::Equal | BinaryOp::Unequal => own.is_bool() && a.is_like(b),
        BinaryOp::Less | BinaryOp::AtMost | BinaryOp::Greater | BinaryOp::AtLeast => own.is_bool()
            && a.is_numeric()
            && b.is_numeric(),
    }
}

// Whether a conditional may have these types.
fn conditional_types(
    own: TypeForm,
    condition: TypeForm,
    if_true: TypeForm,
    if_false: TypeForm,
) -> bool
    ensures { IsTrue result ↔ (IsBool condition × Fits if_true own × Fits if_false own) }
{
    condition.is_bool() && if_true.fits(own) && if_false.fits(own)
}

// Whether an element of such a base, at such an index, has the type at row `of`.
fn element_types(base: TypeForm, of: usize, index: TypeForm) -> bool
    ensures { IsTrue result ↔ (ElementTypes base of index) }
{
    match base {
        TypeForm::Array { length, element } => row_named(element) == of && index.indexes(length),
        TypeForm::Bool | TypeForm::Nat | TypeForm::Int | TypeForm::Interval { .. } => false,
    }
}
