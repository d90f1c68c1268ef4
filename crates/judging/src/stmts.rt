//! Judging statements, and telling whether they communicate.
ghost use Rattle.std.specs.Prelude.{◌≡◌, ◌↔◌, ◌-◌, ◌||◌, IsTrue, MatchOption};
ghost use Rattle.tables.specs.declared.form.Form.TheVariants.{StmtRow};
ghost use Rattle.tables.specs.declared.form.StmtForm.TheVariants.{On, Assign, Further, Any, While, If, Sequence, Select, To, Synchronise, Send, Receive};
ghost use Rattle.tables.specs.Rows.{whole};
ghost use Rattle.tables.specs.Forms.{Is, SortAt, form_at};
ghost use Rattle.tables.specs.Cells.{communicates_by, communicates, port_at, type_at};
ghost use Rattle.tables.specs.Rules.{Follows, IsAssignment, MaySend, MayReceive, Refers, SendsAt, ReceivesAt};
ghost use Rattle.tables.specs.Views.{good_rows};
ghost use Rattle.judging.specs.Judging.{Judges, Nothing};

use crate::candidate::{Candidate, NotedCandidate};
use crate::chain::Chain;
use tables::form::{Direction, PortForm, Sort, StmtForm, TypeForm};
use tables::good::GoodRow;
use tables::row::row_named;
use tables::rule::Rule;

impl<'a> Candidate<'a> {
    ghost use Rattle.judging.specs.Candidates.{candidate_rows};

    fn judge_on(self, guard: i32) -> Result<(), Rule>
        requires { Is (candidate_rows self) self.row.number (StmtRow (On guard)) }
        ensures { Judges (candidate_rows self.entry) self.entry.row.number (StmtRow (On guard)) Nothing result }
    {
        let guard = self.type_of(guard, Sort::Value)?;
        if guard.is_bool() {
            Ok(())
        } else {
            Err(Rule::Statement)
        }
    }

    fn judge_assign(self, place: usize, value: i32) -> Result<(), Rule>
        requires { Is (candidate_rows self) self.row.number (StmtRow (Assign place value)) }
        ensures { Judges (candidate_rows self.entry) self.entry.row.number (StmtRow (Assign place value)) Nothing result }
    {
        let place = self.type_of(place, Sort::Place)?;
        let value = self.type_of(value, Sort::Value)?;
        if value.fits(place) {
            Ok(())
        } else {
            Err(Rule::Statement)
        }
    }

    // The chain that ends just before the row, if one does.
    fn chain_before(self) -> Option<Chain<'a>>
        ensures { MatchOption result (Follows (candidate_rows self.entry) self.entry.row.number Sort.Statement × IsAssignment (form_at (candidate_rows self.entry) (self.entry.row.number - 1)) → ⊥) (λ c. Follows (candidate_rows self.entry) self.entry.row.number Sort.Statement × (c.last.row.table ≡ self.entry.row.table) × (c.last.row.number ≡ self.entry.row.number - 1)) }
    {
        let before = self.row.number.checked_sub(1)?;
        Chain::ending(self.earlier(before))
    }

    fn judge_further(self, place: usize, value: i32) -> Result<(), Rule>
        requires { Is (candidate_rows self) self.row.number (StmtRow (Further place value)) }
        ensures { Judges (candidate_rows self.entry) self.entry.row.number (StmtRow (Further place value)) Nothing result }
    {
        let target = self.type_of(place, Sort::Place)?;
        let value = self.type_of(value, Sort::Value)?;
        let Some(chain) = self.chain_before() else {
            return Err(Rule::Naming);
        };
        if !value.fits(target) {
            return Err(Rule::Statement);
        }
        if chain.takes(self.earlier(place)) {
            Ok(())
        } else {
            Err(Rule::Chain)
        }
    }

    fn judge_any(self, place: i32) -> Result<(), Rule>
        requires { Is (candidate_rows self) self.row.number (StmtRow (Any place)) }
        ensures { Judges (candidate_rows self.entry) self.entry.row.number (StmtRow (Any place)) Nothing result }
    {
        let place = self.type_of(place, Sort::Place)?;
        if place.is_scalar() {
            Ok(())
        } else {
            Err(Rule::Statement)
        }
    }

    fn judge_to(self, state: i32) -> Result<(), Rule>
        requires { Is (candidate_rows self) self.row.number (StmtRow (To state)) }
        ensures { Judges (candidate_rows self.entry) self.entry.row.number (StmtRow (To state)) Nothing result }
    {
        match usize::try_from(state) {
            Ok(state) if state < self.row.table.states() => Ok(()),
            _ => Err(Rule::Naming),
        }
    }

    fn judge_synchronise(self, port: i32) -> Result<(), Rule>
        requires { Is (candidate_rows self) self.row.number (StmtRow (Synchronise port)) }
        ensures { Judges (candidate_rows self.entry) self.entry.row.number (StmtRow (Synchronise port)) Nothing result }
    {
        let port = self.named(port, Sort::Port)?;
        if port.row.port_form() == PortForm::Plain {
            Ok(())
        } else {
            Err(Rule::Statement)
        }
    }

    fn judge_send(self, port: usize, value: i32) -> Result<(), Rule>
        requires { Is (candidate_rows self) self.row.number (StmtRow (Send port value)) }
        ensures { Judges (candidate_rows self.entry) self.entry.row.number (StmtRow (Send port value)) Nothing result }
    {
        let port = self.named(port, Sort::Port)?;
        let value = self.type_of(value, Sort::Value)?;
        if sends_at(port, value) {
            Ok(())
        } else {
            Err(Rule::Statement)
        }
    }

    fn judge_receive(self, port: usize, place: i32) -> Result<(), Rule>
        requires { Is (candidate_rows self) self.row.number (StmtRow (Receive port place)) }
        ensures { Judges (candidate_rows self.entry) self.entry.row.number (StmtRow (Receive port place)) Nothing result }
    {
        let port = self.named(port, Sort::Port)?;
        let place = self.type_of(place, Sort::Place)?;
        if receives_at(port, place) {
            Ok(())
        } else {
            Err(Rule::Statement)
        }
    }
}

impl NotedCandidate<'_> {
    ghost use Rattle.judging.specs.Candidates.{candidate_rows};

    fn judge_while(self, condition: usize, body: i32) -> Result<bool, Rule>
        requires { Is (candidate_rows self.candidate) self.candidate.row.number (StmtRow (While condition body)) }
        ensures { Judges (candidate_rows self.entry.candidate) self.entry.candidate.row.number (StmtRow (While condition body)) (λ b. b ≡ communicates (candidate_rows self.entry.candidate) (whole body)) result }
    {
        let condition = self.candidate.type_of(condition, Sort::Value)?;
        let body = self.part(body)?;
        if !condition.is_bool() {
            return Err(Rule::Statement);
        }
        if body {
            Err(Rule::Communication)
        } else {
            Ok(false)
        }
    }

    fn judge_if(self, condition: usize, then: i32) -> Result<bool, Rule>
        requires { Is (candidate_rows self.candidate) self.candidate.row.number (StmtRow (If condition then)) }
        ensures { Judges (candidate_rows self.entry.candidate) self.entry.candidate.row.number (StmtRow (If condition then)) (λ b. b ≡ (communicates (candidate_rows self.entry.candidate) (whole then) || communicates (candidate_rows self.entry.candidate) (self.entry.candidate.row.number - 1))) result }
    {
        let condition = self.candidate.type_of(condition, Sort::Value)?;
        let then = self.part(then)?;
        let other = self.part(self.candidate.before())?;
        if condition.is_bool() {
            Ok(then || other)
        } else {
            Err(Rule::Statement)
        }
    }

    fn judge_sequence(self, first: usize, second: i32) -> Result<bool, Rule>
        requires { Is (candidate_rows self.candidate) self.candidate.row.number (StmtRow (Sequence first second)) }
        ensures { Judges (candidate_rows self.entry.candidate) self.entry.candidate.row.number (StmtRow (Sequence first second)) (λ b. b ≡ (communicates (candidate_rows self.entry.candidate) first || communicates (candidate_rows self.entry.candidate) (whole second))) result }
    {
        let first = self.part(first)?;
        let second = self.part(second)?;
        if first && second {
            Err(Rule::Communication)
        } else {
            Ok(first || second)
        }
    }

    fn judge_select(self, left: usize, right: i32) -> Result<bool, Rule>
        requires { Is (candidate_rows self.candidate) self.candidate.row.number (StmtRow (Select left right)) }
        ensures { Judges (candidate_rows self.entry.candidate) self.entry.candidate.row.number (StmtRow (Select left right)) (λ b. b ≡ (communicates (candidate_rows self.entry.candidate) left || communicates (candidate_rows self.entry.candidate) (whole right))) result }
    {
        let left = self.part(left)?;
        let right = self.part(right)?;
        Ok(left || right)
    }

    /// Judges the statement, and tells whether it communicates.
    pub fn judge_stmt(self, f: StmtForm) -> Result<bool, Rule>
        requires { Is (candidate_rows self.candidate) self.candidate.row.number (StmtRow f) }
        ensures { Judges (candidate_rows self.entry.candidate) self.entry.candidate.row.number (StmtRow f) (λ b. b ≡ communicates_by f self.entry.candidate.row.number (communicates (candidate_rows self.entry.candidate))) result }
    {
        let candidate = self.candidate;
        match f {
            StmtForm::Null | StmtForm::Loop => Ok(false),
            StmtForm::On { guard } => candidate.judge_on(guard).map(|()| false),
            StmtForm::Assign { place, value } => candidate
                .judge_assign(place, value)
                .map(|()| false),
            StmtForm::Further { place, value } => candidate
                .judge_further(place, value)
                .map(|()| false),
            StmtForm::Any { place } => candidate.judge_any(place).map(|()| false),
            StmtForm::While { condition, body } => self.judge_while(condition, body),
            StmtForm::If { condition, then } => self.judge_if(condition, then),
            StmtForm::Sequence { first, second } => self.judge_sequence(first, second),
            StmtForm::Select { left, right } => self.judge_select(left, right),
            StmtForm::To { state } => candidate.judge_to(state).map(|()| false),
            StmtForm::Synchronise { port } => candidate.judge_synchronise(port).map(|()| true),
            StmtForm::Send { port, value } => candidate.judge_send(port, value).map(|()| true),
            StmtForm::Receive { port, place } => candidate
                .judge_receive(port, place)
                .map(|()| true),
        }
    }
}

// Whether a value may be sent that way. (One function over both ways would be handed the answer as a constant.)
fn may_send(way: Direction) -> bool
    ensures { IsTrue result ↔ MaySend way }
{
    matches!(way, Direction::Sends | Direction::Either)
}

fn may_receive(way: Direction) -> bool
    ensures { IsTrue result ↔ MayReceive way }
{
    matches!(way, Direction::Receives | Direction::Either)
}

// The type at row `of`, which the port names.
fn carried(port: GoodRow<'_>, of: i32) -> TypeForm
    requires { Refers (good_rows port) port.row.number Sort.DataType of }
    ensures { result ≡ type_at (good_rows port.entry) (whole of) }
{
    port.earlier(row_named(of)).row.type_form()
}

// Whether a value of this type may be sent at the port.
#[tactic(auto, using(crate::proofs::LayoutLaws::ports))]
fn sends_at(port: GoodRow<'_>, value: TypeForm) -> bool
    requires { SortAt (good_rows port) port.row.number Sort.Port }
    ensures { IsTrue result ↔ SendsAt (good_rows port.entry) (port_at (good_rows port.entry) port.entry.row.number) value }
{
    match port.row.port_form() {
        PortForm::Plain => false,
        PortForm::Carries { way, of } => may_send(way) && value.fits(carried(port, of)),
    }
}

// Whether what the port carries may be received into a place of this type.
#[tactic(auto, using(crate::proofs::LayoutLaws::ports))]
fn receives_at(port: GoodRow<'_>, place: TypeForm) -> bool
    requires { SortAt (good_rows port) port.row.number Sort.Port }
    ensures { IsTrue result ↔ ReceivesAt (good_rows port.entry) (port_at (good_rows port.entry) port.entry.row.number) place }
{
    match port.row.port_form() {
        PortForm::Plain => false,
        PortForm::Carries { way, of } => may_receive(way) && carried(port, of).fits(place),
    }
}
