//! The reason for a fault, by the rule that is broken and the row that breaks it.
ghost use Rattle.std.specs.Prelude.{◌≡◌};
ghost use Rattle.text.specs.Reasons.{extent_reason, naming_reason, rule_reason, fault_reason};

use crate::reason::Reason;
use checking::fault::CheckFault;
use tables::form::{Form, StmtForm, TypeForm};
use tables::layout::MAX_LENGTH;
use tables::rule::Rule;

// What is too large about a row.
fn extent_reason(form: Option<Form>) -> Reason
    ensures { result ≡ extent_reason form }
{
    match form {
        Some(Form::TypeRow(TypeForm::Interval { .. })) => Reason::IntervalEnd,
        Some(Form::TypeRow(TypeForm::Array { length, .. }))
            if !(1..=MAX_LENGTH).contains(&length) => { Reason::ArrayLength }
        Some(Form::PortRow(_)) => Reason::PortArray,
        _ => Reason::ManyCells,
    }
}

// What a row names that is not there.
fn naming_reason(form: Option<Form>) -> Reason
    ensures { result ≡ naming_reason form }
{
    match form {
        Some(Form::StmtRow(StmtForm::To { .. })) => Reason::NoState,
        _ => Reason::NoRow,
    }
}

fn rule_reason(rule: Rule, form: Option<Form>) -> Reason
    ensures { result ≡ rule_reason rule form }
{
    match rule {
        Rule::Shape => Reason::NoForm,
        Rule::Naming => naming_reason(form),
        Rule::Extent => extent_reason(form),
        Rule::Typing => Reason::IllTyped,
        Rule::Statement => Reason::IllStated,
        Rule::Communication => Reason::Communicates,
        Rule::Chain => Reason::ChainTargets,
    }
}

impl Reason {
    /// The reason for a fault; `form` is that of the row which it tells.
    pub fn of(fault: CheckFault, form: Option<Form>) -> Reason
        ensures { result ≡ fault_reason fault form }
    {
        match fault {
            CheckFault::Sizes => Reason::SizesWrong,
            CheckFault::Notes => Reason::NotesShort,
            CheckFault::Row(_, rule) => rule_reason(rule, form),
        }
    }
}
