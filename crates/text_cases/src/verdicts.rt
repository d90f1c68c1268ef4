//! The lines of verdicts and notes.
use checking::fault::CheckFault;
use std::process::Abort;
use std::test::Fail;
use tables::rule::Rule;
use text::verdict::{accepted, notes, refused};

fn says(
    rt: &(impl Abort + AllocGlobal),
    words: &[i32],
    fault: CheckFault,
    line: &str,
) -> Result<(), Fail> {
    assert_eq!(rt; refused(rt.alloc(), words, fault)?.as_str(), line);
    Ok(())
}

#[test]
fn good_models_are_accepted(rt: HostRuntime) -> Result<(), Fail> {
    assert_eq!(rt;
        accepted(rt.alloc(), 14, 1, 1)?.as_str(),
        "accepted: rows 14, cells 1, states 1"
    );
    Ok(())
}

#[test]
fn notes_stand_in_one_line(rt: HostRuntime) -> Result<(), Fail> {
    let heap = rt.alloc();
    assert_eq!(rt; notes(heap, &[0, 1, 12])?.as_str(), "notes: 0 1 12");
    assert_eq!(rt; notes(heap, &[])?.as_str(), "notes:");
    Ok(())
}

#[test]
fn faults_without_a_row(rt: HostRuntime) -> Result<(), Fail> {
    let sizes = "refused 1: the sizes are wrong";
    says(&rt, &[], CheckFault::Sizes, sizes)?;
    let short = "refused 2: there are fewer notes than rows";
    says(&rt, &[], CheckFault::Notes, short)
}

#[test]
fn rules_with_one_reason(rt: HostRuntime) -> Result<(), Fail> {
    let lines = [
        (
            CheckFault::Row(0, Rule::Shape),
            "refused 3 at row 0: the kind, the tail or the arg is not of the section's form",
        ),
        (
            CheckFault::Row(1, Rule::Typing),
            "refused 6 at row 1: the expression or the place is ill typed",
        ),
        (
            CheckFault::Row(2, Rule::Statement),
            "refused 7 at row 2: the statement is ill typed",
        ),
        (
            CheckFault::Row(30, Rule::Communication),
            "refused 8 at row 30: a sequence or a while communicates wrongly",
        ),
        (
            CheckFault::Row(3551, Rule::Chain),
            "refused 9 at row 3551: a chain has more than 8 targets or two in one variable",
        ),
    ];
    for (fault, line) in lines {
        says(&rt, &[], fault, line)?;
    }
    Ok(())
}

// An interval, an array of length 0, one of length 1025 and one of length 1024; a variable; a port; a `to`; a state.
const TABLE: [i32; 22] = [
    4, 1, 1, 0, 1, 1, 3, 4, 65604, 65540, 8, 73, 41, 48, 0, 0, 0, 2, 0, 3, 9, 9,
];

#[test]
fn rules_with_a_reason_by_the_row(rt: HostRuntime) -> Result<(), Fail> {
    let lines = [
        (
            CheckFault::Row(0, Rule::Extent),
            "refused 5 at row 0: an interval's end passes 2147483647",
        ),
        (
            CheckFault::Row(1, Rule::Extent),
            "refused 5 at row 1: an array's length is not 1 to 1024",
        ),
        (
            CheckFault::Row(2, Rule::Extent),
            "refused 5 at row 2: an array's length is not 1 to 1024",
        ),
        (
            CheckFault::Row(3, Rule::Extent),
            "refused 5 at row 3: a type or the variables take more than 4096 cells",
        ),
        (
            CheckFault::Row(4, Rule::Extent),
            "refused 5 at row 4: a type or the variables take more than 4096 cells",
        ),
        (
            CheckFault::Row(5, Rule::Extent),
            "refused 5 at row 5: a port carries an array",
        ),
        (
            CheckFault::Row(4, Rule::Naming),
            "refused 4 at row 4: a named row is not an earlier one of the right sort",
        ),
        (
            CheckFault::Row(6, Rule::Naming),
            "refused 4 at row 6: there is no such state",
        ),
    ];
    for (fault, line) in lines {
        says(&rt, &TABLE, fault, line)?;
    }
    Ok(())
}
