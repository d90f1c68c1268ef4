//! Texts and the words that they hold, and texts that hold none.
use std::process::Abort;
use std::test::Fail;
use text::error::ReadError;
use text::read::read_words;
use text::write::words_text;

fn reads(rt: &(impl Abort + AllocGlobal), text: &str, words: &[i32]) -> Result<(), Fail> {
    assert_eq!(rt; read_words(rt.alloc(), text.as_bytes())?.as_slice(), words);
    Ok(())
}

fn fails(rt: &(impl Abort + AllocGlobal), text: &str, error: ReadError) {
    assert_eq!(rt; read_words(rt.alloc(), text.as_bytes()).err(), Some(error));
}

#[test]
fn words_stand_between_blanks_and_line_ends(rt: HostRuntime) -> Result<(), Fail> {
    reads(&rt, "", &[])?;
    reads(&rt, "7", &[7])?;
    reads(&rt, " 1\t-2\r\n\n003 -0\n", &[1, -2, 3, 0])?;
    reads(&rt, "-2147483648 2147483647", &[-2147483648, 2147483647])
}

#[test]
fn comments_go_to_the_end_of_their_line(rt: HostRuntime) -> Result<(), Fail> {
    reads(&rt, "# 1 x\n2#3 # -\n4", &[2, 4])?;
    reads(&rt, "5 # the last line", &[5])
}

#[test]
fn what_is_no_number_is_told_with_its_line(rt: HostRuntime) {
    fails(&rt, "x", ReadError::NotANumber { line: 1 });
    fails(&rt, "1\n2 # y\n3z\n4", ReadError::NotANumber { line: 3 });
    fails(&rt, "1\n-\n2", ReadError::NotANumber { line: 2 });
    fails(&rt, "1\n\n-", ReadError::NotANumber { line: 3 });
    fails(&rt, "1-2", ReadError::NotANumber { line: 1 });
    fails(&rt, "+1", ReadError::NotANumber { line: 1 });
}

#[test]
fn a_number_outside_the_words_is_told_with_its_line(rt: HostRuntime) {
    fails(&rt, "\n2147483648", ReadError::TooLarge { line: 2 });
    fails(&rt, "-2147483649\n", ReadError::TooLarge { line: 1 });
    fails(
        &rt,
        "1\n99999999999999999999",
        ReadError::TooLarge { line: 2 },
    );
}

#[test]
fn errors_have_a_message(rt: HostRuntime) -> Result<(), Fail> {
    let word = ReadError::NotANumber { line: 3 }.to_string(rt.alloc())?;
    assert_eq!(rt; word.as_str(), "line 3: not a number");
    let size = ReadError::TooLarge { line: 12 }.to_string(rt.alloc())?;
    assert_eq!(rt;
        size.as_str(),
        "line 12: a number outside -2147483648..2147483647"
    );
    Ok(())
}

#[test]
fn words_are_written_and_read_back(rt: HostRuntime) -> Result<(), Fail> {
    let words = [0, -1, 10, -2147483648, 2147483647];
    let text = words_text(rt.alloc(), &words)?;
    assert_eq!(rt; text.as_str(), "0 -1 10 -2147483648 2147483647 ");
    reads(&rt, text.as_str(), &words)
}
