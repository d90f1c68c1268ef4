//! One byte after another: how bytes make up whole numbers.
ghost use Rattle.std.specs.Prelude.{◌≡◌};
ghost use Rattle.text.specs.Scan.{class_of, onward, ending, shifted, longer, between, in_comment, after_minus, in_number, step};
ghost use Rattle.text.specs.Meaning.{at};

use crate::error::ReadError;

#[derive(Clone, Copy)]
pub enum Class {
    Blank,
    LineEnd,
    Hash,
    Dash,
    Digit(u8),
    Other,
}

/// What the digits of a number so far stand for.
#[derive(Clone, Copy)]
pub struct Numeral {
    // no value shows it while all digits are 0
    negative: bool,
    value: i32,
}

#[derive(Clone, Copy)]
pub enum Mode {
    /// before the next number
    Between,
    Comment,
    /// after a minus sign that no digit has followed yet
    Minus,
    Number(Numeral),
}

#[derive(Clone, Copy)]
pub enum Flaw {
    NotANumber,
    TooLarge,
}

/// What a byte brings: the mode after it, and the word that it ends.
#[derive(Clone, Copy)]
pub struct Step {
    pub mode: Mode,
    pub word: Option<i32>,
}

impl From<u8> for Class {
    ghost from_gives = { λ b class. class ≡ class_of b };

    fn from(b: u8) -> Class {
        match b {
            b' ' | b'\t' | b'\r' => Class::Blank,
            b'\n' => Class::LineEnd,
            b'#' => Class::Hash,
            b'-' => Class::Dash,
            b'0'..=b'9' => Class::Digit(b - b'0'),
            _ => Class::Other,
        }
    }
}

impl Flaw {
    /// The error on this line.
    pub fn at(self, line: usize) -> ReadError
        ensures { result ≡ at line self }
    {
        match self {
            Flaw::NotANumber => ReadError::NotANumber { line },
            Flaw::TooLarge => ReadError::TooLarge { line },
        }
    }
}

// No word is complete.
impl From<Mode> for Step {
    ghost from_gives = { λ mode step. step ≡ onward mode };

    fn from(mode: Mode) -> Step {
        Step { mode, word: None }
    }
}

impl Numeral {
    fn shifted(self, digit: u8) -> i64
        ensures { result ≡ shifted self.negative self.value digit }
    {
        let tens = 10 * i64::from(self.value);
        if self.negative {
            tens - i64::from(digit)
        } else {
            tens + i64::from(digit)
        }
    }

    // The number with one digit more.
    fn longer(self, digit: u8) -> Result<Mode, Flaw>
        ensures { result ≡ longer self digit }
    {
        let value = i32::try_from(self.shifted(digit)).map_err(|_| Flaw::TooLarge)?;
        Ok(Mode::Number(Numeral { value, ..self }))
    }

    fn ending(self, mode: Mode) -> Step
        ensures { result ≡ ending self.value mode }
    {
        Step {
            mode,
            word: Some(self.value),
        }
    }
}

fn between(class: Class) -> Result<Mode, Flaw>
    ensures { result ≡ between class }
{
    match class {
        Class::Blank | Class::LineEnd => Ok(Mode::Between),
        Class::Hash => Ok(Mode::Comment),
        Class::Dash => Ok(Mode::Minus),
        Class::Digit(d) => Ok(Mode::Number(Numeral {
            negative: false,
            value: i32::from(d),
        })),
        Class::Other => Err(Flaw::NotANumber),
    }
}

fn in_comment(class: Class) -> Mode
    ensures { result ≡ in_comment class }
{
    match class {
        Class::LineEnd => Mode::Between,
        _ => Mode::Comment,
    }
}

fn after_minus(class: Class) -> Result<Mode, Flaw>
    ensures { result ≡ after_minus class }
{
    match class {
        Class::Digit(d) => Ok(Mode::Number(Numeral {
            negative: true,
            value: -i32::from(d),
        })),
        _ => Err(Flaw::NotANumber),
    }
}

fn in_number(numeral: Numeral, class: Class) -> Result<Step, Flaw>
    ensures { result ≡ in_number numeral class }
{
    match class {
        Class::Blank | Class::LineEnd => Ok(numeral.ending(Mode::Between)),
        Class::Hash => Ok(numeral.ending(Mode::Comment)),
        Class::Digit(d) => numeral.longer(d).map(Step::from),
        Class::Dash | Class::Other => Err(Flaw::NotANumber),
    }
}

impl Mode {
    pub fn step(self, class: Class) -> Result<Step, Flaw>
        ensures { result ≡ step self class }
    {
        match self {
            Mode::Between => between(class).map(Step::from),
            Mode::Comment => Ok(Step::from(in_comment(class))),
            Mode::Minus => after_minus(class).map(Step::from),
            Mode::Number(numeral) => in_number(numeral, class),
        }
    }
}
