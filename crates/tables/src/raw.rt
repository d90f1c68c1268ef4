//! The fields of a row.
ghost use Rattle.std.specs.Prelude.{◌^◌, ◌<◌};

/// A row as its two words give it: the code taken apart, and the arg.
#[derive(Clone, Copy)]
pub struct Raw {
    pub kind: usize,
    pub tail: usize,
    pub arg: i32,
    // a code has 31 bits without its sign
    ghost small: { tail < 2 ^ 25 },
}
