//! Reading the six sizes.
ghost use Rattle.std.specs.Prelude.{◌≡◌, ◌<◌, length, MatchOption};
ghost use Rattle.tables.specs.Words.{size, Limited, Sized, Laid};

use crate::ends::{
    Ends, MAX_EXPRESSIONS, MAX_PORTS, MAX_STATEMENTS, MAX_STATES, MAX_TYPES, MAX_VARIABLES,
};

// The size at `i`, if it is not negative and within its limit.
fn size_at(words: &[i32], i: usize, most: usize) -> Option<usize>
    requires { i < length words.now }
    ensures { MatchOption result (Limited words.now i most → ⊥) (λ n. Limited words.now i most × (n ≡ size words.now i)) }
{
    let size = usize::try_from(words[i]).ok()?;
    if size <= most { Some(size) } else { None }
}

// The ends of the sections, if the sizes are right and the words as many as they say.
#[tactic(auto, unfolding(crate::specs::Words::rows_of))]
pub(crate) fn sections(words: &[i32]) -> Option<Ends>
    ensures { MatchOption result (Sized words.now → ⊥) (λ e. Sized words.now × Laid words.now e) }
{
    if words.len() < 6 {
        return None;
    }
    let types = size_at(words, 0, MAX_TYPES)?;
    let variables = types + size_at(words, 1, MAX_VARIABLES)?;
    let ports = variables + size_at(words, 2, MAX_PORTS)?;
    let expressions = ports + size_at(words, 3, MAX_EXPRESSIONS)?;
    let statements = expressions + size_at(words, 4, MAX_STATEMENTS)?;
    let states = size_at(words, 5, MAX_STATES)?;
    let total = statements + states;
    if states == 0 || words.len() != 6 + 2 * total {
        return None;
    }
    Some(Ends {
        types,
        variables,
        ports,
        expressions,
        statements,
        total,
    })
}
