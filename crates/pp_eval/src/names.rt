//! The parts of a variable's name.

ghost use Rattle.std.specs.Prelude.{◌≡◌, ◌<◌, false, ◌∷◌, ◌++◌, length, MatchOption};
ghost use Rattle.std.specs.List.{list_any};
ghost use Rattle.pp_eval.specs.Names.{is_colon, variable_in, unrooted, scope_in, is_qualified};

fn has_colon(name: &[u8]) -> bool
    ensures { result ≡ list_any is_colon name.now }
{
    for c in name {
        if *c == b':' {
            return true;
        }
    }
    false
}

/// Whether the name names a scope.
pub fn is_qualified(name: &str) -> bool
    ensures { result ≡ is_qualified name.now }
{
    has_colon(name.as_bytes())
}

/// What stands before the first colon, and behind it.
fn cut(text: &str) -> Option<(&str, &str)>
    ensures { MatchOption result (list_any is_colon text.now ≡ false) (λ x. (text.now ≡ x.0.now ++ 58 ∷ x.1.now)
        × (length x.1.now < length text.now)) }
{
    text.split_once(':')
}

/// What stands behind the last colon.
#[tactic(auto, using(crate::proofs::NameLaws::past_colon, crate::proofs::NameLaws::no_colon))]
pub fn variable_in(name: &str) -> &str
    ensures { result.now ≡ variable_in name.now }
{
    let mut rest = name;
    while let Some((_, tail)) = cut(rest) {
        rest = tail;
    }
    rest
}

fn unrooted(text: &[u8]) -> &[u8]
    ensures { result.now ≡ unrooted text.now }
{
    let Some((c, more)) = text.split_first() else {
        return text;
    };
    let Some((d, rest)) = more.split_first() else {
        return text;
    };
    let two = *c == b':' && *d == b':';
    if two { rest } else { text }
}

/// The name of the scope that a qualified name names; empty for the top.
pub fn scope_in(name: &str) -> &[u8]
    ensures { result.now ≡ scope_in name.now }
{
    let bytes = name.as_bytes();
    let front = bytes.len().saturating_sub(variable_in(name).len());
    let end = front.saturating_sub(2);
    unrooted(&bytes[..end])
}
