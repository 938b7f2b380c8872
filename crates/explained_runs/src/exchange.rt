//! The neighbours that are exchanged.

ghost use Rattle.std.specs.Prelude.{◌≡◌};
ghost use Rattle.verdict_text.specs.Lines.{name_at};
ghost use Rattle.explained_runs.specs.Steps.{first_apart};

use rh_base::Text;

/// What stands at the first place at which two orders differ.
pub(crate) fn first_apart(left: &[u32], right: &[u32]) -> (u32, u32)
    ensures { result ≡ first_apart left.now right.now }
{
    let mut rest = right;
    for i in left {
        let Some((j, more)) = rest.split_first() else {
            return (0, 0);
        };
        if *i != *j {
            return (*i, *j);
        }
        rest = more;
    }
    (0, 0)
}

/// The name of the resource at a position; it is empty past the end.
pub(crate) fn name_at(names: &[Text], i: u32) -> &str
    ensures { result.now ≡ name_at names.now i }
{
    match names.get(i as usize) {
        Some(name) => name.as_str(),
        None => "",
    }
}
