//! Paths by number, so that sets of them are compared as sets of numbers: interning. A path is compared with others once, where
//! it gets its number, and not once for each pair of programs.

ghost use Rattle.std.specs.Prelude.{◌≡◌, Some, IfOk, OnOk};
ghost use Rattle.effect_sets.specs.Members.{members};
ghost use Rattle.commute_prune.specs.Numbers.{number_in, IsNumbering, Extends, AreNumbers};

use fs_lang::Path;
use rh_base::NoMemory;
use std::alloc::Global;
use std::collections::{BTreeMap, BTreeSet};

/// The number of a path, a new one where it has none.
fn number(alloc: Global, numbers: &mut BTreeMap<Path, usize>, p: &Path) -> Result<usize, NoMemory>
    requires { IsNumbering numbers.old }
    ensures numbering { OnOk result (IsNumbering numbers.new) }
    ensures extends { OnOk result (Extends numbers.old numbers.new) }
    ensures number { IfOk result (λ n. number_in numbers.new p.now ≡ Some n) }
{
    if let Some(n) = numbers.get(p) {
        return Ok(*n);
    }
    let n = numbers.len();
    let key = p.copy(alloc)?;
    numbers.insert(key, n)?;
    Ok(n)
}

/// The numbers of all these paths.
pub(crate) fn number_all(
    alloc: Global,
    numbers: &mut BTreeMap<Path, usize>,
    paths: &BTreeSet<Path>,
) -> Result<Vec<usize>, NoMemory>
    requires { IsNumbering numbers.old }
    ensures numbering { OnOk result (IsNumbering numbers.new) }
    ensures extends { OnOk result (Extends numbers.old numbers.new) }
    ensures numbers { IfOk result (λ ns. AreNumbers numbers.new (members paths.now) ns.items) }
{
    let mut listed = Vec::new(alloc);
    for p in paths {
        let n = number(alloc, numbers, p)?;
        listed.push(n)?;
    }
    Ok(listed)
}
