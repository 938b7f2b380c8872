//! A run that fails from the tree of the given folders alone.

ghost use Rattle.std.specs.Prelude.{◌≡◌, length, map, IfOk};
ghost use Rattle.fs_lang.specs.Meaning.{program_of};
ghost use Rattle.given_hosts.specs.Given.{SucceedsFrom};
ghost use Rattle.orders.specs.Relation.{Comes};
ghost use Rattle.explained_runs.specs.Lines.{from_line};
ghost use Rattle.explained_runs.specs.Told.{TellsFromNothing};

use crate::given::given_tree;
use crate::pieces::push_from;
use crate::runs::how_it_ends;
use fs_lang::{Path, Program, Tree};
use orders::Order;
use rh_base::{NoMemory, Seq, Text};
use std::alloc::Global;

fn line_from(alloc: Global, tree: &Tree, how: &Text) -> Result<Seq<u8>, NoMemory>
    ensures { IfOk result (λ line. line ≡ from_line tree.now how.now) }
{
    let mut bytes = Vec::new(alloc);
    push_from(alloc, tree, how.as_str(), &mut bytes)?;
    Ok(Seq::from_vec(bytes))
}

/// The line on where the first extension of a graph that never succeeds fails from the tree of the given folders alone.
pub fn nothing_line(
    alloc: Global,
    names: &[Text],
    programs: &[Program],
    order: &Order,
    given: &[Path],
) -> Result<Seq<u8>, NoMemory>
    requires { length programs.now ≡ order.now.count }
    ensures { IfOk result (λ line. (SucceedsFrom given.now (map program_of programs.now) (Comes order.now) → ⊥)
        → TellsFromNothing given.now names.now (map program_of programs.now) order.now line) }
{
    let first = order.first_extension()?;
    let tree = given_tree(alloc, given)?;
    let how = how_it_ends(alloc, names, programs, first.as_slice(), &tree)?;
    line_from(alloc, &tree, &how)
}
