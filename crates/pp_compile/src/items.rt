//! The main code: what stands at the top, and the node's block.

ghost use Rattle.std.specs.Prelude.{map};
ghost use Rattle.pp_eval.specs.Evaluating.{AnswersBy};
ghost use Rattle.catalog_semantics.specs.Sites.{node_block};
ghost use Rattle.catalog_semantics.specs.States.{in_turn};
ghost use Rattle.catalog_semantics.specs.Catalogs.{item_effect, node_effect, main_code};

use crate::defaults::give_default;
use pp_declaration_state::State;
use pp_declarations::{run_block, run_statement};
use pp_definitions::Site;
use pp_syntax::{Item, Manifest};
use rh_base::Fault;
use std::alloc::Global;

/// One item at the top; definitions do nothing.
fn run_item(alloc: Global, site: &Site<'_>, item: &Item, state: &mut State) -> Result<(), Fault>
    ensures { AnswersBy (λ done. state.new) (item_effect site.now item.now state.old) result }
{
    match item {
        Item::Defaults { at, kind, attrs } => {
            give_default(alloc, site, *at, kind.as_str(), attrs.as_slice(), state)
        }
        Item::Plain(s) => run_statement(alloc, site, s, state),
        _ => Ok(()),
    }
}

/// The items at the top, one after the other.
fn run_items(alloc: Global, site: &Site<'_>, items: &[Item], state: &mut State) -> Result<(), Fault>
    ensures { AnswersBy (λ done. state.new) (in_turn (map (item_effect site.now) items.now) state.old) result }
{
    for item in items {
        match run_item(alloc, site, item, state) {
            Ok(()) => {}
            Err(fault) => return Err(fault),
        }
    }
    Ok(())
}

/// The block of the node, if there is one, in the node's scope.
fn run_node(alloc: Global, site: &Site<'_>, state: &mut State) -> Result<(), Fault>
    ensures { AnswersBy (λ done. state.new) (node_effect site.now (node_block site.now) state.old) result }
{
    let Some(node) = site.node_block() else {
        return Ok(());
    };
    state.enter_node()?;
    run_block(alloc, site, node.body(), state)
}

/// What stands at the top, then the node's block, and then the defaults.
pub fn main_code(
    alloc: Global,
    site: &Site<'_>,
    manifest: &Manifest,
    state: &mut State,
) -> Result<(), Fault>
    ensures { AnswersBy (λ done. state.new) (main_code site.now manifest.now.items state.old) result }
{
    run_items(alloc, site, manifest.items.as_slice(), state)?;
    run_node(alloc, site, state)?;
    state.end_main()
}
