//! The line on the node block that runs.

ghost use Rattle.std.specs.Prelude.{◌≡◌, ◌<◌, ◌^◌, length, IfOk, IfErr};
ghost use Rattle.rh_base.specs.Refused.{IfRefused};
ghost use Rattle.pp_compile.specs.Sources.{IsSourceRefusal};
ghost use Rattle.node_label.specs.Labels.{named_line, default_line, IsNodeLineOf};
ghost use Rattle.node_label.specs.Spelled.{line_of};

use crate::names::{has_default, spelled_in};
use pp_compile::manifest_of;
use pp_syntax::Item;
use printed_names::printed;
use rh_base::{Fault, NoMemory, Text};
use std::alloc::Global;

fn named_line(alloc: Global, name: &str) -> Result<Text, NoMemory>
    ensures { IfOk result (λ line. line ≡ named_line name.now) }
{
    let shown = printed(alloc, name)?;
    let mut line = Text::new(alloc);
    line.push("node ")?;
    line.push(shown.as_str())?;
    line.push("\n")?;
    Ok(line)
}

fn default_line(alloc: Global) -> Result<Text, NoMemory>
    ensures { IfOk result (λ line. line ≡ default_line) }
{
    let mut line = Text::new(alloc);
    line.push("node default\n")?;
    Ok(line)
}

/// The line on the block that runs, of the items of a manifest.
fn line_of(alloc: Global, node: &str, items: &[Item]) -> Result<Text, NoMemory>
    ensures { IfOk result (λ line. line ≡ line_of node.now items.now) }
{
    match spelled_in(node, items) {
        Some(name) => named_line(alloc, name),
        None => {
            if has_default(items) {
                default_line(alloc)
            } else {
                Ok(Text::new(alloc))
            }
        }
    }
}

/// The line on the node block that runs, where a manifest has node blocks.
pub fn node_line(alloc: Global, text: &[u8], node: &str) -> Result<Text, Fault>
    requires { length text.now < 2 ^ 32 }
    ensures line { IfOk result (IsNodeLineOf text.now node.now) }
    ensures refused { IfErr result (λ e. IfRefused e (IsSourceRefusal text.now)) }
{
    let manifest = manifest_of(alloc, text)?;
    let line = line_of(alloc, node, manifest.items.as_slice())?;
    Ok(line)
}
