//! A node more for a table.

ghost use Rattle.std.specs.Prelude.{◌≡◌, ◌<◌, ◌++◌, ◌∷◌, [], length, IfSome, OnOk, OnErr};
ghost use Rattle.fs_interpreter.specs.Growth.{seen, seen_all, linked, linked_top};

use crate::table::Node;
use rh_base::NoMemory;

/// Puts a new place last among the children of the place above, or else of the root.
fn link(
    nodes: &mut Vec<Node>,
    top: &mut Vec<usize>,
    above: Option<usize>,
    i: usize,
) -> Result<(), NoMemory>
    requires { IfSome above (λ j. j < length nodes.old.items) }
    ensures nodes { OnOk result (seen_all nodes.new.items ≡ linked above i (seen_all nodes.old.items)) }
    ensures top { OnOk result (top.new.items ≡ linked_top above i top.old.items) }
    ensures same { OnErr result (seen_all nodes.new.items ≡ seen_all nodes.old.items) }
    ensures same_top { OnErr result (top.new.items ≡ top.old.items) }
{
    match above {
        Some(j) => nodes[j].children.push(i)?,
        None => top.push(i)?,
    }
    Ok(())
}

/// Puts a node last, as a child of its parent.
pub(crate) fn push_node(
    nodes: &mut Vec<Node>,
    top: &mut Vec<usize>,
    node: Node,
) -> Result<(), NoMemory>
    requires { IfSome node.parent (λ j. j < length nodes.old.items) }
    ensures nodes { OnOk result
        (seen_all nodes.new.items ≡ linked node.parent (length nodes.old.items)
        (seen_all nodes.old.items ++ seen node ∷ [])) }
    ensures top { OnOk result (top.new.items ≡ linked_top node.parent (length nodes.old.items) top.old.items) }
    ensures same { OnErr result (seen_all nodes.new.items ≡ seen_all nodes.old.items) }
    ensures same_top { OnErr result (top.new.items ≡ top.old.items) }
{
    let i = nodes.len();
    let above = node.parent;
    nodes.push(node)?;
    let done = link(nodes, top, above, i);
    if done.is_err() {
        nodes.pop();
    }
    done
}
