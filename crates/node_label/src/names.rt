//! The names of node blocks.

ghost use Rattle.std.specs.Prelude.{◌≡◌, None, option_map};
ghost use Rattle.std.specs.List.{list_any};
ghost use Rattle.pp_value.specs.Texts.{same_text};
ghost use Rattle.catalog_semantics.specs.Sites.{is_same_node};
ghost use Rattle.node_label.specs.Spelled.{names_of, spelled_among, spelled_in, has_default};

use pp_syntax::Item;
use rh_base::Text;

/// The names of a node block; other items have none.
fn names_of(item: &Item) -> &[Option<Text>]
    ensures { result.now ≡ names_of item.now }
{
    match item {
        Item::Node { names, .. } => names.as_slice(),
        _ => &[],
    }
}

fn same_text(a: &str, b: &str) -> bool
    ensures { result ≡ same_text a.now b.now }
{
    a.as_bytes().eq_ignore_ascii_case(b.as_bytes())
}

/// The first of the names that is the node's, ASCII case aside.
fn spelled_among<'a>(node: &str, names: &'a [Option<Text>]) -> Option<&'a str>
    ensures { option_map (λ name. name.now) result ≡ spelled_among node.now names.now }
{
    for own in names {
        if let Some(name) = own {
            let spelled = name.as_str();
            if same_text(node, spelled) {
                return Some(spelled);
            }
        }
    }
    None
}

/// The first name of a block that is the node's, ASCII case aside.
pub(crate) fn spelled_in<'a>(node: &str, items: &'a [Item]) -> Option<&'a str>
    ensures { option_map (λ name. name.now) result ≡ spelled_in node.now items.now }
{
    for item in items {
        let found = spelled_among(node, names_of(item));
        if found.is_some() {
            return found;
        }
    }
    None
}

fn stands_for_default(names: &[Option<Text>]) -> bool
    ensures { result ≡ list_any (is_same_node None) names.now }
{
    for own in names {
        if own.is_none() {
            return true;
        }
    }
    false
}

/// Whether a block is that of `default`.
pub(crate) fn has_default(items: &[Item]) -> bool
    ensures { result ≡ has_default items.now }
{
    for item in items {
        if stands_for_default(names_of(item)) {
            return true;
        }
    }
    false
}
