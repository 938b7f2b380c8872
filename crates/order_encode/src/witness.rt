//! What a model of a question shows.

use fs_lang::Tree;
use rh_base::Seq;

/// A tree over the domain, and two allowed orders that end differently from it; or the first extension, of which a second run
/// changes what the first one left; or the first extension, which ends in a tree.
#[derive(Debug, Drop)]
pub enum Witness {
    Orders {
        tree: Tree,
        left: Seq<u32>,
        right: Seq<u32>,
    },
    Twice {
        tree: Tree,
        order: Seq<u32>,
    },
    Ends {
        tree: Tree,
        order: Seq<u32>,
    },
}
