//! What every host has.

use fs_lang::Path;
use given_links::GivenLink;
use rh_base::Seq;

/// Folders that stand on every host, and links that do.
#[derive(Debug, Drop)]
pub struct Given {
    pub folders: Seq<Path>,
    pub links: Seq<GivenLink>,
}
