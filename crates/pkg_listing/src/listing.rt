//! Packages and their listing.

ghost use Rattle.std.specs.Prelude.{◌≡◌, [], IfSome, IfOk, option_map};
ghost use Rattle.pp_value.specs.Keys.{value_at};
ghost use Rattle.pkg_listing.specs.Packages.{IsFit, AreFit};

use fs_lang::Path;
use pp_value::Keyed;
use rh_base::{NoMemory, Seq, Text};
use std::alloc::Global;
use std::marker::Model;

/// How many bytes a digest may have.
pub(crate) const DIGEST_BYTES: usize = 255;

/// A file of a package. Files with one digest have one content.
#[derive(Drop)]
pub struct Listed {
    pub path: Path,
    pub digest: Option<Text>,
}

/// What a package has, in the order in which it is listed.
#[derive(Drop)]
pub struct Package {
    pub files: Seq<Listed>,
    pub folders: Seq<Path>,
}

/// Packages by their names, which contracts see as pairs in the order of the names' bytes.
#[derive(Drop)]
pub struct Listing {
    packages: Keyed<Package>,
}

impl Model for Listing {
    ghost use Rattle.std.specs.Prelude.{List, ℕ};
    ghost use Rattle.std.specs.Coded.{coded_list, coded×, coded_ℕ};
    ghost use Rattle.pkg_listing.specs.declared.listing.Package.{Package};
    ghost use Rattle.pkg_listing.specs.contracts.listing.Package as stored;
    ghost use Rattle.pkg_listing.specs.Packages.{AreFit};

    ghost Value = { List (List ℕ × Package) };

    ghost coded = { coded_list (coded× (coded_list coded_ℕ) stored.the_row.coded) };

    ghost view = { λ l. l.packages };

    ghost invariant = { λ l. AreFit l.packages };
}

impl Listing {
    /// The listing of no package.
    pub fn empty(alloc: Global) -> Result<Listing, NoMemory>
        ensures { IfOk result (λ l. l ≡ []) }
    {
        Ok(Listing {
            packages: Keyed::new(alloc),
        })
    }

    /// The listing of these packages.
    pub(crate) fn of(packages: Keyed<Package>) -> Listing
        requires { AreFit packages }
        ensures { result ≡ packages }
    {
        Listing { packages }
    }

    /// The package of a name, found by its hash.
    pub fn find(&self, name: &str) -> Option<&Package>
        ensures found { option_map (λ p. p.now) result ≡ value_at name.now self.now }
        ensures fit { IfSome result (λ p. IsFit p.now) }
    {
        self.packages.find(name)
    }

    /// All packages.
    pub fn packages(&self) -> &[(Text, Package)]
        ensures packages { result.now ≡ self.now }
        ensures fit { AreFit self.now }
    {
        self.packages.as_slice()
    }
}
