//! Laws of programs whose footprints are apart where some folders stand.

ghost use Rattle.std.specs.Prelude.{◌⊎◌};
ghost use Rattle.std.specs.BTreeSet.{BTreeSet};
ghost use Rattle.fs_semantics.specs.FileTree.{Path};
ghost use Rattle.fs_semantics.specs.Programs.{Test, Program, run};
ghost use Rattle.fs_semantics.specs.Changes.{IsProper};
ghost use Rattle.effect_sets.specs.Footprints.{Footprint, nowhere, test_footprint, footprint, sure_after, IsClearOf};
ghost use Rattle.effect_sets.specs.Members.{members};
ghost use Rattle.sure_folders.specs.Folders.{In};
ghost use Rattle.commuting_parts.specs.Runs.{LeadsTo, LeavesTest};
ghost use Rattle.commuting_parts.specs.Prints.{TreeWith, CommuteWith, IsClearIn, AreApartIn};

use effect_sets::apart_programs;
use fs_semantics::constructs;
use sure_folders::{apart_where_sure, folders};

/// Programs that are apart where folders stand commute from the trees with those; one that writes none of them keeps them, and
/// leaves the folders that it makes sure of; and one that changes nothing that a test looks at leaves the test.
pub(crate) fn prints()
    ensures commute { (folders : BTreeSet Path) (e f : Program) → IsProper e → IsProper f
        → AreApartIn (members folders) (footprint e) (footprint f) → CommuteWith folders e f }
    ensures keeps { (folders : BTreeSet Path) (e : Program) (g : Footprint) → IsProper e
        → IsClearIn (members folders) (footprint e) g → LeadsTo (TreeWith folders) (TreeWith folders) (run e) }
    ensures makes { (folders more : BTreeSet Path) (e : Program) (g : Footprint) → IsProper e
        → IsClearIn (members folders) (footprint e) g
        → ((p : Path) → In (members more) p → In (members folders) p ⊎ In (sure_after e nowhere) p)
        → LeadsTo (TreeWith folders) (TreeWith more) (run e) }
    ensures test { (folders : BTreeSet Path) (c : Test) (e : Program) → IsProper e
        → IsClearOf (footprint e) (test_footprint c nowhere) → LeavesTest (TreeWith folders) c (run e) }
{
    apart_where_sure();
    folders();
    constructs();
    apart_programs();
}
