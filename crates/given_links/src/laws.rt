//! What paths and programs are read as.

ghost use Rattle.std.specs.Prelude.{◌≡◌, ◌↔◌, ◌++◌, [], List};
ghost use Rattle.fs_semantics.specs.FileTree.{Path};
ghost use Rattle.fs_semantics.specs.Programs.{Program};
ghost use Rattle.finite_domain.specs.Mentions.{Matter, Mentions};
ghost use Rattle.given_links.specs.declared.links.GivenLink.{GivenLink};
ghost use Rattle.given_links.specs.Links.{AreLinks, IsOneOf, IsBehindNone, IsReadAs};
ghost use Rattle.given_links.specs.Reading.{read_as, program_read_as, matter_with};

/// Each path is read as one path, which lies below no link; a path below a link's path and the same below its target are read
/// alike, and where there is no link a path is read as itself.
pub fn path_readings()
    ensures exact { (links : List GivenLink) → AreLinks links → (p q : Path) → IsReadAs links p q ↔ (q ≡ read_as links p) }
    ensures alike { (links : List GivenLink) → AreLinks links → (l : GivenLink) → IsOneOf l links → (more : Path)
        → read_as links (l.path ++ more) ≡ read_as links (l.target ++ more) }
    ensures behind_none { (links : List GivenLink) → AreLinks links → (p : Path) → IsBehindNone (read_as links p) links }
    ensures none { (p : Path) → read_as [] p ≡ p }
{}

/// What a program is read as speaks of what the program speaks of, each path read; and where there is no link it is the same
/// program.
pub fn program_readings()
    ensures mentions { (links : List GivenLink) (e : Program) (y : Matter) → Mentions (program_read_as links e) y
        ↔ ((x : Matter) × Mentions e x × (y ≡ matter_with (read_as links) x)) }
    ensures none { (e : Program) → program_read_as [] e ≡ e }
{}
