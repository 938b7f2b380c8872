//! Laws on tests and programs.

ghost use Rattle.std.specs.Prelude.{◌≡◌, ◌↔◌, ◌⊎◌, IsTrue, List, ℕ, Some, None};
ghost use Rattle.std.specs.FinMap as map;
ghost use Rattle.fs_semantics.specs.FileTree.{Path, Folder, File, Link as LinkTo, Tree, IsTree, HasParents};
ghost use Rattle.fs_semantics.specs.Entries.{IsFileAt, IsLinkAt, IsFolderAt, IsFreeAt, HasNoChild, Makes, Removes, Copies};
ghost use Rattle.fs_semantics.specs.Programs.{Test, True, False, Not, And, Or, IsFile, IsLink, IsDir, IsEmpty, IsNone, Program, Programs, Id, Err, Mkdir, Creat, Link, Rm, Cp, Steps, If, none, next, holds, run};
ghost use Rattle.fs_semantics.specs.Changes.{Changes, IsProper};
ghost use Rattle.fs_semantics.specs.Reads.{Reads, AgreeOn, AreAlike};

/// Where each test holds.
pub fn tests()
    ensures certain { (t : Tree) → IsTrue (holds True t) }
    ensures never { (t : Tree) → IsTrue (holds False t) → ⊥ }
    ensures not { (a : Test) (t : Tree) → IsTrue (holds (Not a) t) ↔ (IsTrue (holds a t) → ⊥) }
    ensures and { (a b : Test) (t : Tree) → IsTrue (holds (And a b) t) ↔ (IsTrue (holds a t) × IsTrue (holds b t)) }
    ensures or { (a b : Test) (t : Tree) → IsTrue (holds (Or a b) t) ↔ (IsTrue (holds a t) ⊎ IsTrue (holds b t)) }
    ensures file { (p : Path) (t : Tree) → IsTrue (holds (IsFile p) t) ↔ IsFileAt t p }
    ensures link { (p : Path) (t : Tree) → IsTrue (holds (IsLink p) t) ↔ IsLinkAt t p }
    ensures folder { (p : Path) (t : Tree) → IsTrue (holds (IsDir p) t) ↔ IsFolderAt t p }
    ensures empty { (p : Path) (t : Tree) → IsTrue (holds (IsEmpty p) t) ↔ (IsFolderAt t p × HasNoChild t p) }
    ensures free { (p : Path) (t : Tree) → IsTrue (holds (IsNone p) t) ↔ IsFreeAt t p }
{}

/// From which tree each construct ends in a tree, and in which one. From any other it ends in Error, which is one outcome.
pub fn changes()
    ensures id { (t u : Tree) → (run Id t ≡ Some u) ↔ (t ≡ u) }
    ensures err { (t : Tree) → run Err t ≡ None }
    ensures mkdir { (p : Path) (t u : Tree) → (run (Mkdir p) t ≡ Some u) ↔ Makes p Folder t u }
    ensures creat { (p : Path) (content : List ℕ) (t u : Tree) → (run (Creat p content) t ≡ Some u) ↔ Makes p (File content) t u }
    ensures link { (p : Path) (target : List ℕ) (t u : Tree) → (run (Link p target) t ≡ Some u) ↔ Makes p (LinkTo target) t u }
    ensures rm { (p : Path) (t u : Tree) → (run (Rm p) t ≡ Some u) ↔ Removes p t u }
    ensures cp { (from p : Path) (t u : Tree) → (run (Cp from p) t ≡ Some u) ↔ Copies from p t u }
    ensures no_steps { (t u : Tree) → (run (Steps none) t ≡ Some u) ↔ (t ≡ u) }
    ensures steps { (e : Program) (es : Programs) (t v : Tree) → (run (Steps (next e es)) t ≡ Some v)
        ↔ ((u : Tree) × (run e t ≡ Some u) × (run (Steps es) u ≡ Some v)) }
    ensures choice { (a : Test) (e f : Program) (t u : Tree) → (run (If a e f) t ≡ Some u)
        ↔ ((IsTrue (holds a t) × (run e t ≡ Some u)) ⊎ ((IsTrue (holds a t) → ⊥) × (run f t ≡ Some u))) }
{}

/// What a program leaves: what stands at each path that it doesn't change; a file tree, where it is proper; and, from trees
/// that agree on what it asks, trees that still agree on it, or Error both times. It asks for each path that it may change.
pub fn constructs()
    ensures kept { (e : Program) (t u : Tree) (q : Path) → run e t ≡ Some u → (Changes e q → ⊥) → map.get u q ≡ map.get t q }
    ensures tree { (e : Program) (t u : Tree) → IsProper e → IsTree t → run e t ≡ Some u → IsTree u }
    ensures parents { (e : Program) (t u : Tree) → HasParents t → run e t ≡ Some u → HasParents u }
    ensures alike { (e : Program) (t u : Tree) → AgreeOn e t u → AreAlike (AgreeOn e) (run e t) (run e u) }
    ensures asked { (e : Program) (q : Path) → Changes e q → Reads e q }
{}
