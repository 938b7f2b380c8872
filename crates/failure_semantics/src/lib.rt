//! Where runs fail: which resource ends an order in Error, which construct of its program gives it, and which of its
//! conditions doesn't hold. The definitions are in `specs/`; each function here does nothing, and its contract is a law that
//! callers may use.
#![tactic(auto)]

ghost use Rattle.std.specs.Prelude.{◌≡◌, ◌↔◌, ℕ, List, None};
ghost use Rattle.std.specs.FinMap as map;
ghost use Rattle.fs_semantics.specs.FileTree.{Path, Entry, Tree};
ghost use Rattle.fs_semantics.specs.Programs.{Program, made, removed, copied, run};
ghost use Rattle.fs_semantics.specs.Orders.{outcome};
ghost use Rattle.failure_semantics.specs.Failures.{Failure, HasNoPlace, StaysThere, HasNoCopy, Explains, FailsAt};
ghost use Rattle.failure_semantics.specs.Told.{no_place, not_gone, no_copy};
ghost use Rattle.failure_semantics.specs.Orders.{OrderFailsAt, EndsShortestFront};

/// A program ends in Error exactly where there is a construct that fails, and there is one at most. Its reason holds, and
/// where it isn't `err`, it ends in Error in that tree by itself.
pub fn failures()
    ensures exact { (e : Program) (t : Tree) → (run e t ≡ None) ↔ ((f : Failure) × FailsAt e t f) }
    ensures one { (e : Program) (t : Tree) (f g : Failure) → FailsAt e t f → FailsAt e t g → f ≡ g }
    ensures explained { (e : Program) (t : Tree) (f : Failure) → FailsAt e t f → Explains f.construct f.reason f.tree }
    ensures fails { (e : Program) (t : Tree) (f : Failure) → FailsAt e t f → run f.construct f.tree ≡ None }
{}

/// An order ends in Error exactly where there is a resource at which it does, and there is one at most: the last of the
/// shortest front that ends in Error.
pub fn failing_orders()
    ensures exact { (es : List Program) (order : List ℕ) (t : Tree) → (outcome es order t ≡ None) ↔ ((i : ℕ) × (f : Failure) × OrderFailsAt es order t i f) }
    ensures one { (es : List Program) (order : List ℕ) (t : Tree) (i j : ℕ) (f g : Failure) → OrderFailsAt es order t i f → OrderFailsAt es order t j g → (i ≡ j) × (f ≡ g) }
    ensures last { (es : List Program) (order : List ℕ) (t : Tree) (i : ℕ) → ((f : Failure) × OrderFailsAt es order t i f) ↔ EndsShortestFront es order t i }
{}

/// Why something couldn't be made, removed or copied, as few questions to the tree tell it.
pub fn reasons()
    ensures place { (p : Path) (x : Entry) (t : Tree) → made p x t ≡ None → HasNoPlace p (no_place t p) t }
    ensures removal { (p : Path) (t : Tree) → removed p t ≡ None → StaysThere p (not_gone t p) t }
    ensures copy { (from p : Path) (t : Tree) → copied (map.get t from) p t ≡ None → HasNoCopy from p (no_copy t from p) t }
{}
