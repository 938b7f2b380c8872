//! Laws of the programs of resources, as functions that do nothing.
#![tactic(auto)]

ghost use Rattle.std.specs.Prelude.{◌≡◌, ◌≢◌, ◌↔◌, ◌++◌, ℕ, List, Some, Ok};
ghost use Rattle.std.specs.FinMap as map;
ghost use Rattle.fs_semantics.specs.FileTree.{Path, File, Tree};
ghost use Rattle.fs_semantics.specs.Entries.{IsFileAt, IsFolderAt};
ghost use Rattle.fs_semantics.specs.Programs.{Program, and_then, run, run_all};
ghost use Rattle.model_semantics.specs.Names.{mark_named, mark_of_user};
ghost use Rattle.model_laws.specs.Folders.{AreFalling, of_length};
ghost use Rattle.model_semantics.specs.Words.{deepest_first, steps, sequence, dir, put, drop_file, mark, need};

use fs_lang::segments_of_names;
use fs_semantics::{changes, constructs, tests};

/// What the words leave.
pub fn words_leave()
    // After `dir` there is a folder; where there is one, nothing changes, and nothing changes elsewhere.
    ensures dir { (p : Path) (t u : Tree) → run (dir p) t ≡ Some u → IsFolderAt u p }
    ensures dir_there { (p : Path) (t : Tree) → IsFolderAt t p → run (dir p) t ≡ Some t }
    ensures dir_elsewhere { (p : Path) (t u : Tree) (q : Path) → run (dir p) t ≡ Some u → q ≢ p → map.get u q ≡ map.get t q }
    // After `put` there is the file with this content, and nothing changes elsewhere.
    ensures put { (p : Path) (content : List ℕ) (t u : Tree) → run (put p content) t ≡ Some u → map.get u p ≡ Some (File content) }
    ensures put_elsewhere { (p : Path) (content : List ℕ) (t u : Tree) (q : Path) → run (put p content) t ≡ Some u
        → q ≢ p → map.get u q ≡ map.get t q }
    // After `drop_file` there is no file.
    ensures drop { (p : Path) (t u : Tree) → run (drop_file p) t ≡ Some u → IsFileAt u p → ⊥ }
    // `need` ends in a tree, which it leaves as it is, exactly where the file is there.
    ensures need { (m : Path) (t u : Tree) → (run (need m) t ≡ Some u) ↔ ((t ≡ u) × IsFileAt t m) }
{
    changes();
    constructs();
    tests();
}

/// A sequence runs its steps, and the steps of two lists one list after the other. After `mark` the file is there.
pub fn sequences_join()
    ensures steps { (es : List Program) (t : Tree) → run (sequence es) t ≡ run_all (steps es) t }
    ensures joined { (es fs : List Program) (t : Tree)
        → run_all (steps (es ++ fs)) t ≡ and_then (run_all (steps es) t) (run_all (steps fs)) }
    ensures mark { (m : Path) (t u : Tree) → run (sequence (mark m)) t ≡ Some u → IsFileAt u m }
{
    changes();
    tests();
}

/// Names with one mark under a word are the same; and so are names of users with one mark, and the users.
pub fn places_tell_names()
    ensures named { (word a b : List ℕ) (p : Path) → mark_named word a ≡ Ok p → mark_named word b ≡ Ok p → a ≡ b }
    ensures of_users { (word u v a b : List ℕ) (p : Path) → mark_of_user word u a ≡ Ok p → mark_of_user word v b ≡ Ok p
        → (u ≡ v) × (a ≡ b) }
{
    segments_of_names();
}

/// The folders of a package that goes are swept with more segments first, and of equally many as they are listed.
pub fn folders_go_deepest_first()
    ensures falling { (folders : List Path) → AreFalling (deepest_first folders) }
    ensures in_order { (folders : List Path) (n : ℕ) → of_length n (deepest_first folders) ≡ of_length n folders }
{}
