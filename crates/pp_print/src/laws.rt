//! What canonical text is for, as laws.
ghost use Rattle.std.specs.Prelude.{◌≡◌, ◌≤◌, ◌++◌, ℕ, List, length};
ghost use Rattle.pp_syntax.specs.declared.tree.Expr.{Expr};
ghost use Rattle.pp_syntax.specs.declared.tree.Manifest.{Manifest};
ghost use Rattle.pp_syntax.specs.declared.tree.TypeName.{TypeName};
ghost use Rattle.pp_syntax.specs.Tokens.{Lexeme, SqText};
ghost use Rattle.pp_syntax.specs.TokenValues.{sq_value};
ghost use Rattle.pp_syntax.specs.Spelling.{Spells};
ghost use Rattle.pp_syntax.specs.Derivation.{IsExpr};
ghost use Rattle.pp_syntax.specs.Statements.{IsType, IsManifest};
ghost use Rattle.pp_print.specs.Words.{words_in, escaped};
ghost use Rattle.pp_print.specs.Expressions.{expr_words};
ghost use Rattle.pp_print.specs.Statements.{type_words, manifest_words};
ghost use Rattle.pp_print.specs.Places.{unplaced, SameButPlaces};
ghost use Rattle.pp_print.specs.Canonical.{IsSpelled, canonical, ReadsBack};

use pp_syntax::{set_apart_tokens_stand, tokens_are_utf8};

/// A text in single quotes is written with the fewest backslashes that spell it.
pub fn fewest_backslashes()
    ensures value { (text : List ℕ) → sq_value (escaped text) ≡ text }
    ensures spelled { (text : List ℕ) → SqText (escaped text) }
    ensures fewest { (raw : List ℕ) → SqText raw → length (escaped (sq_value raw)) ≤ length raw }
{}

/// What tokens of a text spell is spelled again by any tokens with its words, places aside.
pub fn words_spell_again()
    ensures manifests { (m : Manifest) (text : List ℕ) (ts us : List Lexeme) → Spells text ts → IsManifest m ts
        → words_in us ≡ manifest_words m → (k : Manifest) × IsManifest k us × SameButPlaces m k }
    ensures expressions { (x : Expr) (text : List ℕ) (before ts behind us : List Lexeme)
        → Spells text (before ++ (ts ++ behind)) → IsExpr x ts → words_in us ≡ expr_words x → (y : Expr) × IsExpr y us
        × (unplaced x ≡ unplaced y) }
    ensures types { (t : TypeName) (text : List ℕ) (before ts behind us : List Lexeme)
        → Spells text (before ++ (ts ++ behind)) → IsType t ts → words_in us ≡ type_words t → IsType t us }
{}

/// The canonical text of a manifest is read back: it is UTF-8 and tokens, and these spell the manifest, places aside.
pub fn canonical_text_is_read()
    ensures { (m : Manifest) → IsSpelled m → ReadsBack (canonical m) m }
{
    set_apart_tokens_stand();
    tokens_are_utf8();
}

/// Manifests that differ at most in their places have one canonical text: what is read back is printed as it was.
pub fn same_trees_print_alike()
    ensures { (m n : Manifest) → SameButPlaces m n → canonical m ≡ canonical n }
{}
