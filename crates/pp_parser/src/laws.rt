//! Laws of the grammar that the parser rests on.
ghost use Rattle.std.specs.Prelude.{◌≡◌, List};
ghost use Rattle.pp_syntax.specs.declared.tree.Expr.{Expr};
ghost use Rattle.pp_syntax.specs.declared.tree.Manifest.{Manifest};
ghost use Rattle.pp_syntax.specs.Tokens.{Lexeme};
ghost use Rattle.pp_syntax.specs.Statements.{IsManifest};
ghost use Rattle.pp_syntax.specs.Derivation.{InnerOf, IsExpr};
ghost use Rattle.pp_syntax.specs.Holes.{IsInner};
ghost use Rattle.pp_readers.specs.Parsed.{NumbersFit};
ghost use Rattle.pp_parser.specs.Refusing.{AreLexed};

/// The tokens of a text spell one manifest at most.
pub fn one_manifest()
    ensures { (m n : Manifest) (tokens : List Lexeme) → AreLexed tokens → IsManifest m tokens → IsManifest n tokens → m ≡ n }
{}

/// What stands within `${` and `}` is what the grammar's two cases say: a WORD with nothing but indexes behind it,
/// which is read as a variable, or else an expression.
pub fn words_in_holes_are_variables()
    ensures cases { (y : Expr) (tokens : List Lexeme) → NumbersFit tokens → InnerOf IsExpr y tokens → IsInner IsExpr y tokens }
    ensures holes { (y : Expr) (tokens : List Lexeme) → IsInner IsExpr y tokens → InnerOf IsExpr y tokens }
{}
