//! What the readers are for, as laws.
ghost use Rattle.std.specs.Prelude.{◌≡◌, ℕ, List, ◌++◌, Some};
ghost use Rattle.pp_syntax.specs.declared.tree.Expr.{Expr};
ghost use Rattle.pp_syntax.specs.declared.tree.Stmt.{Stmt};
ghost use Rattle.pp_syntax.specs.Tokens.{Lexeme};
ghost use Rattle.pp_syntax.specs.Derivation.{IsExprAt};
ghost use Rattle.pp_syntax.specs.Statements.{IsStmtAt};
ghost use Rattle.pp_readers.specs.Parsed.{Begins, NumbersFit, NothingGoesOn};
ghost use Rattle.pp_readers.specs.Leads.{NothingFollows};
ghost use Rattle.pp_readers.specs.Expressions.{expr_at};
ghost use Rattle.pp_readers.specs.Statements.{stmt_at};

/// What is read from the front of tokens is spelled there, and what is spelled there, before something that can't
/// go on, is read.
pub fn expressions_are_read()
    ensures found { (depth : ℕ) (ts : List Lexeme) (x : Expr × List Lexeme) → expr_at depth ts ≡ Some x
        → Begins (IsExprAt depth x.0) ts x.1 }
    ensures only { (depth : ℕ) (y : Expr) (front rest : List Lexeme) → IsExprAt depth y front → NumbersFit front
        → NothingGoesOn rest → expr_at depth (front ++ rest) ≡ Some (y, rest) }
{}

/// The same of statements.
pub fn statements_are_read()
    ensures found { (limit depth : ℕ) (ts : List Lexeme) (x : Stmt × List Lexeme)
        → stmt_at (expr_at limit) depth ts ≡ Some x → Begins (IsStmtAt (IsExprAt limit) depth x.0) ts x.1 }
    ensures only { (limit depth : ℕ) (y : Stmt) (front rest : List Lexeme) → IsStmtAt (IsExprAt limit) depth y front
        → NumbersFit front → NothingFollows rest → stmt_at (expr_at limit) depth (front ++ rest) ≡ Some (y, rest) }
{}

/// Tokens whose numbers fit 64 bits spell at most one expression with brackets nested less deep than this.
pub fn one_expression()
    ensures { (depth : ℕ) (y z : Expr) (us : List Lexeme) → IsExprAt depth y us → IsExprAt depth z us → NumbersFit us → y ≡ z }
{}

/// The same of statements.
pub fn one_statement()
    ensures { (limit depth : ℕ) (y z : Stmt) (us : List Lexeme) → IsStmtAt (IsExprAt limit) depth y us
        → IsStmtAt (IsExprAt limit) depth z us → NumbersFit us → y ≡ z }
{}
