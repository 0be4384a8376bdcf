//! Laws of printed texts. `Low` marks a tree that is no higher than one may be, with its height.
ghost use Rattle.std.specs.Prelude.{ℕ, List, true};
ghost use Rattle.wy_ast.specs.declared.types.Ty.{Ty};
ghost use Rattle.wy_ast.specs.declared.expressions.Expr.{Expr};
ghost use Rattle.wy_parse_front.specs.wy_lex.declared.token.Token.{Token};
ghost use Rattle.wy_parse_front.specs.wy_lex.Lists.{Each, IsProper};
ghost use Rattle.wy_parse_front.specs.wy_parse_grammar.declared.measured.Measured.TheVariants.{Low};
ghost use Rattle.wy_parse_front.specs.wy_parse_grammar.TypeGrammar.{Type_};
ghost use Rattle.wy_parse_front.specs.wy_parse_grammar.ExprGrammar.{Expr_};
ghost use Rattle.wy_print_laws.specs.round.RoundTrip.{TypeAgain, ExprAgain};

/// A type that was read of proper tokens is read again from its text: the text is cut into tokens that
/// the grammar reads, where there are as many levels, as this type but for its places, of the same
/// height. Its text is the same again.
pub fn a_type_is_read_again()
    ensures { (levels : ℕ) (i : List Token) (ty : Ty) (height : ℕ) (j : List Token) → Each IsProper i
        → (Type_ levels).reads i (Low ty height) j → TypeAgain levels ty height }
{}

/// An expression that was read of proper tokens is read again from its text, likewise: no bracket is
/// missing in it, and none changes what it is.
pub fn an_expression_is_read_again()
    ensures { (levels : ℕ) (i : List Token) (expr : Expr) (height : ℕ) (j : List Token) → Each IsProper i
        → (Expr_ true levels).reads i (Low expr height) j → ExprAgain levels expr height }
{}
