//! Laws of the grammar: each part of a text is read exactly. In every mode, that is for each number of
//! levels and with checks or without, what is read is derived by the rule, what the rule derives is
//! read and to this tree alone, a fault is given exactly where the rule meets it, and elsewhere reading
//! stops at the first token such that the tokens up to and including it begin no such part.
ghost use Rattle.std.specs.Prelude.{◌≡◌, ◌≤◌, ◌+◌, ℕ, Bool, false, List, Ok};
ghost use Rattle.wy_lex.specs.declared.token.Token.{Token};
ghost use Rattle.wy_reading.specs.Mode.{Mode};
ghost use Rattle.wy_reading.specs.Promise.{Promise};
ghost use Rattle.wy_reading.specs.Reader.{whole};
ghost use Rattle.wy_reading.specs.Rule.{Whole};
ghost use Rattle.wy_parse_grammar.specs.ExprGrammar.{ArgsIn, E, Expr_, SumIn};
ghost use Rattle.wy_parse_grammar.specs.ExprReading as exprs;
ghost use Rattle.wy_parse_grammar.specs.ExprReading.{readers};
ghost use Rattle.wy_parse_grammar.specs.LabelGrammar.{Labels};
ghost use Rattle.wy_parse_grammar.specs.LabelReading.{labels};
ghost use Rattle.wy_parse_grammar.specs.TypeGrammar.{T, Type_};
ghost use Rattle.wy_parse_grammar.specs.TypeReading.{type_term};

/// Types are read exactly.
pub fn types_are_read_exactly()
    ensures { (n : Mode) → Promise n (λ m. Whole (Type_ m.depth)) (λ m. whole (type_term m.depth)) }
{}

/// Expressions are read exactly.
pub fn expressions_are_read_exactly()
    ensures { (n : Mode) → Promise n (λ m. Whole (Expr_ m.strict m.depth)) (λ m. whole (readers m.strict m.depth).expr) }
{}

/// Sums are read exactly.
pub fn sums_are_read_exactly()
    ensures { (n : Mode) → Promise n (λ m. Whole (SumIn m.strict m.depth)) (λ m. whole (exprs.sum (readers m.strict m.depth).unary)) }
{}

/// Arguments are read exactly.
pub fn arguments_are_read_exactly()
    ensures { (n : Mode) → Promise n (λ m. Whole (ArgsIn m.strict m.depth)) (λ m. whole (exprs.arg_list m.depth (readers m.strict m.depth).unary (readers m.strict m.depth).expr)) }
{}

/// The labels of a case are read exactly.
pub fn labels_are_read_exactly()
    ensures { (n : Mode) → Promise n (λ m. Whole Labels) (λ m. whole labels) }
{}

/// What is read where few levels are left is read, to the same tree, where there are more by three, and
/// where `&&` and `||` may mix.
pub fn more_levels_read_the_same()
    ensures types { (d e : ℕ) (i : List Token) (ty : T) (j : List Token) → 3 + d ≤ e → type_term d i ≡ Ok (ty, j) → type_term e i ≡ Ok (ty, j) }
    ensures expressions { (s : Bool) (d e : ℕ) (i : List Token) (a : E) (j : List Token) → 3 + d ≤ e → (readers s d).expr i ≡ Ok (a, j) → (readers false e).expr i ≡ Ok (a, j) }
{}
