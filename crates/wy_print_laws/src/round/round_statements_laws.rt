//! Laws of printed statements. `Low` marks a tree that is no higher than one may be; a statement has the height 0.
ghost use Rattle.std.specs.Prelude.{ℕ, List};
ghost use Rattle.wy_ast.specs.declared.statements.Stmt.{Stmt};
ghost use Rattle.wy_parse_front.specs.wy_lex.declared.token.Token.{Token};
ghost use Rattle.wy_parse_front.specs.wy_lex.Lists.{Each, IsProper};
ghost use Rattle.wy_parse_front.specs.wy_parse_grammar.declared.measured.Measured.TheVariants.{Low};
ghost use Rattle.wy_print_laws.specs.round.StatementRound.{StatementAgain, StatementOn};

/// A statement that was read of proper tokens, with all that stands in its blocks, is read again from its
/// text: as a source by itself this is cut into tokens that the grammar reads as the statement but for its
/// places, up to the end of the source. Its text is the same again behind every margin.
pub fn a_statement_is_read_again()
    ensures { (levels width : ℕ) (i : List Token) (s : Stmt) (height : ℕ) (j : List Token) → Each IsProper i
        → (StatementOn levels width).reads i (Low s height) j → StatementAgain (StatementOn levels width) s }
{}
