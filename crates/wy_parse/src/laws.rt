//! Laws of what tokens derive, and of where they are refused.
ghost use Rattle.std.specs.Prelude.{◌≡◌, ◌≤◌, ℕ, List, length};
ghost use Rattle.wy_ast.specs.declared.declarations.Program.{Program};
ghost use Rattle.wy_lex.specs.declared.token.Token.{Token};
ghost use Rattle.wy_parse.specs.BlockGrammar.{width};
ghost use Rattle.wy_parse.specs.Derivation.{Derives, IsHigh, Leaves, Meets};
ghost use Rattle.wy_parse.specs.Fronts.{FirstImpossible, IsEnded, IsPossible, IsToken};
ghost use Rattle.wy_parse_grammar.specs.declared.fault.Kind.{Kind};

/// Tokens derive one program.
pub fn tokens_derive_one_program()
    ensures { (tokens : List Token) (p q : Program) → Derives tokens p → Derives tokens q → p ≡ q }
{}

/// Tokens that derive a program meet no fault, leave the grammar nowhere, and have no node that is too
/// high.
pub fn a_program_has_no_fault()
    ensures meets { (tokens : List Token) (p : Program) (x : Kind) (at : ℕ) → Derives tokens p → Meets tokens x at → ⊥ }
    ensures leaves { (tokens : List Token) (p : Program) (at : ℕ) → Derives tokens p → Leaves tokens at → ⊥ }
    ensures high { (tokens : List Token) (p : Program) (at : ℕ) → Derives tokens p → IsHigh tokens at → ⊥ }
{}

/// Tokens meet one fault at one place, and leave the grammar at one place.
pub fn tokens_meet_one_fault()
    ensures meets { (tokens : List Token) (x y : Kind) (at place : ℕ) → Meets tokens x at → Meets tokens y place → (x ≡ y) × (at ≡ place) }
    ensures leaves { (tokens : List Token) (at place : ℕ) → Leaves tokens at → Leaves tokens place → at ≡ place }
{}

/// A node that is too high is a fault only of tokens that have no other, and then the first one is.
pub fn a_high_node_is_the_only_fault()
    ensures meets { (tokens : List Token) (at : ℕ) (x : Kind) (place : ℕ) → IsHigh tokens at → Meets tokens x place → ⊥ }
    ensures leaves { (tokens : List Token) (at place : ℕ) → IsHigh tokens at → Leaves tokens place → ⊥ }
    ensures one { (tokens : List Token) (at place : ℕ) → IsHigh tokens at → IsHigh tokens place → at ≡ place }
{}

/// The grammar is left at the first token such that the tokens up to and including it begin no text in
/// which `&&` and `||` may mix and nothing is bounded: how deep it nests, how high its trees are and how
/// many declarations it has. Of the tokens of a source, `End` is the last and stands nowhere else.
pub fn the_grammar_is_left_at_the_first_impossible_token()
    ensures left { (tokens : List Token) (at : ℕ) → IsEnded tokens → Leaves tokens at → FirstImpossible tokens at }
    ensures first { (tokens : List Token) (at : ℕ) → FirstImpossible tokens at → Leaves tokens at }
{}

/// A fault that is met stands at one of the tokens.
pub fn a_fault_stands_at_a_token()
    ensures { (tokens : List Token) (x : Kind) (at : ℕ) → Meets tokens x at → IsToken tokens at }
{}

/// A fault that is met stands before the first impossible token: the tokens up to and including the one
/// where it stands still begin a text. So it is the least place, and `Unexpected` is never at the same.
/// No list of tokens in memory is longer than 2^64.
pub fn a_fault_stands_before_the_first_impossible_token()
    ensures { (tokens : List Token) (x : Kind) (at : ℕ) → length tokens ≤ width → Meets tokens x at → IsPossible tokens at }
{}
