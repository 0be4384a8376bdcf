//! Laws of tokens.
ghost use Rattle.std.specs.Prelude.{◌≡◌, ◌-◌, [], ◌∷◌, ℕ, List, length, true, false};
ghost use Rattle.std.specs.Str.{IsUtf8};
ghost use Rattle.wy_lex.specs.Layout.{begun};
ghost use Rattle.wy_lex.specs.Lines.{Begins, Enters, IsNest, IsReached, MayBegin, may_begin, times};
ghost use Rattle.wy_lex.specs.Lists.{Each, EndsAt, IsProper, Rises};
ghost use Rattle.wy_lex.specs.Source.{Meets, Tokens};
ghost use Rattle.wy_lex.specs.declared.fault.Kind.{Kind};
ghost use Rattle.wy_lex.specs.declared.token.Token.{Token};
ghost use Rattle.wy_lex.specs.declared.token.TokenKind.{TokenKind};
ghost use Rattle.wy_lex.specs.declared.layout.State.{State};

/// A source has one list of tokens.
pub fn a_source_has_one_reading()
    ensures { (bytes : List ℕ) (ts us : List Token) → Tokens bytes ts → Tokens bytes us → ts ≡ us }
{}

/// A source meets one fault at one place, and one that has tokens meets none.
pub fn a_source_has_one_fault()
    ensures one { (bytes : List ℕ) (x y : Kind) (at place : ℕ) → Meets bytes x at → Meets bytes y place → (x ≡ y) × (at ≡ place) }
    ensures none { (bytes : List ℕ) (ts : List Token) (x : Kind) (at : ℕ) → Tokens bytes ts → Meets bytes x at → ⊥ }
{}

/// `End` stands as the last token, at the length of the source, and nowhere else.
pub fn the_last_token_is_end()
    ensures { (bytes : List ℕ) (ts : List Token) → Tokens bytes ts → EndsAt (length bytes) ts }
{}

/// Each name begins and goes on as names do and is none of the words, each numeral is from 0 to 2^95,
/// and each string has characters from 32 to 126, tabs and line ends alone.
pub fn each_token_is_proper()
    ensures { (bytes : List ℕ) (ts : List Token) → Tokens bytes ts → Each IsProper ts }
{}

/// Places rise up to the length of the source: behind a token that stands for text none stands at its
/// place, and a token of the layout may share its place with the one behind it.
pub fn places_rise()
    ensures { (bytes : List ℕ) (ts : List Token) → Tokens bytes ts → Rises 0 (length bytes) ts }
{}

/// The layout is a relation between the indentation of a line and those of the open blocks. A token may
/// begin a line exactly where the relation lets it; LINE, IN and OUT stand before it, and blocks are open
/// behind them, as the relation says; and at the end of the source blocks end as at a line of the top.
/// The open blocks form a nest wherever a source is read to.
pub fn a_line_begins_by_its_indentation()
    ensures sound { (s : State) → IsNest s.blocks → may_begin s ≡ true → MayBegin s.header s.indent s.blocks }
    ensures complete { (s : State) → IsNest s.blocks → MayBegin s.header s.indent s.blocks → may_begin s ≡ true }
    ensures value { (s : State) (place : ℕ) (after : List (List ℕ)) (between : List TokenKind) → IsNest s.blocks
        → Begins s.header s.indent s.blocks after between → Enters s place after between (begun s place) }
    ensures last { (before : List (List ℕ)) → IsNest before → Begins false [] before ([] ∷ []) (times (length before - 1)) }
    ensures nest { (bytes : List ℕ) (s : State) → IsUtf8 bytes → IsReached bytes s → IsNest s.blocks }
{}
