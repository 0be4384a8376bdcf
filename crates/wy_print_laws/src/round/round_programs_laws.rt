//! Laws of printed programs.
ghost use Rattle.std.specs.Prelude.{ℕ, List};
ghost use Rattle.wy_ast.specs.declared.declarations.Program.{Program};
ghost use Rattle.wy_print.specs.ProgramText.{program_text};
ghost use Rattle.wy_print_laws.specs.round.ReadAgain.{IsSame, IsSource, ReadsAgain};

/// A program that was read of a source is read again from its own text, but for its places, whatever
/// layout the source has: the text is cut into tokens, and these derive a program that is the same where
/// each place is 0, and that has the same text again.
pub fn a_program_is_read_again()
    ensures { (bytes : List ℕ) (program : Program) → IsSource bytes program → ReadsAgain program }
{}

/// Whatever program is read of the text of a program, it is that program but for its places, and has the
/// same text.
pub fn a_printed_program_is_itself()
    ensures { (bytes : List ℕ) (program other : Program) → IsSource bytes program → IsSource (program_text program) other → IsSame other program }
{}
