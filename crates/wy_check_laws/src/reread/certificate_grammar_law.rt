//! What is read as certificates.
ghost use Rattle.wy_check_laws.specs.reread.Faults.{FaultsStand};
ghost use Rattle.wy_check_laws.specs.reread.Grammar.{FilesAreRead};

/// A text is read as these certificates exactly where it spells them: a header, for each certificate a line that opens it
/// and its steps, one a line, which are those of one tree, and the last line `end`; each certificate is for another
/// condition, and for one that there is.
pub fn files_are_read_by_their_grammar()
    ensures read { FilesAreRead }
{}

/// A fault that is read stands at its line: behind a header, some file begins with the lines before it, and none begins with
/// these and what stands on the line; or the text ends on that line and is no file.
pub fn faults_stand_at_their_lines()
    ensures stand { FaultsStand }
{}
