//! The lines as a user sees them. The function here does nothing when it runs.
ghost use Rattle.wy_top_answers.specs.report.Rows.{AsShown};

/// One line of each kind, written out.
pub fn lines_are_as_shown()
    ensures { AsShown }
{}
