//! What is known of loading. No function here does anything when it runs.
ghost use Rattle.wy_link_load.specs.Alone.{TakesWhatImportsNothing};
ghost use Rattle.wy_link_load.specs.Shown.{AreAsShown};

/// What is taken is a source that was loaded, spells a program, and imports nothing.
pub fn what_is_taken_imports_nothing()
    ensures nothing { TakesWhatImportsNothing }
{}

/// The files that imports name, and what becomes of them, written out.
pub fn imports_are_as_shown()
    ensures shown { AreAsShown }
{}
