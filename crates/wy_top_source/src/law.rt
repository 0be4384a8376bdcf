//! Laws of the definitions.
ghost use Rattle.wy_top_source.specs.Sources.{HaveNoRefusal, HaveOneCore, SpelledIsNotRefused};

/// A source has one core: the typed and assigned programs that it may have are all this one.
pub fn a_source_has_one_core()
    ensures one { HaveOneCore }
{}

/// A source that has a program is refused for nothing: not for its text, where that spells one, and not for its names,
/// its types or its assignments, where it is typed and assigned.
pub fn a_program_is_refused_for_nothing()
    ensures text { SpelledIsNotRefused }
    ensures program { HaveNoRefusal }
{}
