//! The numbers that code has for names of fields and shapes of records stand for them in the program's table.
ghost use Rattle.wy_code_spec.specs.numbered.Numbered.{NumbersStandForNames};

/// Each name of a field and each shape of a record in what has code has, in the table of the program, the number that the
/// code gives it.
pub fn numbers_stand_for_names()
    ensures numbered { NumbersStandForNames }
{}
