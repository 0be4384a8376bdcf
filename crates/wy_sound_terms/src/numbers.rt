//! The numbers that the conditions give to expressions change nothing of what a program does.
ghost use Rattle.wy_sound_terms.specs.numbers.Numbers.{NumbersChangeNothing};

/// A program whose expressions are numbered does on the same arguments, with the same ticks, what the program does without
/// numbers: the same value or fault, the same output, the same count of ticks and turns.
pub fn numbers_change_nothing()
    ensures same { NumbersChangeNothing }
{}
