//! What normal types, types of items and types of fields say of data, by their upward readings.
//!
//! Flow typing describes these types by the conjuncts that they are made of. Here is what follows for data: a normal type has the
//! data of its type, the type of items has each item of each array, and the type of a field has each value at the field.
ghost use Rattle.wy_types_laws.specs.parts.Parts.{ItemsAreIn, NormsAreSame, ValuesAreIn};

/// Where the declared types of a program recur through records or arrays: a datum is in the normal type of a type exactly where it
/// is in the type; each item of an array of a type is in the type of its items; and each value at a field of a record of a type
/// is in the type of the field.
pub fn parts_are_told()
    ensures norms { NormsAreSame }
    ensures items { ItemsAreIn }
    ensures values { ValuesAreIn }
{}
