//! What classes are.
ghost use Rattle.wy_cong.specs.Congruence.{ClassesAreSound};

/// Terms in one class are equal in each congruence that has the node's equations.
pub fn classes_are_sound()
    ensures { ClassesAreSound }
{}
