//! Laws. No function here does anything when it runs.
ghost use Rattle.wy_probe.specs.Trials.{FindsOnce, FindsSome};
ghost use Rattle.wy_probe.specs.Tuples.{ComeInOrder};

/// One tuple after another, they come by the sum of their positions, and those of one sum by the first position that differs.
pub fn tuples_come_in_order()
    ensures order { ComeInOrder }
{}

/// Whatever the tuples, there is a finding, and only one. So where one of them faults, there is a first that does, and it is
/// determined, with its fault; and where none does, the three numbers are.
pub fn there_is_one_finding()
    ensures some { FindsSome }
    ensures once { FindsOnce }
{}
