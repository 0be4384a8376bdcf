//! Why an instruction doesn't go on.
ghost use Rattle.std.specs.Prelude.{◌≡◌};
ghost use Rattle.wy_mach.specs.declared.stop.Stop.TheVariants as stop;

/// Why an instruction doesn't go on.
#[derive(Clone, Copy, Debug, PartialEq, Eq)]
pub enum Stop {
    /// An operand is outside of the instruction's domain, so it has no step.
    Stuck,
    /// There was no memory for what it was to make.
    NoMemory,
}

impl From<wy_items::NoMemory> for Stop {
    ghost from_gives = { λ _ e. e ≡ stop.NoMemory };

    fn from(_: wy_items::NoMemory) -> Stop {
        Stop::NoMemory
    }
}

impl From<Stuck> for Stop {
    ghost from_gives = { λ _ e. e ≡ stop.Stuck };

    fn from(_: Stuck) -> Stop {
        Stop::Stuck
    }
}

/// An operand is outside of the instruction's domain, so it has no step.
#[derive(Clone, Copy, Debug, PartialEq, Eq)]
pub struct Stuck;
