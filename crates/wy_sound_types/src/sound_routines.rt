//! Functions and methods: their entries, their contracts, and calls by their depth.
ghost use Rattle.wy_sound_types.specs.sound_routines.Depths.{CallsAreHandled};
ghost use Rattle.wy_sound_types.specs.sound_routines.Entries.{ContractsAreSafe, EntriesStand, ParametersAreIn};
ghost use Rattle.wy_sound_types.specs.sound_routines.Runs.{RunsAreSound};
ghost use Rattle.wy_sound_types.specs.sound_routines.Takes.{TypedCallsAreTaken};

/// At the entry of a function or method whose arguments are of their parameters' types, there are names at which the parameters
/// stand for the arguments and what is assumed of their types is known.
pub fn entries_stand()
    ensures stand { EntriesStand }
{}

/// Where parameters have different variables, the store at the entry has each argument in its parameter.
pub fn parameters_are_in()
    ensures inside { ParametersAreIn }
{}

/// Where what a contract owes is true, its requires clauses are safe at the entry, and its ensures clauses behind them with each
/// result of the result's type; and where the requires clauses passed, they are known where the body begins.
pub fn contracts_are_safe()
    ensures safe { ContractsAreSafe }
{}

/// Where each body keeps its contract if the calls in it are handled, calls are handled at each depth: where what is owed at a
/// call is true it is no fault; its walk's term means what it gives; and that is of the result's type.
pub fn calls_are_handled()
    ensures handled { CallsAreHandled }
{}

/// So where the arguments of an entry are of their types and each requires clause evaluates to true, the evaluation is no fault at
/// any number of ticks, and at its end it leaves what the contract says: a value of the result's type, of which each ensures
/// clause is true.
pub fn runs_are_sound()
    ensures sound { RunsAreSound }
{}

/// Calls of a typed program are taken as the law of depths asks, where their arguments are in the types of the parameters by
/// their upward readings, contracts are typed, and bodies keep their contracts where the calls in them are handled.
pub fn typed_calls_are_taken()
    ensures taken { TypedCallsAreTaken }
{}
