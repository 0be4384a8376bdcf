//! Why a source is refused.
ghost use Rattle.std.specs.Prelude.{◌≡◌};
ghost use Rattle.wy_top_source.specs.Refusals as spec;

use wy_assign::typed::AssignFault;
use wy_flow::FlowFault;
use wy_names::NameFault;
use wy_print_laws::wy_parse_front::SourceFault;

/// Why a source is refused: the fault of the first pass that has one, with the byte offset where it stands.
#[derive(Clone, Copy, Debug, PartialEq, Eq)]
pub enum Refusal {
    /// The bytes spell no program.
    Text(SourceFault),
    /// A name, a call or a size of the program is refused, so that it has no core.
    Name(NameFault),
    /// The core isn't well typed.
    Flow(FlowFault),
    /// A variable may be used before it is assigned, or a body may end without its result.
    Assign(AssignFault),
}

/// Whether memory ran out, so that nothing is said of the source.
pub fn is_no_memory(refusal: Refusal) -> bool
    ensures value { result ≡ spec.is_no_memory refusal }
{
    match refusal {
        Refusal::Text(fault) => wy_print_laws::wy_parse_front::is_no_memory(fault),
        Refusal::Name(NameFault::NoMemory)
        | Refusal::Flow(FlowFault::NoMemory)
        | Refusal::Assign(AssignFault::NoMemory) => true,
        _ => false,
    }
}

/// The byte offset where the fault stands, and 0 for want of memory.
pub fn offset(refusal: Refusal) -> u32
    ensures value { result ≡ spec.offset refusal }
{
    match refusal {
        Refusal::Text(fault) => wy_print_laws::wy_parse_front::offset(fault),
        Refusal::Name(fault) => name_offset(fault),
        Refusal::Flow(fault) => flow_offset(fault),
        Refusal::Assign(fault) => assign_offset(fault),
    }
}

/// The word for the fault, and no word for want of memory.
pub fn word(refusal: Refusal) -> &'static str
    ensures value { result.now ≡ spec.word refusal }
{
    match refusal {
        Refusal::Text(fault) => wy_print_laws::wy_parse_front::word(fault),
        Refusal::Name(fault) => name_word(fault),
        Refusal::Flow(fault) => flow_word(fault),
        Refusal::Assign(fault) => assign_word(fault),
    }
}

fn name_offset(fault: NameFault) -> u32
    ensures value { result ≡ spec.name_offset fault }
{
    match fault {
        NameFault::Unknown(at) => at,
        NameFault::Twice(at) => at,
        NameFault::BareRecursion(at) => at,
        NameFault::PropertyLoop(at) => at,
        NameFault::CallInContract(at) => at,
        NameFault::MethodInFunction(at) => at,
        NameFault::Arity(at) => at,
        NameFault::OutsideLoop(at) => at,
        NameFault::TooLarge(at) => at,
        NameFault::NoMemory => 0,
    }
}

fn flow_offset(fault: FlowFault) -> u32
    ensures value { result ≡ spec.flow_offset fault }
{
    match fault {
        FlowFault::NotSubtype(at) => at,
        FlowFault::NotArray(at) => at,
        FlowFault::NoField(at) => at,
        FlowFault::NotBool(at) => at,
        FlowFault::NotInt(at) => at,
        FlowFault::TypeWide(at) => at,
        FlowFault::NoMemory => 0,
    }
}

fn assign_offset(fault: AssignFault) -> u32
    ensures value { result ≡ spec.assign_offset fault }
{
    match fault {
        AssignFault::Unset(at) => at,
        AssignFault::NoReturn(at) => at,
        AssignFault::NoMemory => 0,
    }
}

fn name_word(fault: NameFault) -> &'static str
    ensures value { result.now ≡ spec.name_word fault }
{
    match fault {
        NameFault::Unknown(_) => "Unknown",
        NameFault::Twice(_) => "Twice",
        NameFault::BareRecursion(_) => "BareRecursion",
        NameFault::PropertyLoop(_) => "PropertyLoop",
        NameFault::CallInContract(_) => "CallInContract",
        NameFault::MethodInFunction(_) => "MethodInFunction",
        NameFault::Arity(_) => "Arity",
        NameFault::OutsideLoop(_) => "OutsideLoop",
        NameFault::TooLarge(_) => "TooLarge",
        NameFault::NoMemory => "",
    }
}

fn flow_word(fault: FlowFault) -> &'static str
    ensures value { result.now ≡ spec.flow_word fault }
{
    match fault {
        FlowFault::NotSubtype(_) => "NotSubtype",
        FlowFault::NotArray(_) => "NotArray",
        FlowFault::NoField(_) => "NoField",
        FlowFault::NotBool(_) => "NotBool",
        FlowFault::NotInt(_) => "NotInt",
        FlowFault::TypeWide(_) => "TypeWide",
        FlowFault::NoMemory => "",
    }
}

fn assign_word(fault: AssignFault) -> &'static str
    ensures value { result.now ≡ spec.assign_word fault }
{
    match fault {
        AssignFault::Unset(_) => "Unset",
        AssignFault::NoReturn(_) => "NoReturn",
        AssignFault::NoMemory => "",
    }
}
