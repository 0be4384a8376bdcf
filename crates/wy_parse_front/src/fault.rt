//! Why bytes are no program.
ghost use Rattle.std.specs.Prelude.{◌≡◌};
ghost use Rattle.wy_parse_front.specs.Faults as spec;

use wy_lex::LexFault;
use wy_parse::ParseFault;

/// Why bytes are no program: a fault of their tokens, or else of the program that these spell. Each has
/// the byte offset where it stands.
#[derive(Clone, Copy, Debug, PartialEq, Eq)]
pub enum SourceFault {
    /// The first byte that is no part of UTF-8.
    NotUtf8(u32),
    /// A character that begins no token or may not stand in a string, as `$`.
    BadChar(u32),
    /// The first token of a line whose indentation fits no block.
    BadIndent(u32),
    /// A numeral above 2^95, or one that runs into a name, as `9x`.
    BadNumeral(u32),
    /// A `/*` that no `*/` follows.
    OpenComment(u32),
    /// The first token after which no program goes on, as the `)` in `(1 + )`.
    Unexpected(u32),
    /// The first `&&` or `||` that mixes with the other without brackets, as in `a && b || c`.
    Mixed(u32),
    /// What nests more than 100 deep, or the first node with a height of 101.
    Deep(u32),
    /// The declaration that is one more than 4,096.
    TooMany(u32),
    NoMemory,
}

impl SourceFault {
    ghost use Rattle.wy_parse_front.specs.Faults.{of_tokens as tokens_fault, of_program as program_fault};

    /// The fault that is one of tokens.
    pub fn of_tokens(fault: LexFault) -> SourceFault
        ensures value { result ≡ tokens_fault fault }
    {
        match fault {
            LexFault::NotUtf8(at) => SourceFault::NotUtf8(at),
            LexFault::BadChar(at) => SourceFault::BadChar(at),
            LexFault::BadIndent(at) => SourceFault::BadIndent(at),
            LexFault::BadNumeral(at) => SourceFault::BadNumeral(at),
            LexFault::OpenComment(at) => SourceFault::OpenComment(at),
            LexFault::NoMemory => SourceFault::NoMemory,
        }
    }

    /// The fault that is one of a program.
    pub fn of_program(fault: ParseFault) -> SourceFault
        ensures value { result ≡ program_fault fault }
    {
        match fault {
            ParseFault::Unexpected(at) => SourceFault::Unexpected(at),
            ParseFault::Mixed(at) => SourceFault::Mixed(at),
            ParseFault::Deep(at) => SourceFault::Deep(at),
            ParseFault::TooMany(at) => SourceFault::TooMany(at),
            ParseFault::NoMemory => SourceFault::NoMemory,
        }
    }
}

/// The offset where the fault stands, and 0 for want of memory.
pub fn offset(fault: SourceFault) -> u32
    ensures value { result ≡ spec.offset fault }
{
    match fault {
        SourceFault::NotUtf8(at) => at,
        SourceFault::BadChar(at) => at,
        SourceFault::BadIndent(at) => at,
        SourceFault::BadNumeral(at) => at,
        SourceFault::OpenComment(at) => at,
        SourceFault::Unexpected(at) => at,
        SourceFault::Mixed(at) => at,
        SourceFault::Deep(at) => at,
        SourceFault::TooMany(at) => at,
        SourceFault::NoMemory => 0,
    }
}

/// Whether memory ran out, so that nothing is said of the source.
pub fn is_no_memory(fault: SourceFault) -> bool
    ensures value { result ≡ spec.is_no_memory fault }
{
    match fault {
        SourceFault::NoMemory => true,
        SourceFault::NotUtf8(_)
        | SourceFault::BadChar(_)
        | SourceFault::BadIndent(_)
        | SourceFault::BadNumeral(_)
        | SourceFault::OpenComment(_)
        | SourceFault::Unexpected(_)
        | SourceFault::Mixed(_)
        | SourceFault::Deep(_)
        | SourceFault::TooMany(_) => false,
    }
}

/// The word for the fault, and no word for want of memory.
pub fn word(fault: SourceFault) -> &'static str
    ensures value { result.now ≡ spec.word fault }
{
    match fault {
        SourceFault::NotUtf8(_) => "NotUtf8",
        SourceFault::BadChar(_) => "BadChar",
        SourceFault::BadIndent(_) => "BadIndent",
        SourceFault::BadNumeral(_) => "BadNumeral",
        SourceFault::OpenComment(_) => "OpenComment",
        SourceFault::Unexpected(_) => "Unexpected",
        SourceFault::Mixed(_) => "Mixed",
        SourceFault::Deep(_) => "Deep",
        SourceFault::TooMany(_) => "TooMany",
        SourceFault::NoMemory => "",
    }
}
