//! Lines and columns.
ghost use Rattle.std.specs.Prelude.{◌≡◌, take};
ghost use Rattle.wy_parse_front.specs.Places.{place_of};

/// A line and a column, both from 1. Columns count bytes.
#[derive(Clone, Copy, Debug, PartialEq, Eq)]
pub struct Place {
    pub line: usize,
    pub column: usize,
}

/// The line and the column of an offset in the bytes. It takes no memory, and its time is linear in the
/// offset.
pub fn locate(bytes: &[u8], at: u32) -> Place
    ensures value { (result.line, result.column) ≡ place_of bytes.now at }
{
    let before = bytes_before(bytes, at as usize);
    let mut line = 1usize;
    let mut column = 1usize;
    for byte in before {
        if *byte == b'\n' {
            line += 1;
            column = 1;
        } else {
            column += 1;
        }
    }
    Place { line, column }
}

// The bytes before the offset.
#[tactic(auto, using(std::proofs::lemmas::List::take_all))]
fn bytes_before(bytes: &[u8], at: usize) -> &[u8]
    ensures value { result.now ≡ take at bytes.now }
{
    if at < bytes.len() {
        return &bytes[..at];
    }
    bytes
}
