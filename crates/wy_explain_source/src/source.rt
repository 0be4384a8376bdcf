//! Sources by lines and columns.
use crate::nodes::Span;

/// The name of a source file, and its bytes.
#[derive(Clone, Copy)]
pub struct Source<'a> {
    pub name: &'a str,
    pub bytes: &'a [u8],
}

impl<'a> Source<'a> {
    /// The bytes of a stretch; none where it doesn't lie in the source.
    pub fn cut(&self, span: Span) -> &'a [u8] {
        cut(self.bytes, span.from as usize, span.to as usize)
    }

    /// The number of the line where the offset stands, from 1.
    pub fn line(&self, at: u32) -> u64 {
        let mut line = 1u64;
        for byte in cut(self.bytes, 0, self.within(at)) {
            if *byte == b'\n' {
                line = line.saturating_add(1);
            }
        }
        line
    }

    /// The column where the offset stands, from 1, in bytes.
    pub fn column(&self, at: u32) -> u64 {
        let mut column = 1u64;
        for byte in cut(self.bytes, 0, self.within(at)) {
            if *byte == b'\n' {
                column = 1;
            } else {
                column = column.saturating_add(1);
            }
        }
        column
    }

    /// The line that holds the offset, without its line end.
    pub fn line_of(&self, at: u32) -> Span {
        let at = self.within(at);
        let mut from = 0usize;
        let mut here = 0usize;
        let mut to = self.bytes.len();
        for byte in self.bytes {
            let is_end = *byte == b'\n';
            if is_end && here >= at && here < to {
                to = here;
            }
            here = here.saturating_add(1);
            if is_end && here <= at {
                from = here;
            }
        }
        if to > from && cut(self.bytes, to.saturating_sub(1), to) == b"\r".as_slice() {
            to = to.saturating_sub(1);
        }
        Span::of(from, to)
    }

    /// The spaces and tabs with which the line of the offset begins.
    pub fn indent_of(&self, at: u32) -> Span {
        let line = self.line_of(at);
        let mut to = line.from as usize;
        let mut is_front = true;
        for byte in self.cut(line) {
            if *byte != b' ' && *byte != b'\t' {
                is_front = false;
            }
            if is_front {
                to = to.saturating_add(1);
            }
        }
        Span::of(line.from as usize, to)
    }

    // The offset, or the end of the source where it is behind that.
    fn within(&self, at: u32) -> usize {
        (at as usize).min(self.bytes.len())
    }
}

/// The bytes between two offsets; none where they don't lie so.
pub fn cut(bytes: &[u8], from: usize, to: usize) -> &[u8] {
    if from <= to && to <= bytes.len() {
        return &bytes[from..to];
    }
    &bytes[..0]
}
