//! Texts that grow.
use std::alloc::Global;
use wy_ast::NoMemory;

/// A text that grows.
#[derive(Drop)]
pub struct Page {
    alloc: Global,
    bytes: Vec<u8>,
}

impl Page {
    /// No text yet.
    pub fn new(alloc: Global) -> Page {
        Page {
            alloc,
            bytes: Vec::new(alloc),
        }
    }

    /// The allocator that it was made with.
    pub fn alloc(&self) -> Global {
        self.alloc
    }

    pub fn as_slice(&self) -> &[u8] {
        self.bytes.as_slice()
    }

    pub fn into_vec(self) -> Vec<u8> {
        let Page { bytes, .. } = self;
        bytes
    }

    pub fn is_empty(&self) -> bool {
        self.bytes.is_empty()
    }

    /// How many bytes stand behind the last line end.
    pub fn column(&self) -> usize {
        let mut column = 0usize;
        for byte in self.bytes.as_slice() {
            if *byte == b'\n' {
                column = 0;
            } else {
                column = column.saturating_add(1);
            }
        }
        column
    }

    /// Appends a text.
    pub fn text(&mut self, text: &str) -> Result<(), NoMemory> {
        self.bytes.extend_from_slice(text.as_bytes())?;
        Ok(())
    }

    /// Appends bytes.
    pub fn bytes(&mut self, bytes: &[u8]) -> Result<(), NoMemory> {
        self.bytes.extend_from_slice(bytes)?;
        Ok(())
    }

    /// Appends a number in decimal.
    pub fn number(&mut self, number: u64) -> Result<(), NoMemory> {
        let text = format!(in self.alloc; "{number}")?;
        self.text(text.as_str())
    }

    /// Appends a number in decimal.
    pub fn whole(&mut self, number: i128) -> Result<(), NoMemory> {
        let text = format!(in self.alloc; "{number}")?;
        self.text(text.as_str())
    }

    /// Appends a piece of a program between backquotes.
    pub fn code(&mut self, bytes: &[u8]) -> Result<(), NoMemory> {
        self.text("`")?;
        self.bytes(bytes)?;
        self.text("`")
    }

    /// Appends a byte so many times.
    pub fn repeat(&mut self, byte: u8, count: usize) -> Result<(), NoMemory> {
        for _ in 0..count {
            self.bytes.push(byte)?;
        }
        Ok(())
    }
}
