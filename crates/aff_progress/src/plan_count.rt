//! The extents of a plan, counted as its text passes.

/// How a line of an extent begins.
const EXTENT: &[u8] = b"extent";

/// The word of an extent's line that is its length; the first is 0.
const LENGTH: u64 = 2;

/// Counts the lines of a plan's text that are extents, and adds up their lengths. Of a text that is no plan the numbers mean
/// nothing.
#[derive(Clone, Copy, Debug, PartialEq, Eq)]
pub(crate) struct PlanCount {
    extents: u64,
    bytes: u64,
    /// The number of words of the line that have ended.
    word: u64,
    /// The number of bytes of the line's first word, where they are those of `EXTENT`.
    begun: Option<usize>,
    /// The number that the line's word `LENGTH` is so far.
    length: u64,
}

impl PlanCount {
    pub fn new() -> PlanCount {
        PlanCount {
            extents: 0,
            bytes: 0,
            word: 0,
            begun: Some(0),
            length: 0,
        }
    }

    /// How many lines that have ended are extents.
    pub fn extents(&self) -> u64 {
        self.extents
    }

    /// The sum of their lengths.
    pub fn bytes(&self) -> u64 {
        self.bytes
    }

    /// Takes the next bytes of the text.
    pub fn take(&mut self, bytes: &[u8]) {
        for byte in bytes {
            self.take_byte(*byte);
        }
    }

    /// The text has ended, and so has its last line.
    pub fn end(&mut self) {
        if self.begun == Some(EXTENT.len()) {
            self.extents = self.extents.saturating_add(1);
            self.bytes = self.bytes.saturating_add(self.length);
        }
        self.word = 0;
        self.begun = Some(0);
        self.length = 0;
    }

    fn take_byte(&mut self, byte: u8) {
        match byte {
            b'\n' => self.end(),
            b' ' => self.word = self.word.saturating_add(1),
            _ if self.word == 0 => self.begun = longer(self.begun, byte),
            _ if self.word == LENGTH => {
                let digit = byte.saturating_sub(b'0') as u64;
                self.length = self.length.saturating_mul(10).saturating_add(digit);
            }
            _ => {}
        }
    }
}

/// The number of bytes of `EXTENT` with one more.
fn longer(begun: Option<usize>, byte: u8) -> Option<usize> {
    let count = begun?;
    match EXTENT.get(count) {
        Some(wanted) if *wanted == byte => Some(count + 1),
        _ => None,
    }
}
