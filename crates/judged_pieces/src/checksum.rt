// A checksum of bytes.

/// What FNV-1a of 64 bits begins with, and what it multiplies by, as its authors publish them.
const OFFSET: u64 = 14_695_981_039_346_656_037;

const PRIME: u64 = 1_099_511_628_211;

/// FNV-1a of 64 bits.
#[derive(Clone, Copy)]
pub struct Checksum {
    state: u64,
}

impl Checksum {
    /// Of no byte.
    pub fn new() -> Checksum {
        Checksum { state: OFFSET }
    }

    /// Takes one byte more.
    pub fn add(&mut self, byte: u8) {
        self.state = (self.state ^ byte as u64).wrapping_mul(PRIME);
    }

    /// Takes more bytes.
    pub fn add_all(&mut self, bytes: &[u8]) {
        for byte in bytes {
            self.add(*byte);
        }
    }

    /// The checksum of the bytes so far.
    pub fn value(&self) -> u64 {
        self.state
    }
}
