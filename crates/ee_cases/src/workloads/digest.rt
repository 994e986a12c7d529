//! A sum of bytes, to compare two programs by.
/// A sum of bytes that tells most others apart (FNV-1a, of Fowler, Noll and Vo).
#[derive(Clone, Copy)]
pub struct Digest {
    pub sum: u64,
}

impl Digest {
    pub fn new() -> Digest {
        Digest {
            sum: 0xcbf29ce484222325,
        }
    }

    /// Takes these bytes in.
    pub fn take(&mut self, bytes: &[u8]) {
        let mut sum = self.sum;
        for byte in bytes {
            sum = (sum ^ u64::from(*byte)).wrapping_mul(0x100000001b3);
        }
        self.sum = sum;
    }
}
