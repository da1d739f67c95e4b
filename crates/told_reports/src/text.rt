//! A text that grows in memory.

use report::{PutFault, Sink};

/// A text that grows in memory, and how often memory was refused to it.
#[derive(Drop)]
pub struct Text {
    pub bytes: Vec<u8>,
    pub refusals: u64,
}

impl Sink for Text {
    ghost taken = { λ text. text.bytes.items };

    ghost refusals = { λ text. text.refusals };

    fn put(&mut self, bytes: &[u8]) -> Result<usize, PutFault> {
        if self.bytes.extend_from_slice(bytes).is_err() {
            self.refusals = self.refusals.saturating_add(1);
            return Err(PutFault);
        }
        Ok(bytes.len())
    }
}
