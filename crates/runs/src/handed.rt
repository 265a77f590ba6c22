//! A call with the main storage that it is handed.
use model::calls::Call;

/// A call, and the main storage that it is handed.
#[derive(Drop)]
pub struct Handed {
    pub storage: Vec<u8>,
    pub call: Call,
}
