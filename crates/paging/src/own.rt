//! What is a machine's own.
use frames::Policy;
use pages::store::PageStore;
use state::State;
use translation::Translator;

/// Sizes, partitions and frame table, 256 storage keys, and the three parts.
#[derive(Drop)]
pub struct Own<T: Translator, P: Policy, S: PageStore> {
    pub state: State,
    pub keys: [u8; 256],
    pub translator: T,
    pub policy: P,
    pub store: S,
}
