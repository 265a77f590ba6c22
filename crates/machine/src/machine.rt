//! A machine, made of its parts.
use frames::Policy;
use pages::store::PageStore;
use paging::Own;
use translation::Translator;

/// A machine over any translator, policy and page store. Before its first IPL it has no frame and no page.
#[derive(Drop)]
pub struct Machine<T: Translator, P: Policy, S: PageStore> {
    pub(crate) own: Own<T, P, S>,
}
