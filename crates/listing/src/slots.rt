//! The digest of a page store.
ghost use Rattle.std.specs.Prelude.{◌≡◌};
ghost use Rattle.pages.specs.Store.{refusal_at};
ghost use Rattle.listing.specs.Digests.{digest_from, digest_of};
ghost use Rattle.listing.specs.Slots.{read_bytes, store_bytes};

use crate::digest::Digest;
use pages::store::PageStore;
use storage::PAGE;

// Takes in the bytes of a slot, where it can be read.
fn add_slot<S: PageStore>(digest: &mut Digest, store: &S, slot: u32)
    ensures { digest.new ≡ digest_from digest.old (read_bytes S.PageStore.rules (S.PageStore.model store.now) slot (refusal_at S.PageStore.rules (S.PageStore.model store.now) slot 2048)) }
{
    let mut page = [0u8; PAGE];
    if store.read(slot, &mut page).is_ok() {
        digest.add(&page);
    }
}

/// The digest of the bytes of all slots that can be read, in order.
pub fn digest_of_slots<S: PageStore>(store: &S) -> u64
    ensures { result ≡ digest_of (store_bytes S.PageStore.rules (S.PageStore.model store.now)) }
{
    let mut digest = Digest::new();
    for slot in 0..store.count() {
        add_slot(&mut digest, store, slot);
    }
    digest.number()
}
