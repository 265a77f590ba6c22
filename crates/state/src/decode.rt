//! The tests of the six calls: the first refusal that holds, or what the call works on. Nothing is changed.
ghost use Rattle.std.specs.Prelude.{◌≡◌};
ghost use Rattle.model.specs.Refusals.{decode_fix, decode_free, decode_load, decode_purge, decode_settle, decode_store, room_and_tables, unless};
ghost use Rattle.state.specs.Bare.{bare, request_at, request_for};

use crate::State;
use model::calls::Refusal;
use model::shape::Request;

// A test: done where it holds, else this refusal.
fn ensure(holds: bool, why: Refusal) -> Result<(), Refusal>
    ensures { result ≡ unless holds why }
{
    if holds { Ok(()) } else { Err(why) }
}

impl State {
    // 5, 4: a page by its number.
    fn request_for(&self, storage: &[u8], page: u32) -> Result<Request, Refusal>
        ensures { result ≡ request_for (bare self.now storage.now) page }
    {
        let key = self.layout.page_key(page)?;
        let page = page as u16;
        let frame = self.frame_of(storage, page);
        Ok(Request { page, key, frame })
    }

    // 32, 36, 5, 4: a page by an address in it, and a key that is handed in. Load and Store begin so.
    fn request_at(&self, storage: &[u8], address: u32, key: u8) -> Result<Request, Refusal>
        ensures { result ≡ request_at (bare self.now storage.now) address key }
    {
        ensure(self.right_length(storage), Refusal::Sizes)?;
        ensure(key <= 15, Refusal::Key)?;
        self.request_for(storage, address / 2048)
    }

    // 35, then 54.
    fn room_and_tables(&self, storage: &[u8], request: Request) -> Result<Request, Refusal>
        ensures { result ≡ room_and_tables (bare self.now storage.now) request.page request.key request.frame }
    {
        ensure(!self.is_full(request.frame), Refusal::AllFixed)?;
        ensure(self.tables_right(storage, request), Refusal::Tables)?;
        Ok(request)
    }

    /// Load: 32, 36, 5, 4, 35, 54.
    #[tactic(auto, unfolding(model::specs::Refusals::decode_load))]
    pub fn decode_load(&self, storage: &[u8], address: u32, key: u8) -> Result<Request, Refusal>
        ensures { result ≡ decode_load (bare self.now storage.now) address key }
    {
        self.room_and_tables(storage, self.request_at(storage, address, key)?)
    }

    /// Store: the same, with 4 for a key that is neither 0 nor the page's.
    #[tactic(auto, unfolding(model::specs::Refusals::decode_store))]
    pub fn decode_store(&self, storage: &[u8], address: u32, key: u8) -> Result<Request, Refusal>
        ensures { result ≡ decode_store (bare self.now storage.now) address key }
    {
        let request = self.request_at(storage, address, key)?;
        ensure(key == 0 || key == request.key, Refusal::Protection)?;
        self.room_and_tables(storage, request)
    }

    /// Fix: 32, 5, 4, 37, 35, 54.
    #[tactic(auto, unfolding(model::specs::Refusals::decode_fix))]
    pub fn decode_fix(&self, storage: &[u8], page: u32) -> Result<Request, Refusal>
        ensures { result ≡ decode_fix (bare self.now storage.now) page }
    {
        ensure(self.right_length(storage), Refusal::Sizes)?;
        let request = self.request_for(storage, page)?;
        ensure(self.fixes_of(request.frame) < 255, Refusal::FixLimit)?;
        self.room_and_tables(storage, request)
    }

    /// Free: 32, 5, 4, 38, 54.
    #[tactic(auto, unfolding(model::specs::Refusals::decode_free))]
    pub fn decode_free(&self, storage: &[u8], page: u32) -> Result<Request, Refusal>
        ensures { result ≡ decode_free (bare self.now storage.now) page }
    {
        ensure(self.right_length(storage), Refusal::Sizes)?;
        let request = self.request_for(storage, page)?;
        ensure(self.fixes_of(request.frame) > 0, Refusal::NotFixed)?;
        ensure(self.tables_right(storage, request), Refusal::Tables)?;
        Ok(request)
    }

    /// Purge: 32, and 54 for any entry of either table.
    #[tactic(auto, unfolding(model::specs::Refusals::decode_purge))]
    pub fn decode_purge(&self, storage: &[u8]) -> Result<(), Refusal>
        ensures { result ≡ decode_purge (bare self.now storage.now) }
    {
        ensure(self.right_length(storage), Refusal::Sizes)?;
        ensure(
            self.layout.segments_are(storage) && self.entries_are(storage),
            Refusal::Tables,
        )
    }

    /// Settle: 32, and 54 for any page that a frame has.
    #[tactic(auto, unfolding(model::specs::Refusals::decode_settle))]
    pub fn decode_settle(&self, storage: &[u8]) -> Result<(), Refusal>
        ensures { result ≡ decode_settle (bare self.now storage.now) }
    {
        ensure(self.right_length(storage), Refusal::Sizes)?;
        ensure(self.frames_are(storage), Refusal::Tables)
    }
}
