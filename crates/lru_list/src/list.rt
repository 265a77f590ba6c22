//! The list of the frames held.
ghost use Rattle.std.specs.Prelude.{◌≡◌, ◌≤◌, [], length};
ghost use Rattle.frames.specs.Held.{Once};

use recency::RecencyList;

/// The frames held, in the order of their use: the one used last stands last.
#[derive(Drop)]
pub struct LruList {
    pub(crate) frames: RecencyList<u8, 256>,
    // each is held once
    ghost once: { Once frames },
}

impl LruList {
    /// Holds no frame.
    pub fn new() -> LruList
        ensures { result.frames ≡ [] }
    {
        LruList {
            frames: RecencyList::new(0),
        }
    }

    /// The frames held, in their order.
    pub fn held(&self) -> &[u8]
        ensures frames { result.now ≡ self.now.frames }
        ensures few { length result.now ≤ 256 }
    {
        self.frames.as_slice()
    }
}
