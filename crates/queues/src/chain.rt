ghost use Rattle.std.specs.Prelude.{◌≡◌, [], ◌∷◌, ◌++◌, replicate, slice_index, slice_set};

use std::marker::Model;

/// Links from node to node, one way. A node is a frame, 0 to 255, or the end mark of a queue, 256 to 260. Clauses see where
/// the link of each node leads, as one list.
#[derive(Clone, Copy)]
pub struct Chain {
    // where the link of each frame leads; the rules ask for an array of 256 links
    frames: [u16; 256],
    // and that of each end mark
    ends: [u16; 5],
}

impl Model for Chain {
    ghost use Rattle.std.specs.Prelude.{◌≡◌, ℕ, List, ◌++◌, length, take, drop};
    ghost use Rattle.queues.specs.Parted.{parted_same};

    ghost Value = { List ℕ };

    ghost view = { λ c. c.frames ++ c.ends };

    ghost invariant = { λ c. (length c.frames ≡ 256) × (length c.ends ≡ 5) };

    ghost inverse = { λ l. record { frames = take 256 l; ends = drop 256 l } };

    ghost inverse_ok = { λ c h. parted_same (λ a b. record { frames = a; ends = b }) 256 c.frames c.ends h.0 };
}

impl Chain {
    /// Each end mark is linked to itself.
    pub fn new() -> Chain
        ensures { result ≡ replicate 256 0 ++ (256 ∷ (257 ∷ (258 ∷ (259 ∷ (260 ∷ []))))) }
    {
        Chain {
            frames: [0; 256],
            ends: [256, 257, 258, 259, 260],
        }
    }

    /// Where the link of a node leads.
    pub fn follow(&self, node: u16) -> u16
        ensures { result ≡ slice_index self.now node }
    {
        if node < 256 {
            self.frames[node as usize]
        } else if node < 261 {
            self.ends[(node - 256) as usize]
        } else {
            0
        }
    }

    /// The link of a node leads to another from now on. A number that is no node changes nothing.
    pub fn lead(&mut self, node: u16, to: u16)
        ensures { self.new ≡ slice_set self.old node to }
    {
        if node < 256 {
            self.frames[node as usize] = to;
        } else if node < 261 {
            self.ends[node as usize - 256] = to;
        }
    }
}
