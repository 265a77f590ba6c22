//! The lookaside pairs of a translator.
ghost use Rattle.std.specs.Prelude.{◌≡◌, [], ◌∷◌, List, IfOk, string_bytes};
ghost use Rattle.translation.specs.declared.pair.Pair.{Pair as PairOf};
ghost use Rattle.parts.specs.Pairs.{any_pair, layers_text, pairs_line};

use listing::lines::listed;
use std::alloc::{AllocError, Global};
use translation::{Tlb, Translator, Walker};

/// A translator that shows its pairs.
pub trait ShowPairs: Translator {
    // the pairs of each layer, the upper layer first, and in each the first to go first
    ghost layers: { Self → List (List PairOf) };

    /// Whether any layer has a pair.
    fn any_pair(&self) -> bool
        ensures { result ≡ any_pair (layers self.now) };

    /// The pairs of each layer behind what the first one starts with, with ` /` between two layers.
    fn layers(&self, heap: Global, start: &str) -> Result<String, AllocError>
        ensures { IfOk result (λ t. string_bytes t ≡ layers_text start.now (layers self.now)) };
}

/// No layer at all.
impl ShowPairs for Walker {
    ghost layers = { λ _. [] };

    fn any_pair(&self) -> bool {
        false
    }

    fn layers(&self, heap: Global, _start: &str) -> Result<String, AllocError> {
        Ok(String::new(heap))
    }
}

/// A layer above those of the translator below.
impl<T: ShowPairs> ShowPairs for Tlb<T> {
    ghost layers = { λ t. t.pairs ∷ T.ShowPairs.layers t.below };

    fn any_pair(&self) -> bool {
        !self.pairs().is_empty() || self.below().any_pair()
    }

    fn layers(&self, heap: Global, start: &str) -> Result<String, AllocError> {
        let mut text = listed(heap, start, self.pairs())?;
        let below = self.below().layers(heap, " /")?;
        text.push_str(below.as_str())?;
        Ok(text)
    }
}

/// The line that shows the pairs of a translator: the word alone where there are none.
pub fn pairs_line<T: ShowPairs>(heap: Global, translator: &T) -> Result<String, AllocError>
    ensures { IfOk result (λ t. string_bytes t ≡ pairs_line (T.ShowPairs.layers translator.now)) }
{
    if !translator.any_pair() {
        return String::from_str(heap, "PAIRS");
    }
    let layers = translator.layers(heap, "")?;
    format!(in heap; "PAIRS{layers}")
}
