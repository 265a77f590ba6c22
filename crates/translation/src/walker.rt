//! The translator that walks the tables each time and never has a pair.
ghost use Rattle.std.specs.Prelude.{◌≡◌};
ghost use Rattle.tables.specs.declared.Controls.{Controls as ControlWords};
ghost use Rattle.translation.specs.Layers.{walker_rules};
ghost use Rattle.translation.specs.Walked.{walker_lawful};
ghost use Rattle.std.proofs.Common.{rules};

use crate::translator::Translator;
use tables::{Controls, Refusal, walk};

/// Both control words, and nothing else.
#[derive(Clone, Copy, Debug, Default, PartialEq, Eq)]
pub struct Walker {
    controls: Controls,
}

impl Walker {
    /// A fresh walker: both control words are 0.
    pub fn new() -> Walker
        ensures { result.controls ≡ record { cr0 = 0; cr1 = 0 } }
    {
        Walker::default()
    }
}

impl Translator for Walker {
    ghost Model = { ControlWords };

    ghost model = { λ w. w.controls };

    ghost rules = { walker_rules };

    ghost lawful = { walker_lawful };

    ghost valid = { Prim.search rules };

    fn translate(&mut self, storage: &[u8], address: u32) -> Result<usize, Refusal> {
        walk(storage, self.controls, address)
    }

    fn load_controls(&mut self, storage: &[u8], controls: Controls) {
        self.controls = controls;
    }

    fn purge(&mut self, storage: &[u8]) {}

    fn forget(&mut self, page: u32) {}

    fn controls(&self) -> Controls {
        self.controls
    }
}
