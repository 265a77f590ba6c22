//! Digests, by which two runs of bytes are compared at a glance: FNV-1a of 64 bits.
ghost use Rattle.std.specs.Prelude.{◌≡◌, ℕ, IfOk, string_bytes};
ghost use Rattle.listing.specs.Digests.{basis, digest_from, digest_of, digest_text};

use crate::hexadecimal::hex_text;
use std::alloc::{AllocError, Global};
use std::marker::Model;

/// The digest of no bytes.
const BASIS: u64 = 0xCBF2_9CE4_8422_2325;

/// What the digest is multiplied by at each byte.
const PRIME: u64 = 0x0000_0100_0000_01B3;

/// The digest of the bytes so far.
#[derive(Clone, Copy, Debug, PartialEq, Eq)]
pub struct Digest {
    hash: u64,
}

impl Model for Digest {
    ghost Value = { ℕ };

    ghost view = { λ d. d.hash };

    ghost inverse = { λ n. record { hash = n } };
}

impl Digest {
    /// The digest of no bytes.
    pub fn new() -> Digest
        ensures { result ≡ basis }
    {
        Digest { hash: BASIS }
    }

    /// Takes in more bytes.
    pub fn add(&mut self, bytes: &[u8])
        ensures { self.new ≡ digest_from self.old bytes.now }
    {
        self.hash = bytes.iter().fold(
            self.hash,
            |hash, b| (hash ^ u64::from(*b)).wrapping_mul(PRIME),
        );
    }

    /// The number.
    pub fn number(self) -> u64
        ensures { result ≡ self }
    {
        self.hash
    }
}

/// The digest of a run of bytes.
pub fn digest_of(bytes: &[u8]) -> u64
    ensures { result ≡ digest_of bytes.now }
{
    let mut digest = Digest::new();
    digest.add(bytes);
    digest.number()
}

/// The sixteen digits of the digest of a run of bytes.
pub fn digest_text(heap: Global, bytes: &[u8]) -> Result<String, AllocError>
    ensures { IfOk result (λ t. string_bytes t ≡ digest_text bytes.now) }
{
    hex_text(heap, &digest_of(bytes).to_be_bytes())
}
