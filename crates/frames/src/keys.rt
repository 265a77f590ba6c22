ghost use Rattle.std.specs.Prelude.{◌≡◌};
ghost use Rattle.frames.specs.Keys.{referred, changed, reference_off, reference_on};

// the values of the reference and of the change bit in a storage key
const REFERENCE: u8 = 4;

const CHANGE: u8 = 2;

/// The reference and the change bit of a storage key.
#[derive(Clone, Copy, Debug, PartialEq, Eq)]
pub struct KeyBits {
    pub referred: bool,
    pub changed: bool,
}

/// The bits of a key.
impl From<u8> for KeyBits {
    ghost from_gives = { λ key bits. (bits.referred ≡ referred key) × (bits.changed ≡ changed key) };

    fn from(key: u8) -> KeyBits {
        KeyBits {
            referred: is_referred(key),
            changed: is_changed(key),
        }
    }
}

/// Whether the frame was referred to.
pub fn is_referred(key: u8) -> bool
    ensures { result ≡ referred key }
{
    key & REFERENCE != 0
}

/// Whether the frame was changed.
pub fn is_changed(key: u8) -> bool
    ensures { result ≡ changed key }
{
    key & CHANGE != 0
}

/// The key with the reference bit off, and every other bit as it was.
pub fn reference_off(key: u8) -> u8
    ensures { result ≡ reference_off key }
{
    key & !REFERENCE
}

/// The key with the reference bit on, and every other bit as it was.
pub fn reference_on(key: u8) -> u8
    ensures { result ≡ reference_on key }
{
    key | REFERENCE
}
