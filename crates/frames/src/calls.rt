use super::keys::KeyBits;

/// A call of a policy.
#[derive(Clone, Copy, Debug, PartialEq, Eq)]
pub enum Call {
    Enter { frame: u16 },
    Return { frame: u16, bits: KeyBits },
    Leave { frame: u16 },
    Touch { frame: u16 },
    Empty,
    Take,
}

/// What a call answers.
#[derive(Clone, Copy, Debug, PartialEq, Eq)]
pub enum Answer {
    Said { yes: bool },
    Done,
    Took { frame: Option<u8> },
}
