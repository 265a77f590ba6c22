//! The token of a frame that is taken for a page, and which step of the page fault it has passed.
//!
//! `take` makes a `Taken`, `empty` turns it into an `Emptied`, `fill` into a `Filled`, and `connect` ends it. Only these
//! steps can make, turn or end a token: what does so is visible in their module alone. A token can be neither copied nor let
//! go, so that a frame which is taken is emptied, filled and connected, in this order.
ghost use Rattle.std.specs.Prelude.{◌≡◌};

use std::marker::PhantomData;

/// The steps that a taken frame has passed, as types.
pub mod step {
    /// Taken, and not emptied yet.
    pub struct Taken;

    /// Emptied, and not filled yet.
    pub struct Emptied;

    /// Filled, and not connected yet.
    pub struct Filled;
}

/// The number of a taken frame, and that of the page for which it was taken, at a step of the page fault.
// It has no model: it is plain numbers, and a clause says of each what it is.
pub struct TakenFrame<Step> {
    frame: u8,
    page: u16,
    step: PhantomData<Step>,
}

/// A frame that was taken for a page. It may have another page still.
pub type Taken = TakenFrame<step::Taken>;

/// A taken frame that has no page any more.
pub type Emptied = TakenFrame<step::Emptied>;

/// A taken frame that holds the bytes of the page for which it was taken.
pub type Filled = TakenFrame<step::Filled>;

impl<Step> TakenFrame<Step> {
    /// The number of the taken frame, 0 to 255.
    pub(super) fn frame(&self) -> u8
        ensures { result ≡ self.now.frame }
    {
        self.frame
    }

    /// The page for which it was taken.
    pub(super) fn page(&self) -> u16
        ensures { result ≡ self.now.page }
    {
        self.page
    }

    // The same frame for the same page, a step further.
    fn at<Next>(self) -> TakenFrame<Next>
        ensures frame { result.frame ≡ self.frame }
        ensures page { result.page ≡ self.page }
    {
        let TakenFrame {
            frame,
            page,
            step: _,
        } = self;
        TakenFrame {
            frame,
            page,
            step: PhantomData,
        }
    }
}

impl TakenFrame<step::Taken> {
    /// The policy has handed over this frame for this page.
    pub(super) fn for_page(frame: u8, page: u16) -> Taken
        ensures frame { result.frame ≡ frame }
        ensures page { result.page ≡ page }
    {
        Self {
            frame,
            page,
            step: PhantomData,
        }
    }

    /// The page that the frame had is put out.
    pub(super) fn emptied(self) -> Emptied
        ensures frame { result.frame ≡ self.frame }
        ensures page { result.page ≡ self.page }
    {
        self.at::<step::Emptied>()
    }
}

impl TakenFrame<step::Emptied> {
    /// The bytes of the page stand in the frame.
    pub(super) fn filled(self) -> Filled
        ensures frame { result.frame ≡ self.frame }
        ensures page { result.page ≡ self.page }
    {
        self.at::<step::Filled>()
    }
}

impl TakenFrame<step::Filled> {
    /// The frame is connected, and the token ends: the number of the frame.
    pub(super) fn connected(self) -> u8
        ensures { result ≡ self.frame }
    {
        let TakenFrame {
            frame: connected,
            page: _,
            step: _,
        } = self;
        connected
    }
}
