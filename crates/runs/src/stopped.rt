//! Why a run is not begun.
use model::calls::IplRefusal;

/// Why a run is not begun. Then everything is as found.
#[derive(Clone, Copy, PartialEq, Eq, Debug)]
pub enum Stopped {
    /// IPL is refused.
    Refused(IplRefusal),
    /// Memory for the answers is not to be had.
    Memory,
}
