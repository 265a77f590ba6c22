//! A recency list: the elements in the order of their use, the one used last at the end. It serves every kind of element
//! that can state its key. The functions work on a slice; `RecencyList` has an array of its own.
#![tactic(auto)]

mod list;

ghost use Rattle.std.specs.Prelude.{◌≡◌, ℕ, ◌+◌, ◌<◌, min, length, take, drop, IfSome, nat_lt};
ghost use Rattle.std.specs.List.{remove};
ghost use Rattle.recency.specs.Places.{place_of, at_end, put_last};

pub use list::RecencyList;

/// What can state its key.
pub trait Keyed {
    // the key
    ghost key_of: { Self → ℕ };

    /// The key.
    fn key(&self) -> u32
        ensures { result ≡ key_of self.now };
}

/// A frame number is its own key.
impl Keyed for u8 {
    ghost key_of = { λ f. f };

    fn key(&self) -> u32 {
        u32::from(*self)
    }
}

/// The place of the first element with this key.
pub fn find<E: Keyed>(list: &[E], key: u32) -> Option<usize>
    ensures place { result ≡ place_of E.Keyed.key_of key list.now 0 }
    ensures within { IfSome result (λ i. i < length list.now) }
{
    list.iter().position(|e| e.key() == key)
}

/// The element at this place goes to the end, and the others keep their order. At a place past the end the answer is no,
/// and the list is left as it is.
pub fn move_to_end<E: Copy>(list: &mut [E], place: usize) -> bool
    ensures answer { result ≡ nat_lt place (length list.old) }
    ensures after { list.new ≡ at_end list.old place }
{
    if place >= list.len() {
        return false;
    }
    list[place..].rotate_left(1);
    true
}

/// The element at this place goes out. The answer is how many are left: they stand in front, in their order. At a place
/// past the end all are left.
pub fn remove<E: Copy>(list: &mut [E], place: usize) -> usize
    ensures count { result ≡ length (remove list.old place) }
    ensures left { take result list.new ≡ remove list.old place }
{
    let count = list.len();
    if move_to_end(list, place) {
        count - 1
    } else {
        count
    }
}

/// Puts an element behind the first `held` ones, and answers how many are held then. Where there is no room the first one
/// goes out. Nothing behind the held ones changes.
pub fn put<E: Copy>(room: &mut [E], held: usize, element: E) -> usize
    ensures count { result ≡ min (length room.old) (held + 1) }
    ensures front { take result room.new ≡ put_last (length room.old) (take held room.old) element }
    ensures behind { drop result room.new ≡ drop result room.old }
{
    let count = room.len();
    if held < count {
        room[held] = element;
        return held + 1;
    }
    if count == 0 {
        return 0;
    }
    room.rotate_left(1);
    room[count - 1] = element;
    count
}
