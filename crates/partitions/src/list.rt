//! The list of partitions, in an array of five: how it is tested, kept and asked.
ghost use Rattle.std.specs.Prelude.{◌≡◌, ◌+◌, ◌≤◌, ◌&&◌, leb, [], length, if◌then◌else◌, Some, None, IfSome, nat_le, nat_lt};
ghost use Rattle.model.specs.Ipl.{in_order};
ghost use Rattle.model.specs.Layout.{key_of};
ghost use Rattle.partitions.specs.Partitions.{Apart};

use model::shape::Partition;
use std::marker::Model;

/// At most five partitions. No call allocates, so they are the first `count` of an array; the places behind them have no
/// pages and key 0. Contracts see the list of the partitions.
#[derive(Clone, Copy, Debug, PartialEq, Eq)]
pub struct Partitions {
    list: [Partition; 5],
    count: usize,
}

impl Model for Partitions {
    ghost use Rattle.std.specs.Prelude.{List, length, take};
    ghost use Rattle.model.specs.declared.shape.Partition.{Partition};
    ghost use Rattle.partitions.specs.Partitions.{IsPadded, made_same, padded};

    ghost Value = { List Partition };

    ghost view = { λ p. take p.count p.list };

    ghost invariant = { λ p. IsPadded p.list p.count };

    ghost inverse = { λ l. record { list = padded l; count = length l } };

    ghost inverse_ok = { λ p h. made_same (λ l n. record { list = l; count = n }) p.list p.count h };
}

// What a place holds behind the partitions.
const SPARE: Partition = Partition {
    first: 0,
    count: 0,
    key: 0,
};

// Whether a page is in a partition. Its end may be past every page number.
fn holds(partition: Partition, page: u32) -> bool
    ensures { result ≡ (nat_le partition.first page && nat_lt page (partition.first + partition.count)) }
{
    partition.first <= page && page - partition.first < partition.count
}

// Whether a partition has pages and a key from 1 to 15, starts not under `from`, and ends not past `pages`.
fn fits(partition: Partition, from: u32, pages: u32) -> bool
    ensures { result ≡ (nat_le 1 partition.count && (nat_le 1 partition.key && (nat_le partition.key 15 && (nat_le from partition.first && nat_le (partition.first + partition.count) pages)))) }
{
    partition.count >= 1
        && (1..=15).contains(&partition.key)
        && partition.first >= from
        && u64::from(partition.first) + u64::from(partition.count) <= u64::from(pages)
}

// The access key of the first partition of a list that a page is in.
fn key_in(list: &[Partition], page: u32) -> Option<u8>
    ensures { result ≡ key_of list.now page }
{
    list.iter().find(|p| holds(**p, page)).map(|p| p.key)
}

// Whether each partition fits, the first not under `from` and each later one not under the end of the one before.
fn in_order(list: &[Partition], from: u32, pages: u32) -> bool
    ensures { result ≡ in_order from pages list.now }
{
    // A `for`, since each partition is tested against the end of the one before.
    let mut low = from;
    for partition in list {
        if !fits(*partition, low, pages) {
            return false;
        }
        low = partition.first + partition.count;
    }
    true
}

impl Partitions {
    /// No partition.
    pub fn none() -> Partitions
        ensures { result ≡ [] }
    {
        Partitions {
            list: [SPARE; 5],
            count: 0,
        }
    }

    /// The access key of the partition that a page is in.
    pub fn key_of(&self, page: u32) -> Option<u8>
        ensures key { result ≡ key_of self.now page }
        ensures few { length self.now ≤ 5 }
    {
        key_in(&self.list[..self.count], page)
    }

    /// The partitions of a list: one to five, each with pages and a key from 1 to 15, none under page `supervisor`, none
    /// past page `pages`, and each after the one before, so that no page is in two. None where the list is not such.
    pub fn checked(list: &[Partition], supervisor: u32, pages: u32) -> Option<Partitions>
        ensures answer { result ≡ (if leb 1 (length list.now) && (nat_le (length list.now) 5 && in_order supervisor pages list.now) then Some list.now else None) }
        ensures apart { IfSome result Apart }
    {
        if list.is_empty() || list.len() > 5 || !in_order(list, supervisor, pages) {
            return None;
        }
        let count = list.len();
        let mut places = [SPARE; 5];
        let used = &mut places[..count];
        used.copy_from_slice(list);
        Some(Partitions {
            list: places,
            count,
        })
    }
}
