//! The page stores that a board is wired with.
ghost use Rattle.std.specs.Prelude.{◌≡◌, ◌*◌, ◌<◌, ◌≤◌, replicate, Err, IfOk};
ghost use Rattle.dataset.specs.Format.{blank_set, opened};
ghost use Rattle.dataset.specs.declared.refusal.OpenRefusal.TheVariants.{TooManySlots};

use area::PlainArea;
use dataset::data_set::DataSet;
use dataset::refusal::BlankRefusal;
use std::alloc::{AllocError, Global};
use storage::{Number, PAGE};

/// A plain area of so many slots, all zeros.
pub fn plain(heap: Global, slots: u32) -> Result<PlainArea, AllocError>
    ensures { IfOk result (λ s. s.items ≡ replicate (2048 * slots) 0) }
{
    Ok(PlainArea::new(vec![in heap; 0u8; PAGE * slots as usize]?))
}

/// A page data set of so many blank slots. One of more slots than a data set may have is refused when it is opened.
pub fn blank(heap: Global, slots: u32) -> Result<DataSet, AllocError>
    ensures blank { IfOk result (λ s. slots ≤ 8192 → s.items ≡ blank_set slots) }
    ensures refused { IfOk result (λ s. 8192 < slots → opened s.items ≡ Err TooManySlots) }
{
    match DataSet::blank(heap, slots) {
        Ok(set) => Ok(set),
        Err(BlankRefusal::NoMemory) => Err(AllocError),
        Err(BlankRefusal::TooManySlots) => {
            let mut front = vec![in heap; 0u8; 8]?;
            slots.write(&mut front, 0);
            (PAGE as u32).write(&mut front, 4);
            Ok(DataSet::open(front))
        }
    }
}
