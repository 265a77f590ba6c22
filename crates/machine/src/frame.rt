//! What a call does to the frame of its page.
ghost use Rattle.std.specs.Prelude.{◌≡◌, ℕ, ◌-◌, List, slice_index};
ghost use Rattle.model.specs.Steps.{asked, change_off, change_on, fixed_once, freed_in, loaded_in, settled_in, stored_in, swept};
ghost use Rattle.machine.specs.Machine.{rules, with_translator, world};

use crate::Machine;
use frames::{KeyBits, Policy, is_changed, reference_on};
use layout::entries::{entry, put_entry};
use pages::store::PageStore;
use storage::{PAGE, byte as byte_at, put_byte};
use table::NO_PAGE;
use translation::Translator;

// The value of the change bit in a storage key.
const CHANGE: u8 = 2;

// The key with its change bit on, and every other bit as it was.
fn change_on(key: u8) -> u8
    ensures { result ≡ change_on key }
{
    key | CHANGE
}

// The key with its change bit off, and every other bit as it was.
fn change_off(key: u8) -> u8
    ensures { result ≡ change_off key }
{
    key & !CHANGE
}

impl<T: Translator, P: Policy, S: PageStore> Machine<T, P, S> {
    // The translator is asked for an address whose page is in this frame. The byte of the frame stands in for a refusal.
    fn ask(&mut self, storage: &[u8], address: u32, frame: u8) -> usize
        ensures real { result ≡ asked (rules T.Translator P.Policy S.PageStore) address frame (world T.Translator P.Policy S.PageStore self.old storage.now) }
        ensures rule { world T.Translator P.Policy S.PageStore self.new storage.now ≡ with_translator (world T.Translator P.Policy S.PageStore self.old storage.now) (T.Translator.rules.translate (T.Translator.model self.old.own.translator) storage.now address).left }
    {
        let stand_in = PAGE * usize::from(frame) + address as usize % PAGE;
        self.own
            .translator
            .translate(storage, address)
            .unwrap_or(stand_in)
    }

    // A byte is read: the reference bit goes on, and the policy is told.
    pub(crate) fn read_byte(&mut self, storage: &[u8], address: u32, frame: u8) -> u8
        ensures byte { result ≡ slice_index storage.now (asked (rules T.Translator P.Policy S.PageStore) address frame (world T.Translator P.Policy S.PageStore self.old storage.now)) }
        ensures rule { world T.Translator P.Policy S.PageStore self.new storage.now ≡ loaded_in (rules T.Translator P.Policy S.PageStore) address frame (world T.Translator P.Policy S.PageStore self.old storage.now) }
    {
        let real = self.ask(storage, address, frame);
        let key = &mut self.own.keys[usize::from(frame)];
        *key = reference_on(*key);
        self.own.policy.touch(u16::from(frame));
        byte_at(storage, real)
    }

    // A byte is written: reference and change bit go on, and the policy is told.
    pub(crate) fn write_byte(&mut self, storage: &mut [u8], address: u32, byte: u8, frame: u8)
        ensures { world T.Translator P.Policy S.PageStore self.new storage.new ≡ stored_in (rules T.Translator P.Policy S.PageStore) address byte frame (world T.Translator P.Policy S.PageStore self.old storage.old) }
    {
        let real = self.ask(storage, address, frame);
        put_byte(storage, real, byte);
        let key = &mut self.own.keys[usize::from(frame)];
        *key = change_on(reference_on(*key));
        self.own.policy.touch(u16::from(frame));
    }

    // Fixed once more: at 1 the frame leaves the policy.
    pub(crate) fn fix_frame(&mut self, frame: u8)
        ensures { (s : List ℕ) → world T.Translator P.Policy S.PageStore self.new s ≡ fixed_once (rules T.Translator P.Policy S.PageStore) frame (world T.Translator P.Policy S.PageStore self.old s) }
    {
        if self.own.state.record(frame).fixes == 0 {
            self.own.policy.leave(u16::from(frame));
        }
        self.own.state.fix(frame);
    }

    // Freed once: at 0 the frame is returned to the policy with its reference and change bit.
    pub(crate) fn free_frame(&mut self, frame: u8)
        ensures { (s : List ℕ) → world T.Translator P.Policy S.PageStore self.new s ≡ freed_in (rules T.Translator P.Policy S.PageStore) frame (world T.Translator P.Policy S.PageStore self.old s) }
    {
        if self.own.state.record(frame).fixes == 1 {
            let key = self.own.keys[usize::from(frame)];
            self.own
                .policy
                .return_frame(u16::from(frame), KeyBits::from(key));
        }
        self.own.state.free(frame);
    }

    // A frame with a changed page is written to its slot, its change bit and its page's bit 15 go off.
    fn settle_frame(&mut self, storage: &mut [u8], frame: u8)
        ensures { world T.Translator P.Policy S.PageStore self.new storage.new ≡ settled_in (rules T.Translator P.Policy S.PageStore) frame (world T.Translator P.Policy S.PageStore self.old storage.old) }
    {
        let page = self.own.state.record(frame).page;
        let key = self.own.keys[usize::from(frame)];
        if page != NO_PAGE && is_changed(key) {
            self.own.put_out(storage, frame, page);
            self.own.keys[usize::from(frame)] = change_off(key);
            // By halves, as the definition has it: a mask would read no plainer.
            let settled = entry(storage, page) / 2 * 2;
            put_entry(storage, page, settled);
        }
    }

    // The same for every pageable frame, in order.
    #[tactic(auto, using(layout::proofs::Made::more), unfolding(model::specs::Steps::swept))]
    pub(crate) fn settle_frames(&mut self, storage: &mut [u8])
        ensures { let w = world T.Translator P.Policy S.PageStore self.old storage.old in world T.Translator P.Policy S.PageStore self.new storage.new ≡ swept (rules T.Translator P.Policy S.PageStore) w.config.supervisor (w.config.frames - w.config.supervisor) w }
    {
        let first = self.own.state.layout().supervisor();
        let past = self.own.state.layout().frames();
        for frame in first..past {
            self.settle_frame(storage, frame as u8);
        }
    }
}
