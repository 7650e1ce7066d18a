// What a roll does.
ghost use Rattle.std.specs.Prelude.{◌≡◌, ◌+◌, ◌<◌, ◌≤◌, [], ◌∷◌, ◌++◌, length, is_ok, IfErr, if◌then◌else◌, nat_lt, slice_index_or, slice_set};
ghost use Rattle.records.specs.declared.refusal.RollRefusal.TheVariants.{Full, NoRecord};
ghost use Rattle.records.specs.Rolls.{records, room, SameSlots};

use super::{MOST_SLOTS, Roll};
use crate::refusal::RollRefusal;

impl<'a, T: Copy> Roll<'a, T> {
    // An empty roll over the caller's slots.
    pub fn new(slots: &'a mut [T]) -> Roll<'a, T>
        ensures value { records result ≡ [] }
        ensures slots { (result.slots.now ≡ slots.old) × (result.slots.ghost_name ≡ slots.entry.ghost_name) }
    {
        Roll { slots, count: 0 }
    }

    // How many records there are.
    pub fn count(&self) -> usize
        ensures value { result ≡ length (records self.now) }
    {
        self.as_slice().len()
    }

    // How many slots the roll uses.
    pub fn room(&self) -> usize
        ensures value { result ≡ room self.now }
    {
        MOST_SLOTS.min(self.slots.len())
    }

    // Frees every slot.
    pub fn clear(&mut self)
        ensures after { records self.new ≡ [] }
        ensures same { (self.new.slots.now ≡ self.old.slots.now) × (self.new.slots.ghost_name ≡ self.old.slots.ghost_name) }
    {
        self.count = 0;
    }

    // Adds a record, or refuses where every slot is filled.
    pub fn add(&mut self, item: T) -> Result<(), RollRefusal>
        ensures value { is_ok result ≡ nat_lt (length (records self.old)) (room self.old) }
        ensures refused { IfErr result (λ e. e ≡ Full) }
        ensures after { records self.new ≡ (if is_ok result then records self.old ++ item ∷ [] else records self.old) }
        ensures slots { self.new.slots.now ≡ (if is_ok result then slice_set self.old.slots.now (length (records self.old)) item else self.old.slots.now) }
        ensures same { SameSlots self.old self.new }
    {
        if self.count >= self.room() {
            return Err(RollRefusal::Full);
        }
        self.slots[self.count] = item;
        self.count += 1;
        Ok(())
    }

    // Reads record i into a place that the caller lends, or leaves that as it was.
    pub fn read(&self, i: usize, into: &mut T) -> Result<(), RollRefusal>
        ensures value { is_ok result ≡ nat_lt i (length (records self.now)) }
        ensures refused { IfErr result (λ e. e ≡ NoRecord) }
        ensures after { into.new ≡ (if is_ok result then slice_index_or (records self.now) i into.old else into.old) }
    {
        *into = *self.as_slice().get(i).ok_or(RollRefusal::NoRecord)?;
        Ok(())
    }

    // The records as they lie in the caller's slots.
    pub fn as_slice(&self) -> &[T]
        ensures value { result.now ≡ records self.now }
        ensures bound { length result.now ≤ 4096 }
    {
        &self.slots[..self.count]
    }
}
