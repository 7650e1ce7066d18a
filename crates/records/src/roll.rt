// A roll keeps records in slots of the caller.
ghost use Rattle.std.specs.Prelude.{◌≤◌, length};

// The most slots that a roll uses.
pub const MOST_SLOTS: usize = 4096;

// A roll over slots of the caller: the first `count` of them hold its records. The slots are lent, since nothing is allocated.
#[derive(Drop)]
pub struct Roll<'a, T: Copy> {
    slots: &'a mut [T],
    count: usize,
    ghost few: { count ≤ 4096 },
    ghost within: { count ≤ length slots.now },
}

mod steps;
