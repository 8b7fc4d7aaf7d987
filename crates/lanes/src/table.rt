// The memory of lanes.
ghost use Rattle.std.specs.Prelude.{◌≤◌};
ghost use Rattle.arrayvec.specs.ArrayVec.{array_vec_len};
ghost use Rattle.lanes.specs.Slots.{AllPairs};

use crate::slot::Slot;
use arrayvec::ArrayVec;

// The queues of all pairs, at most 64 letters together, in the order of their arrival.
#[derive(Drop)]
pub struct Lanes {
    pub(crate) slots: ArrayVec<Slot, 64>,
    ghost few: { array_vec_len slots ≤ 64 },
    ghost pairs: { AllPairs slots.items },
}
