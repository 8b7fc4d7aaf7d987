// The memory of a tray.
ghost use Rattle.std.specs.Prelude.{◌≤◌};
ghost use Rattle.arrayvec.specs.ArrayVec.{array_vec_len};

use arrayvec::ArrayVec;
use bag::Stamped;

// At most 32 stamped letters.
#[derive(Drop)]
pub struct Tray {
    pub(crate) items: ArrayVec<Stamped, 32>,
    ghost few: { array_vec_len items ≤ 32 },
}
