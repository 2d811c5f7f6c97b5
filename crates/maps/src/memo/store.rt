// A map with the answers that it has given, at most 64 of them.
ghost use Rattle.std.specs.Prelude.{◌≤◌};
ghost use Rattle.arrayvec.specs.ArrayVec.{array_vec_len};

use arrayvec::ArrayVec;
use points::Entry;

#[derive(Drop)]
pub struct Memo<M> {
    pub(super) map: M,
    pub(super) entries: ArrayVec<Entry, 64>,
    ghost most: { array_vec_len entries ≤ 64 },
}
