// What a session holds.
ghost use Rattle.std.specs.Prelude.{◌*◌, ◌≤◌, vec_len};

use points::Entry;
use study::Study;

// A study in use, with the strip and the record that its calls are lent, and the text of them so far.
#[derive(Drop)]
pub(crate) struct Session<V, M> {
    pub(crate) study: Study<M>,
    // how many coordinates its map has, which a study does not tell
    pub(crate) dims: usize,
    pub(crate) strip: Vec<V>,
    pub(crate) log: Vec<Entry>,
    pub(crate) text: String,
    // the strip has room for a pair
    ghost roomy: { 4 * dims ≤ vec_len strip },
}
