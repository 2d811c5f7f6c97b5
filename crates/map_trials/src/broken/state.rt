// What a broken map holds.
ghost use Rattle.std.specs.Prelude.{◌≤◌};

use chains::Grades;

#[derive(Drop)]
pub struct Broken {
    pub(super) grades: Grades,
    // the depth of its faults
    pub(super) depth: u8,
    ghost most: { depth ≤ 255 },
}
