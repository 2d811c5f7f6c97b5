// A panel's jobs, highest priority first, and the ticks in which their times count.
ghost use Rattle.std.specs.Prelude.{◌≡◌, ◌≤◌, vec_len};
ghost use Rattle.maps.specs.JobRanges.{longest};

use crate::jobs::job::Job;
use chains::Ticks;

#[derive(Drop)]
pub struct Jobs {
    pub(super) ticks: Ticks,
    pub(super) jobs: Vec<Job>,
    ghost some: { 1 ≤ vec_len jobs },
    ghost most: { vec_len jobs ≤ 8 },
    ghost sized: { ticks.size ≡ longest jobs.items },
}
