// One job of a panel.
ghost use Rattle.std.specs.Prelude.{◌≤◌};

// How a job holds the shared lock.
#[derive(Clone, Copy, PartialEq, Eq, Debug)]
pub enum Lock {
    // `-`: it takes no lock
    Free,
    // `h`: whoever holds the lock inherits the priority of whoever waits for it
    Inherit,
    // `p`: a plain lock, so that a waiting job may wait for the holder's whole response
    Plain,
}

// A job that is released every `period` ticks, runs for `run` ticks, has to be done within `limit` ticks of its release, and
// holds the lock for `hold` of its ticks.
#[derive(Clone, Copy, Debug)]
pub struct Job {
    pub run: u32,
    pub period: u32,
    pub limit: u32,
    pub hold: u32,
    pub lock: Lock,
    ghost run_some: { 1 ≤ run },
    ghost run_most: { run ≤ 1000000 },
    ghost period_some: { 1 ≤ period },
    ghost period_most: { period ≤ 1000000 },
    ghost limit_some: { 1 ≤ limit },
    ghost limit_most: { limit ≤ period },
    ghost hold_most: { hold ≤ run },
}
