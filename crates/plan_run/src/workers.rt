//! How many workers share a scan.
ghost use Rattle.std.specs.Prelude.{◌≡◌, MatchOption};
ghost use Rattle.plan_run.specs.Workers.{AreWorkers};

use par_scan::MAX_WORKERS;

/// How many workers share a scan: 1 to 16.
#[derive(Clone, Copy, Debug)]
pub struct Workers {
    count: usize,
    ghost bounds: { AreWorkers count },
}

impl Workers {
    /// `count` workers, if there may be as many.
    pub fn new(count: usize) -> Option<Workers>
        ensures { MatchOption result (¬ AreWorkers count) (λ workers. workers.count ≡ count) }
    {
        if (1..=MAX_WORKERS).contains(&count) {
            Some(Workers { count })
        } else {
            None
        }
    }

    /// How many they are.
    pub fn count(self) -> usize
        ensures value { result ≡ self.count }
        ensures bounds { AreWorkers result }
    {
        self.count
    }
}
