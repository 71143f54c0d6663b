//! Watchers, which look at a job between its cycles.

use rpg_cycle::{Job, JobEnd};
use rpg_store::Store;

/// Looks at a job between its cycles. It only reads the job, so the run is the same whatever it does.
pub trait Watcher {
    /// Holds of a watcher that has seen a job begin. No other call gives it, so a call that ensures it showed the job to that watcher.
    ghost has_begun: { Self → Type 0 };

    /// Whether it looks at the job after each cycle. If so, output isn't buffered from one cycle to the next.
    fn looks(&self) -> bool;

    /// Looks at a job before its first cycle.
    fn begin<S: Store + Drop>(&mut self, job: &Job<'_, S>)
        ensures { has_begun self.new };

    /// Looks at a job after a cycle, before its output is sent. `ended` is how the job ended, if it did.
    fn look<S: Store + Drop>(&mut self, job: &Job<'_, S>, ended: Option<JobEnd>)
        requires { has_begun self.old }
        ensures { has_begun self.new };
}

/// A watcher that looks at nothing.
#[derive(Clone, Copy)]
pub struct Unwatched;

impl Watcher for Unwatched {
    ghost has_begun = { λ _. Unit {0} };

    fn looks(&self) -> bool {
        false
    }

    fn begin<S: Store + Drop>(&mut self, _job: &Job<'_, S>) {}

    fn look<S: Store + Drop>(&mut self, _job: &Job<'_, S>, _ended: Option<JobEnd>) {}
}
