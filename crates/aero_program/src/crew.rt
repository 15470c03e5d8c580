//! How many workers a run has.
ghost use Rattle.std.specs.Prelude.{◌≡◌, ◌<◌, ◌≤◌};
ghost use Rattle.aero_program.specs.Crews.{AskAlike, workers_on};

use crate::command::Config;
use std::thread;
use std::thread::Threads;

/// How many processors this program may run on, where that can be told.
pub fn processors<T: Threads>(rt: &T) -> Option<usize> {
    match thread::available_parallelism(rt) {
        Ok(count) => Some(count.get()),
        Err(_) => None,
    }
}

impl Config {
    /// The same with no more workers than there are processors, where it is known how many, and with one at least.
    pub fn within(self, processors: Option<usize>) -> Config
        ensures workers { result.workers ≡ workers_on processors self.workers }
        ensures alike { AskAlike result self }
    {
        let mut config = self;
        config.workers = workers_on(processors, config.workers);
        config
    }
}

// How many workers there are where so many are asked for.
fn workers_on(processors: Option<usize>, asked: u32) -> u32
    ensures workers { result ≡ workers_on processors asked }
    ensures some { 0 < asked → 0 < result }
    ensures most { result ≤ asked }
{
    match processors {
        Some(processors) => (asked as usize).min(processors.max(1)) as u32,
        None => asked,
    }
}
