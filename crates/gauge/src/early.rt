ghost use Rattle.std.specs.Prelude.{◌≡◌};
ghost use Rattle.gauge.specs.Early.{early_ops, early_delays};
ghost use Rattle.gauge.specs.Times.{smaller};
ghost use Rattle.gauge.specs.TimesLemmas.{smaller_keeps};

use crate::arrivals::{Arrival, Rule};
use crate::gauges::Gauge;
use crate::semiring::Semiring;
use crate::time::Time;

/// Keeps the smaller time, and takes the early delay.
#[derive(Clone, Copy)]
pub struct Earliest;

/// The earliest arrival, or none.
pub type Early = Arrival<Earliest>;

impl Rule for Earliest {
    ghost keep = { smaller };

    ghost pick = { λ late early. early };

    ghost keeps = { smaller_keeps };

    fn keep(a: Time, b: Time) -> Time {
        a.min(b)
    }

    fn pick(_late: u32, early: u32) -> u32 {
        early
    }
}

/// Early keeps the smaller of two times, and its value of a pair of delays is the early one.
pub fn keeps_the_smaller()
    ensures ops { ⟦<Early as Semiring>⟧.ops ≡ early_ops }
    ensures delays { ⟦<Early as Gauge>⟧.delays ≡ early_delays }
{}
