ghost use Rattle.std.specs.Prelude.{◌≡◌};
ghost use Rattle.gauge.specs.Late.{late_ops, late_delays};
ghost use Rattle.gauge.specs.Times.{larger};
ghost use Rattle.gauge.specs.TimesLemmas.{larger_keeps};

use crate::arrivals::{Arrival, Rule};
use crate::gauges::Gauge;
use crate::semiring::Semiring;
use crate::time::Time;

/// Keeps the larger time, and takes the late delay.
#[derive(Clone, Copy)]
pub struct Latest;

/// The latest arrival, or none.
pub type Late = Arrival<Latest>;

impl Rule for Latest {
    ghost keep = { larger };

    ghost pick = { λ late early. late };

    ghost keeps = { larger_keeps };

    fn keep(a: Time, b: Time) -> Time {
        a.max(b)
    }

    fn pick(late: u32, _early: u32) -> u32 {
        late
    }
}

/// Late keeps the larger of two times, and its value of a pair of delays is the late one.
pub fn keeps_the_larger()
    ensures ops { ⟦<Late as Semiring>⟧.ops ≡ late_ops }
    ensures delays { ⟦<Late as Gauge>⟧.delays ≡ late_delays }
{}
