ghost use Rattle.std.specs.Prelude.{◌≡◌, ℕ};
ghost use Rattle.gauge.specs.Semirings.{Selects};

use crate::semiring::Semiring;

/// A semiring that turns a late and an early delay into a value.
pub trait Gauge: Semiring {
    ghost delays: { ℕ → ℕ → Self };

    fn from_delays(late: u32, early: u32) -> Self
        ensures { result ≡ delays late early };
}

/// A gauge whose sum is always one of its two arguments.
pub trait Selective: Gauge {
    ghost selects: { Selects Self.Semiring.ops };
}
