ghost use Rattle.std.specs.Prelude.{◌≡◌};
ghost use Rattle.gauge.specs.Count.{count_ops, count_delays};
ghost use Rattle.gauge.specs.Counts.{count_laws};

use crate::count::Count;
use crate::gauges::Gauge;
use crate::semiring::Semiring;

impl From<Count> for u32 {
    ghost from_gives = { λ c n. n ≡ c.paths };

    fn from(count: Count) -> u32 {
        count.paths
    }
}

impl Semiring for Count {
    ghost ops = { count_ops };

    ghost laws = { count_laws };

    fn zero() -> Count {
        Count { paths: 0 }
    }

    fn one() -> Count {
        Count { paths: 1 }
    }

    fn plus(self, other: Count) -> Count {
        Count {
            paths: self.paths.wrapping_add(other.paths),
        }
    }

    fn times(self, other: Count) -> Count {
        Count {
            paths: self.paths.wrapping_mul(other.paths),
        }
    }

    fn same(self, other: Count) -> bool {
        self == other
    }
}

impl Gauge for Count {
    ghost delays = { count_delays };

    fn from_delays(_late: u32, _early: u32) -> Count {
        Count { paths: 1 }
    }
}
