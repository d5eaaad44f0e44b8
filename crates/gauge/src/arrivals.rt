ghost use Rattle.std.specs.Prelude.{◌≡◌, ℕ, Some, refl};
ghost use Rattle.gauge.specs.Arrivals.{chosen, passed, text_of, arrivals, arrival, arrival_ops, arrival_delays};
ghost use Rattle.gauge.specs.Times.{time};
ghost use Rattle.gauge.specs.Choosing.{arrivals_laws, arrivals_select};
ghost use Rattle.gauge.specs.Carried.{carried_laws, carried_selects};
ghost use Rattle.gauge.specs.TimesLemmas.{Keeps};

use crate::gauges::{Gauge, Selective};
use crate::semiring::Semiring;
use crate::time::Time;
use std::fmt;
use std::marker::PhantomData;

/// Which of two times a sum keeps, and which of a late and an early delay counts.
pub trait Rule: Copy {
    ghost use Rattle.gauge.specs.declared.time.Time.{Time};

    ghost keep: { Time → Time → Time };

    ghost pick: { ℕ → ℕ → ℕ };

    fn keep(a: Time, b: Time) -> Time
        ensures { result ≡ keep a b };

    fn pick(late: u32, early: u32) -> u32
        ensures { result ≡ pick late early };

    ghost keeps: { Keeps keep };
}

/// The arrival that a rule keeps: a time, or none where no path arrives.
#[derive(Clone, Copy)]
pub struct Arrival<R> {
    pub arrival: Option<Time>,
    pub rule: PhantomData<R>,
}

impl<R> From<Option<Time>> for Arrival<R> {
    ghost from_gives = { λ o a. a ≡ arrival o };

    fn from(arrival: Option<Time>) -> Arrival<R> {
        let rule = PhantomData;
        Arrival { arrival, rule }
    }
}

impl<R: Rule> Semiring for Arrival<R> {
    ghost ops = { arrival_ops R.keep };

    ghost laws = { carried_laws arrival (λ x. x.arrival) (arrivals R.keep) (λ x. refl) (λ v. refl) (arrivals_laws R.keeps) };

    fn zero() -> Arrival<R> {
        Arrival::from(None)
    }

    fn one() -> Arrival<R> {
        Arrival::from(at(0))
    }

    fn plus(self, other: Arrival<R>) -> Arrival<R> {
        Arrival::from(kept::<R>(self.arrival, other.arrival))
    }

    fn times(self, other: Arrival<R>) -> Arrival<R> {
        Arrival::from(delayed(self.arrival, other.arrival))
    }

    fn same(self, other: Arrival<R>) -> bool {
        self.arrival == other.arrival
    }
}

impl<R: Rule> Gauge for Arrival<R> {
    ghost delays = { arrival_delays R.pick };

    fn from_delays(late: u32, early: u32) -> Arrival<R> {
        Arrival::from(at(R::pick(late, early)))
    }
}

impl<R: Rule> Selective for Arrival<R> {
    ghost selects = { carried_selects arrival (λ x. x.arrival) (arrivals R.keep) (λ x. refl) (λ v. refl) (arrivals_select R.keeps) };
}

impl<R> fmt::Display for Arrival<R> {
    ghost output = { λ a. Some (text_of a.arrival) };

    fn fmt<W: fmt::Write>(&self, f: &mut fmt::Formatter<W>) -> fmt::Result {
        match self.arrival {
            Some(time) => write!(f, "{time}"),
            None => f.write_str("NONE"),
        }
    }
}

/// The arrival at a time.
pub fn at(picoseconds: u32) -> Option<Time>
    ensures { result ≡ Some (time picoseconds) }
{
    Some(Time::from(picoseconds))
}

/// The one of two arrivals that the rule keeps; none gives way.
pub fn kept<R: Rule>(a: Option<Time>, b: Option<Time>) -> Option<Time>
    ensures { result ≡ chosen R.keep a b }
{
    let Some(x) = a else {
        return b;
    };
    let Some(y) = b else {
        return a;
    };
    Some(R::keep(x, y))
}

/// An arrival passed on with a delay; none if either is none.
pub fn delayed(a: Option<Time>, b: Option<Time>) -> Option<Time>
    ensures { result ≡ passed a b }
{
    let x = a?;
    let y = b?;
    Some(x.saturating_add(y))
}
