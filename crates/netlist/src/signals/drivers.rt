// Signals by their drivers.
ghost use Rattle.std.specs.Prelude.{◌≡◌, ℕ, List, [], map};
ghost use Rattle.fault.specs.declared.cause.Cause.TheVariants as cause;
ghost use Rattle.network.specs.Wiring.{is_driven_of};
ghost use Rattle.netlist.specs.Faults.{has_driver, driven_twice, fault};
ghost use Rattle.netlist.specs.Reading.{undriven_at, all_driven};
ghost use Rattle.netlist.specs.Views.{piece_on, pieces, signals_in};
ghost use Rattle.netlist.specs.Outcomes.{first_of, refusal};
ghost use Rattle.netlist.specs.Verdicts.{closed_on};

use crate::names::is_among;
use crate::netlist_fault::NetlistFault;
use crate::signals::Signals;
use fault::cause::Cause;
use network::signal::Driver;
use network::span::Span;

fn is_driven(driver: Driver) -> bool
    ensures { result ≡ is_driven_of driver }
{
    !matches!(driver, Driver::Undriven)
}

impl Signals {
    fn has_driver(&self, text: &[u8], name: Span) -> bool
        ensures { result ≡ has_driver (signals_in text.now self.now) (piece_on text.now name).bytes }
    {
        self.position(text, name)
            .is_some_and(|number| is_driven(self.items[number].driver))
    }

    /// Refuses the first of the names that has a driver already, or stands among those before it.
    /// Only names of signals are asked for, so that after at most as many names as signals one repeats.
    pub(crate) fn check_drivers(&self, text: &[u8], names: &[Span]) -> Result<(), NetlistFault>
        ensures { refusal result ≡ first_of (map (fault cause.SecondDriver) (driven_twice (signals_in text.now self.now) [] (pieces text.now names.now))) }
    {
        for (i, w) in names.iter().enumerate() {
            if self.has_driver(text, *w) || is_among(text, &names[..i], *w) {
                return Err(NetlistFault::new(Cause::SecondDriver, w.at));
            }
        }
        Ok(())
    }

    /// Refuses the lowest signal without a driver.
    pub(crate) fn check_driven(&self) -> Result<(), NetlistFault>
        ensures { (t : List ℕ) → closed_on (signals_in t self.now) result ≡ all_driven (undriven_at (signals_in t self.now)) (signals_in t self.now) }
    {
        for s in &self.items {
            if !is_driven(s.driver) {
                return Err(NetlistFault::new(Cause::NoDriver, s.name.at));
            }
        }
        Ok(())
    }
}
