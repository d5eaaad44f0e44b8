// Signals by mention.
ghost use Rattle.std.specs.Prelude.{◌≡◌, map, None};
ghost use Rattle.fault.specs.declared.cause.Cause.TheVariants as cause;
ghost use Rattle.netlist.specs.Signals as spec;
ghost use Rattle.netlist.specs.Faults.{fault, too_many};
ghost use Rattle.netlist.specs.Views.{piece_on, pieces, signals_in};
ghost use Rattle.netlist.specs.Outcomes.{first_of, refusal};

use crate::netlist_fault::NetlistFault;
use crate::signals::Signals;
use fault::cause::Cause;
use network::limit::MAX_SIGNALS;
use network::signal::{Driver, Signal};
use network::span::Span;

impl Signals {
    // Mentions a name: a signal more if it is new, and refused if that is one too many.
    fn mention(&mut self, text: &[u8], name: Span) -> Result<(), NetlistFault>
        ensures fault { refusal result ≡ first_of (map (fault cause.TooManySignals) (too_many (spec.mention (signals_in text.now self.old) (piece_on text.now name)))) }
        ensures done { refusal result ≡ None → signals_in text.now self.new ≡ spec.mention (signals_in text.now self.old) (piece_on text.now name) }
    {
        if self.position(text, name).is_some() {
            return Ok(());
        }
        if self.items.len() >= MAX_SIGNALS {
            return Err(NetlistFault::new(Cause::TooManySignals, name.at));
        }
        self.items.push_reserved(Signal {
            name,
            driver: Driver::Undriven,
            output: false,
            captured: false,
        });
        Ok(())
    }

    /// Mentions each of the names, and refuses the first that is one signal too many.
    pub(crate) fn mention_all(&mut self, text: &[u8], names: &[Span]) -> Result<(), NetlistFault>
        ensures fault { refusal result ≡ first_of (map (fault cause.TooManySignals) (too_many (spec.mention_all (signals_in text.now self.old) (pieces text.now names.now)))) }
        ensures done { refusal result ≡ None → signals_in text.now self.new ≡ spec.mention_all (signals_in text.now self.old) (pieces text.now names.now) }
    {
        for w in names {
            self.mention(text, *w)?;
        }
        Ok(())
    }
}
