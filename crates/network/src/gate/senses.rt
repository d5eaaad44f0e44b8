// How a pin moves its gate.
ghost use Rattle.std.specs.Prelude.{◌≡◌, ◌^◌, ◌<◌, ◌≤◌};
ghost use Rattle.network.specs.Senses.{steps_to, moved_in, moves as moved, raises as raised, lowers as lowered, sense_of};

use crate::gate::Gate;
use crate::gate::truth::has_bit;
use crate::sense::Sense;

// Is it a step to `to` from the other value?
fn goes_to(to: bool, before: bool, after: bool) -> bool
    ensures { result ≡ steps_to to before after }
{
    before != after && after == to
}

// What the pin weighs in a setting's number.
fn weight(pin: usize) -> usize
    requires { pin ≤ 4 }
    ensures is { result ≡ 2 ^ pin }
    ensures few { result ≤ 16 }
{
    1 << pin
}

impl Gate {
    // How many settings the pins have.
    fn settings(&self) -> usize
        ensures is { result ≡ 2 ^ self.now.pin_count }
        ensures few { result ≤ 16 }
    {
        weight(usize::from(self.pin_count))
    }

    // In a setting where the pin is 0, does switching it to 1 take the gate to `to`?
    fn moves_in(&self, pin: usize, to: bool, setting: usize) -> bool
        requires pin { pin < 4 }
        requires setting { setting < 16 }
        ensures { result ≡ moved_in self.now pin to setting }
    {
        let switched = setting + weight(pin);
        !has_bit(setting, pin) && goes_to(to, self.value(setting), self.value(switched))
    }

    // Does it do so for some setting of the others?
    fn moves(&self, pin: usize, to: bool) -> bool
        ensures { result ≡ moved self.now pin to }
    {
        pin < usize::from(self.pin_count)
            && (0..self.settings()).any(|setting| self.moves_in(pin, to, setting))
    }

    /// For some setting of the others, switching the pin from 0 to 1 takes the gate from 0 to 1.
    pub fn raises(&self, pin: usize) -> bool
        ensures { result ≡ raised self.now pin }
    {
        self.moves(pin, true)
    }

    /// For some setting of the others, switching the pin from 0 to 1 takes the gate from 1 to 0.
    pub fn lowers(&self, pin: usize) -> bool
        ensures { result ≡ lowered self.now pin }
    {
        self.moves(pin, false)
    }

    /// Whether the pin raises, lowers, does both or neither.
    pub fn sense(&self, pin: usize) -> Sense
        ensures { result ≡ sense_of (raised self.now pin) (lowered self.now pin) }
    {
        match (self.raises(pin), self.lowers(pin)) {
            (true, true) => Sense::Both,
            (true, false) => Sense::Positive,
            (false, true) => Sense::Negative,
            (false, false) => Sense::Neither,
        }
    }
}
