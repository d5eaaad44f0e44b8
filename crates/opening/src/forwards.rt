// A network read forwards: the taps into a signal are its pins, in order.
ghost use Rattle.opening.specs.Forwards.{shape_of, sound_of, few_of};

use network::network::Network;
use settling::tap::Tap;
use settling::wiring::Wiring;

/// A network for which each wire goes from its signal to the gate's output.
#[derive(Clone, Copy)]
pub struct Forwards<'a> {
    pub network: &'a Network,
}

impl Wiring for Forwards<'_> {
    ghost shape = { shape_of };

    ghost sound = { sound_of };

    ghost few = { few_of };

    fn signal_count(&self) -> usize {
        self.network.size()
    }

    fn turn(&self, signal: usize) -> u16 {
        self.network.turn(signal)
    }

    fn signal_at(&self, turn: u16) -> usize {
        self.network.signal_at(turn)
    }

    fn tap_count(&self, signal: usize) -> usize {
        self.network.pin_count(signal)
    }

    // 4 × signal + pin by hand: `weight_cell` takes a file's narrow numbers, so that it can't overflow.
    fn tap(&self, signal: usize, place: usize) -> Tap {
        Tap {
            from: self.network.feeder(signal, place),
            cell: 4 * signal + place,
        }
    }
}
