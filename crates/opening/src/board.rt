ghost use Rattle.std.specs.Prelude.{◌≡◌};
ghost use Rattle.opening.specs.Boards.{view_of, is_short, room_in};

use fault::room_fault::RoomFault;
use network::network::Network;

/// Hands a board on to a call: takes it apart and puts it together again, under the same name, for that call.
// Handed on as it is, it gets no proof: the goal at the return speaks of `board-2-1.given`, which no promise of the callee names.
// A call at a block's end is not covered either, so its answer is bound first.
#[macro_export]
macro_rules! lend {
    ($board:ident => $call:expr) => {{
        let $crate::board::Board {
            network,
            starts,
            weights,
            values,
        } = $board;
        let $board = $crate::board::Board {
            network,
            starts,
            weights,
            values,
        };
        let answer = $call;
        answer
    }};
}

/// A network with three tables that the caller keeps: starts and values with a cell for each signal, and weights with cell 4 × signal + pin.
// Three tables, not one of triples: values are written while starts and weights are read.
#[derive(Drop)]
pub struct Board<'a, V> {
    pub network: &'a mut Network,
    pub starts: &'a mut [V],
    pub weights: &'a mut [V],
    pub values: &'a mut [V],
}

impl<V> Board<'_, V> {
    /// Whether a table has too few cells for the network.
    pub fn is_short(&self) -> bool
        ensures { result ≡ is_short (view_of self.now) }
    {
        let signals = self.network.size();
        self.starts.len() < signals
            || self.weights.len() < 4 * signals
            || self.values.len() < signals
    }

    /// Whether there is room for a call: the strip, if it is used, and the tables are judged first, then the waiting list's limit.
    pub fn check_room(&self, strip: Option<usize>, limit: usize) -> Result<(), RoomFault>
        ensures { result ≡ room_in (view_of self.now) strip limit }
    {
        let signals = self.network.size();
        if strip.is_some_and(|cells| cells < signals) || self.is_short() {
            return Err(RoomFault::TooShort);
        }
        if limit < signals {
            return Err(RoomFault::LowLimit);
        }
        Ok(())
    }
}
