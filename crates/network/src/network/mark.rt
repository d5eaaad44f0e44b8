// Marks on what a gate reaches.
// Network and strip stay two parameters: marking reads the network, and `connect` then changes it, so no struct holds both.
ghost use Rattle.std.specs.Prelude.{◌≡◌, ◌+◌, ◌<◌, ◌≤◌, length};
ghost use Rattle.std.specs.List.{list_any};
ghost use Rattle.network.specs.Marks.{marked, MarkedBelow, MarksReached};
ghost use Rattle.network.specs.Net.{signals, size};
ghost use Rattle.network.specs.Wiring.{feeders};

use crate::network::Network;

// Does a pin of the signal read a marked one?
fn reads_marked(net: &Network, strip: &[u8], signal: usize) -> bool
    requires { size net.now ≤ length strip.now }
    ensures { result ≡ list_any (marked strip.now) (feeders (signals net.now) signal) }
{
    net.feeders(signal)
        .iter()
        .any(|feeder| strip[usize::from(*feeder)] != 0)
}

// Marks the signal of a turn if it is the gate or reads a marked one.
fn mark_turn(net: &Network, gate: usize, turn: u16, strip: &mut [u8])
    requires here { turn < size net.now }
    requires fits { size net.now ≤ length strip.old }
    requires before { MarkedBelow net.now gate turn strip.old }
    ensures { MarkedBelow net.now gate (turn + 1) strip.new }
{
    let signal = net.signal_at(turn);
    if signal == gate || reads_marked(net, strip, signal) {
        strip[signal] = 1;
    }
}

// Bytes, and any but 0 a mark: callers lend the strip, and a strip of bool would be a tighter type for them.
/// Marks the gate and every signal that it reaches, taking the signals by turn. What the strip held before is gone.
pub fn mark_reached(net: &Network, gate: usize, strip: &mut [u8])
    requires { size net.now ≤ length strip.old }
    ensures { MarksReached net.now gate strip.new }
{
    strip.fill(0);
    // By turn, which is what is marked up to: no list is indexed.
    for turn in 0..net.size() as u16 {
        mark_turn(net, gate, turn, strip);
    }
}
