// A network from its signals.
ghost use Rattle.std.specs.Prelude.{◌≤◌, length};
ghost use Rattle.network.specs.Build.{Built};
ghost use Rattle.network.specs.Limit.{max_signals};
ghost use Rattle.network.specs.Turns.{HasRoom};
ghost use Rattle.network.specs.Wiring.{Driven, Wired, LatchesWired};

use crate::cyclic::Cyclic;
use crate::network::Network;
use crate::signal::Signal;
use crate::turns::Turns;
use crate::wires::Wires;

impl Network {
    /// The network of the signals, or the lowest signal on a cycle. What the turns were is gone.
    pub fn of_signals(signals: Vec<Signal>, mut turns: Turns) -> Result<Network, Cyclic>
        requires few { length signals.items ≤ max_signals }
        requires driven { Driven signals.items }
        requires wired { Wired signals.items }
        requires latched { LatchesWired signals.items }
        requires room { HasRoom (length signals.items) turns }
        ensures { Built signals.items result }
    {
        let wires = Wires { signals: &signals };
        wires.rank(&mut turns).map_err(|lowest| Cyclic {
            lowest,
            name: signals[lowest].name,
        })?;
        Ok(Network { signals, turns })
    }
}
