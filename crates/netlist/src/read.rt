// Reading a netlist, from its text to its network.
ghost use Rattle.netlist.specs.Cycles.{Means, network_on, MeansOne};

use crate::netlist_fault::NetlistFault;
use crate::reader::read_signals;
use crate::room::Room;
use network::network::Network;

/// The network that a text describes, or why the text is refused.
pub fn read(text: &[u8], room: Room) -> Result<Network, NetlistFault>
    ensures { Means text.now (network_on text.now result) }
{
    let draft = read_signals(text, room)?;
    Ok(Network::of_signals(draft.signals, draft.turns)?)
}

/// A text means one thing, so no other answer would do.
pub fn means_one()
    ensures { MeansOne }
{}
