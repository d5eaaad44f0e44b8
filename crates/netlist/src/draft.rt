ghost use Rattle.std.specs.Prelude.{◌≡◌, ◌≤◌, vec_len};
ghost use Rattle.network.specs.Limit.{max_signals};
ghost use Rattle.network.specs.Turns.{count_of, HasRoom};

use network::signal::Signal;
use network::turns::Turns;

/// The signals of a netlist, and room for the turns that they will have.
#[derive(Drop)]
pub struct Draft {
    pub signals: Vec<Signal>,
    pub turns: Turns,
    ghost few: { vec_len signals ≤ max_signals },
    ghost unturned: { count_of turns ≡ 0 },
    ghost room: { HasRoom max_signals turns },
}
