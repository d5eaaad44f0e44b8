// Turns, which number signals from 0 without gaps.
ghost use Rattle.std.specs.Prelude.{◌≡◌, ◌≤◌, length};
ghost use Rattle.network.specs.Limit.{max_signals};
ghost use Rattle.network.specs.Wiring.{Inverse};

mod reads;
mod renumber;
mod start;
mod swap;

/// The turn of each signal, and the signal at each turn.
#[derive(Drop)]
pub struct Turns {
    turn_of: Vec<u16>,
    order: Vec<u16>,
    ghost few: { length turn_of.items ≤ max_signals },
    ghost long: { length order.items ≡ length turn_of.items },
    ghost numbered: { Inverse turn_of.items order.items (length turn_of.items) },
    ghost listed: { Inverse order.items turn_of.items (length turn_of.items) },
}
