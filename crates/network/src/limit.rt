// How many signals a network may have.
ghost use Rattle.std.specs.Prelude.{◌≡◌};
ghost use Rattle.network.specs.Limit.{max_signals};

pub const MAX_SIGNALS: usize = 255;

/// The limit that the rules set.
pub fn signal_limit() -> usize
    ensures { result ≡ max_signals }
{
    MAX_SIGNALS
}
