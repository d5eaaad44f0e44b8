ghost use Rattle.std.specs.Prelude.{◌≡◌};
ghost use Rattle.replay.specs.Faults.{refusal_of};
ghost use Rattle.replay.specs.declared.faults.ReplayFault.TheVariants.{Netlist, Delays};

use delays::faults::DelayFault;
use fault::cause::Cause;
use fault::refusal::Refusal;
use netlist::netlist_fault::NetlistFault;

/// Why a session does not begin. What the netlist's reader and the opening said is kept whole.
#[derive(Clone, Copy, PartialEq, Eq, Debug)]
pub enum ReplayFault {
    /// there are fewer cells for outcomes than calls
    TooFewCells,
    Netlist(NetlistFault),
    Delays(DelayFault),
}

impl From<NetlistFault> for ReplayFault {
    ghost from_gives = { λ f r. r ≡ Netlist f };

    fn from(fault: NetlistFault) -> ReplayFault {
        ReplayFault::Netlist(fault)
    }
}

impl From<DelayFault> for ReplayFault {
    ghost from_gives = { λ f r. r ≡ Delays f };

    fn from(fault: DelayFault) -> ReplayFault {
        ReplayFault::Delays(fault)
    }
}

/// The fault as a refusal: its cause, and its place in the file that is refused.
impl From<ReplayFault> for Refusal {
    ghost from_gives = { λ f r. r ≡ refusal_of f };

    fn from(fault: ReplayFault) -> Refusal {
        match fault {
            ReplayFault::TooFewCells => Refusal {
                cause: Cause::TooShort,
                place: 0,
            },
            ReplayFault::Netlist(fault) => fault.into(),
            ReplayFault::Delays(fault) => fault.into(),
        }
    }
}
