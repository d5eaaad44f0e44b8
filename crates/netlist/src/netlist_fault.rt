ghost use Rattle.std.specs.Prelude.{◌≡◌};
ghost use Rattle.fault.specs.declared.cause.Cause.TheVariants.{Cycle};
ghost use Rattle.netlist.specs.Faults as faults;
ghost use Rattle.netlist.specs.declared.netlist_fault.NetlistFault.{NetlistFault};
ghost use Rattle.netlist.specs.Outcomes.{refusal_of};

use fault::cause::Cause;
use fault::refusal::Refusal;
use network::cyclic::Cyclic;
use text::word_fault::WordFault;

/// Why a netlist is refused. What is wrong with a word is kept whole.
#[derive(Clone, Copy, PartialEq, Eq, Debug)]
pub enum NetlistFault {
    OfWord(WordFault),
    /// a rule of netlists is broken
    OfNetlist(Refusal),
}

impl From<WordFault> for NetlistFault {
    ghost from_gives = { λ f r. r ≡ NetlistFault.OfWord f };

    fn from(fault: WordFault) -> NetlistFault {
        NetlistFault::OfWord(fault)
    }
}

/// A cycle is refused where its lowest signal is first named.
impl From<Cyclic> for NetlistFault {
    ghost from_gives = { λ c r. r ≡ NetlistFault.OfNetlist (faults.fault Cycle c.name.at) };

    fn from(cyclic: Cyclic) -> NetlistFault {
        NetlistFault::new(Cause::Cycle, cyclic.name.at)
    }
}

impl NetlistFault {
    pub fn new(cause: Cause, place: usize) -> NetlistFault
        ensures { result ≡ NetlistFault.OfNetlist (faults.fault cause place) }
    {
        NetlistFault::OfNetlist(Refusal { cause, place })
    }
}

/// The cause and the place, wherever the fault was found.
impl From<NetlistFault> for Refusal {
    ghost from_gives = { λ f r. r ≡ refusal_of f };

    fn from(fault: NetlistFault) -> Refusal {
        match fault {
            NetlistFault::OfWord(fault) => fault.into(),
            NetlistFault::OfNetlist(refusal) => refusal,
        }
    }
}
