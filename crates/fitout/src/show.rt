// A network in words.
use fault::refusal::Refusal;
use network::gate::Gate;
use network::limit::MAX_SIGNALS;
use network::network::Network;
use network::signal::{Driver, Latch};
use network::span::Span;
use std::{io, str};
use waiting::drain::drain_into;
use waiting::list::WaitingList;
use waiting::strip::BitStrip;

/// A refusal, with the file that is refused and the cause in words.
pub fn show_refusal(rt: &HostRuntime, file: &str, refusal: Refusal) -> io::Result<()> {
    let number = refusal.number();
    let place = refusal.place;
    let cause = refusal.cause;
    println!(rt; "REFUSED {number} {file} {place}: {cause}")
}

/// A network, with the text that it was read from, which spells its words, and the runtime to print to.
#[derive(Clone, Copy)]
pub struct Printer<'a> {
    pub rt: &'a HostRuntime,
    text: &'a [u8],
    pub network: &'a Network,
}

impl<'a> Printer<'a> {
    pub fn new(rt: &'a HostRuntime, text: &'a [u8], network: &'a Network) -> Printer<'a> {
        Printer { rt, text, network }
    }

    /// The signals by number with what drives them, and then their names by turn.
    pub fn show_network(self) -> io::Result<()> {
        let size = self.network.size();
        println!(self.rt; "SIGNALS {size}")?;
        // By number, which names the signal in the network.
        for signal in 0..size {
            self.show_signal(signal)?;
        }
        self.show_turns()
    }

    fn show_signal(self, signal: usize) -> io::Result<()> {
        let rt = self.rt;
        let name = self.name(signal);
        print!(rt; "SIGNAL {signal} {name}")?;
        if self.network.is_output(signal) {
            print!(rt; " OUTPUT")?;
        }
        if self.network.is_captured(signal) {
            print!(rt; " CAPTURED")?;
        }
        match self.network.driver(signal) {
            Some(Driver::Input) => println!(rt; " INPUT"),
            Some(Driver::Latched(latch)) => self.show_latch(latch),
            Some(Driver::Gated(gate)) => self.show_gate(gate),
            Some(Driver::Undriven) | None => println!(rt),
        }
    }

    fn show_latch(self, latch: Latch) -> io::Result<()> {
        let rt = self.rt;
        let input = self.name(usize::from(latch.input));
        print!(rt; " LATCH {input}")?;
        if let Some((kind, control)) = latch.trigger {
            let kind = self.word(kind);
            let control = self.word(control);
            print!(rt; " {kind} {control}")?;
        }
        if let Some(initial) = latch.initial {
            let initial = self.word(initial);
            print!(rt; " {initial}")?;
        }
        println!(rt)
    }

    fn show_gate(self, gate: Gate) -> io::Result<()> {
        let rt = self.rt;
        print!(rt; " GATE")?;
        for (pin, feeder) in gate.pins().iter().enumerate() {
            let name = self.name(usize::from(*feeder));
            let sense = gate.sense(pin);
            print!(rt; " {name} {sense}")?;
        }
        println!(rt)
    }

    /// The turns, put on a bit strip by signal and taken off from the least on.
    fn show_turns(self) -> io::Result<()> {
        let rt = self.rt;
        let mut strip = BitStrip::new();
        // By number, which names the signal in the network.
        for signal in 0..self.network.size() {
            if let Some(turn) = self.network.get_turn(signal) {
                let _ = strip.put(turn);
            }
        }
        let mut turns = [0; MAX_SIGNALS];
        let count = drain_into(&mut strip, &mut turns);
        print!(rt; "TURNS")?;
        for turn in turns.iter().take(count) {
            if let Some(signal) = self.network.get_signal_at(*turn) {
                let name = self.name(signal);
                print!(rt; " {name}")?;
            }
        }
        println!(rt)
    }

    /// The name of a signal, or nothing where there is no such signal.
    pub fn name(self, signal: usize) -> &'a str {
        self.network.name(signal).map_or("", |name| self.word(name))
    }

    /// A word of the text.
    fn word(self, span: Span) -> &'a str {
        str::from_utf8(span.of(self.text)).unwrap_or_default()
    }
}
