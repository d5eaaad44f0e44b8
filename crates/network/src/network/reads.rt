// What a network answers of its signals, for every number.
ghost use Rattle.std.specs.Prelude.{◌≡◌, ◌≤◌};
ghost use Rattle.std.specs.List.{slice_get};
ghost use Rattle.network.specs.Limit.{max_signals};
ghost use Rattle.network.specs.Net.{signals as signals_of, size as size_of, name_of, driver_of, is_output_of, is_captured_of, is_endpoint_of, is_source_of, fanin};

use crate::network::Network;
use crate::signal::{Driver, Signal};
use crate::span::Span;

impl Network {
    /// How many signals there are.
    pub fn size(&self) -> usize
        ensures is { result ≡ size_of self.now }
        ensures few { result ≤ max_signals }
    {
        self.signals.len()
    }

    /// The signal of a number.
    pub fn get(&self, signal: usize) -> Option<Signal>
        ensures { result ≡ slice_get (signals_of self.now) signal }
    {
        self.signals.get(signal).copied()
    }

    /// Where a signal's name is first mentioned.
    pub fn name(&self, signal: usize) -> Option<Span>
        ensures { result ≡ name_of self.now signal }
    {
        self.get(signal).map(|found| found.name)
    }

    /// What drives a signal.
    pub fn driver(&self, signal: usize) -> Option<Driver>
        ensures { result ≡ driver_of self.now signal }
    {
        self.get(signal).map(|found| found.driver)
    }

    /// Does a line of outputs name the signal?
    pub fn is_output(&self, signal: usize) -> bool
        ensures { result ≡ is_output_of self.now signal }
    {
        self.get(signal).is_some_and(|found| found.output)
    }

    /// Does a latch read the signal?
    pub fn is_captured(&self, signal: usize) -> bool
        ensures { result ≡ is_captured_of self.now signal }
    {
        self.get(signal).is_some_and(|found| found.captured)
    }

    /// Is the signal an output, or read by a latch?
    pub fn is_endpoint(&self, signal: usize) -> bool
        ensures { result ≡ is_endpoint_of self.now signal }
    {
        self.is_output(signal) || self.is_captured(signal)
    }

    /// Does an input or a latch drive the signal?
    pub fn is_source(&self, signal: usize) -> bool
        ensures { result ≡ is_source_of self.now signal }
    {
        matches!(
            self.driver(signal),
            Some(Driver::Input | Driver::Latched(_))
        )
    }

    /// How many pins the signal's gate has; 0 where no gate drives it.
    pub fn pin_count(&self, signal: usize) -> usize
        ensures is { result ≡ fanin self.now signal }
        ensures few { result ≤ 4 }
    {
        self.signals
            .get(signal)
            .map_or(0, |found| found.driver.pin_count())
    }
}
