// Reading a netlist.
ghost use Rattle.std.specs.Prelude.{◌≡◌, ◌≤◌, length, IfOk, fold};
ghost use Rattle.network.specs.Wiring.{Driven, Wired, LatchesWired};
ghost use Rattle.text.specs.Text.{lines};
ghost use Rattle.fault.specs.Limit.{max_bytes};
ghost use Rattle.netlist.specs.Reading as reading;
ghost use Rattle.netlist.specs.Reading.{step_on, ongoing, closing};
ghost use Rattle.netlist.specs.Views.{signals_in};
ghost use Rattle.netlist.specs.Outcomes.{state_on, reading_on};
ghost use Rattle.netlist.specs.Verdicts.{closed_on, verdict_on};

use crate::draft::Draft;
use crate::line_words::LineWords;
use crate::netlist_fault::NetlistFault;
use crate::room::Room;
use crate::stage::Stage;
use crate::state::State;
use fault::cause::Cause;
use fault::limit::MAX_BYTES;
use text::scan::line_end;

impl State {
    // Reads all lines.
    fn read_lines(&mut self, text: &[u8], words: &mut LineWords) -> Result<(), NetlistFault>
        requires { length text.now ≤ max_bytes }
        ensures { reading_on text.now self.new result ≡ fold step_on (ongoing (state_on text.now self.old)) (lines 0 text.now) }
    {
        // By places, since they are what a refusal names; an iterator of lines would serve this loop alone.
        let mut from = 0;
        while from <= text.len() {
            let end = line_end(text, from);
            self.read_line(text, from, end, words)?;
            from = end + 1;
        }
        Ok(())
    }

    // The end of the text.
    fn check_end(&self, text: &[u8]) -> Result<(), NetlistFault>
        ensures { closed_on (signals_in text.now self.now.signals) result ≡ closing (length text.now) self.now.stage (signals_in text.now self.now.signals) }
    {
        match self.stage {
            Stage::After => self.signals.check_driven(),
            Stage::Before | Stage::Body | Stage::Rows(_) => {
                Err(NetlistFault::new(Cause::BadLine, text.len()))
            }
        }
    }
}

/// The signals of the netlist, or its refusal.
pub fn read_signals(text: &[u8], room: Room) -> Result<Draft, NetlistFault>
    ensures is { verdict_on text.now result ≡ reading.read text.now }
    ensures driven { IfOk result (λ d. Driven d.signals.items) }
    ensures wired { IfOk result (λ d. Wired d.signals.items) }
    ensures latched { IfOk result (λ d. LatchesWired d.signals.items) }
{
    if text.len() > MAX_BYTES {
        return Err(NetlistFault::new(Cause::FileTooLong, MAX_BYTES));
    }
    let Room {
        mut signals,
        mut words,
        turns,
    } = room;
    signals.clear();
    let mut state = State {
        stage: Stage::Before,
        signals,
    };
    state.read_lines(text, &mut words)?;
    state.check_end(text)?;
    let State { signals, .. } = state;
    Ok(Draft {
        signals: signals.into_inner(),
        turns,
    })
}
