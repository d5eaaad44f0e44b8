// Statements: each is judged, and then does what it says.
ghost use Rattle.std.specs.Prelude.{◌≡◌, ◌≤◌, None, nat_lt};
ghost use Rattle.text.specs.Words.{one_of, latch_types, initial_values};
ghost use Rattle.netlist.specs.Signals.{mention_all};
ghost use Rattle.netlist.specs.Statements.{inputs, outputs, model_of, gate_of, latch_of, end_of};
ghost use Rattle.netlist.specs.Faults.{at_start, in_body};
ghost use Rattle.netlist.specs.Views.{piece_on, pieces, signals_in};
ghost use Rattle.netlist.specs.Outcomes.{LatchWords, first_of, refusal, state_on, reading_on, name_faults, first_judged};

use crate::change::Change;
use crate::names::{check_names, has_dotted};
use crate::netlist_fault::NetlistFault;
use crate::spans::word_at;
use crate::stage::Stage;
use crate::state::State;
use fault::cause::Cause;
use network::gate::Gate;
use network::signal::{Driver, Latch};
use network::span::Span;
use text::fixed::{is_initial_value, is_latch_type};
use text::scan::check_name;

fn at_start(stage: Stage) -> bool
    ensures { result ≡ at_start stage }
{
    matches!(stage, Stage::Before)
}

fn in_body(stage: Stage) -> bool
    ensures { result ≡ in_body stage }
{
    matches!(stage, Stage::Body | Stage::Rows(_))
}

// Two tests, each under the name that the rule has for it: one that takes the test would say less.
fn is_kind(text: &[u8], word: Span) -> bool
    ensures { result ≡ one_of latch_types (piece_on text.now word).bytes }
{
    is_latch_type(word_at(text, word).text)
}

fn is_initial(text: &[u8], word: Span) -> bool
    ensures { result ≡ one_of initial_values (piece_on text.now word).bytes }
{
    is_initial_value(word_at(text, word).text)
}

// A latch's type and control or neither, and its initial value or none, if these words may follow its output.
fn latch_words(text: &[u8], rest: &[Span]) -> Option<(Option<(Span, Span)>, Option<Span>)>
    ensures { LatchWords text.now rest.now result }
{
    match rest {
        [] => Some((None, None)),
        [initial] => is_initial(text, *initial).then_some((None, Some(*initial))),
        [kind, control] => is_kind(text, *kind).then_some((Some((*kind, *control)), None)),
        [kind, control, initial] => (is_kind(text, *kind) && is_initial(text, *initial)).then_some((
            Some((*kind, *control)),
            Some(*initial),
        )),
        _ => None,
    }
}

// Text, place and words stay three parameters: each statement takes the words apart by a pattern, and would take a struct apart first.
impl State {
    // A line of the body with these names, and as many pins: it is judged up to a second driver, and the signals are mentioned.
    fn admit(
        &mut self,
        text: &[u8],
        at: usize,
        names: &[Span],
        pins: usize,
    ) -> Result<(), NetlistFault>
        ensures fault { refusal result ≡ first_of (name_faults (state_on text.now self.old) at (pieces text.now names.now) (nat_lt 4 pins)) }
        ensures done { refusal result ≡ None → signals_in text.now self.new.signals ≡ mention_all (signals_in text.now self.old.signals) (pieces text.now names.now) }
        ensures pins { refusal result ≡ None → pins ≤ 4 }
    {
        if !in_body(self.stage) || has_dotted(text, names) {
            return Err(NetlistFault::new(Cause::BadLine, at));
        }
        check_names(text, names)?;
        if pins > 4 {
            return Err(NetlistFault::new(Cause::TooManyPins, at));
        }
        self.signals.mention_all(text, names)
    }

    /// `.model`, with the words after it.
    pub fn read_model(&mut self, text: &[u8], at: usize, rest: &[Span]) -> Result<(), NetlistFault>
        ensures { reading_on text.now self.new result ≡ first_judged (state_on text.now self.old) at (model_of (pieces text.now rest.now)) }
    {
        let [name] = rest else {
            return Err(NetlistFault::new(Cause::BadLine, at));
        };
        if !at_start(self.stage) {
            return Err(NetlistFault::new(Cause::BadLine, at));
        }
        check_name(word_at(text, *name))?;
        self.stage = Stage::Body;
        Ok(())
    }

    /// `.inputs`, with the names after it.
    pub fn read_inputs(
        &mut self,
        text: &[u8],
        at: usize,
        names: &[Span],
    ) -> Result<(), NetlistFault>
        ensures { reading_on text.now self.new result ≡ first_judged (state_on text.now self.old) at (inputs (pieces text.now names.now)) }
    {
        self.admit(text, at, names, 0)?;
        self.signals.check_drivers(text, names)?;
        self.signals
            .change_each(text, names, Change::Drive(Driver::Input));
        self.stage = Stage::Body;
        Ok(())
    }

    /// `.outputs`, with the names after it.
    pub fn read_outputs(
        &mut self,
        text: &[u8],
        at: usize,
        names: &[Span],
    ) -> Result<(), NetlistFault>
        ensures { reading_on text.now self.new result ≡ first_judged (state_on text.now self.old) at (outputs (pieces text.now names.now)) }
    {
        self.admit(text, at, names, 0)?;
        self.signals.change_each(text, names, Change::Output);
        self.stage = Stage::Body;
        Ok(())
    }

    /// `.names`, with the pins and the output after it.
    pub fn read_gate(&mut self, text: &[u8], at: usize, names: &[Span]) -> Result<(), NetlistFault>
        ensures { reading_on text.now self.new result ≡ first_judged (state_on text.now self.old) at (gate_of (pieces text.now names.now)) }
    {
        let [pins @ .., output] = names else {
            return Err(NetlistFault::new(Cause::BadLine, at));
        };
        self.admit(text, at, names, pins.len())?;
        self.signals.check_drivers(text, &[*output])?;
        let number = self.signals.number_of(text, *output);
        let feeders = self.signals.pin_numbers(text, pins);
        let gate = Gate {
            pins: feeders,
            pin_count: pins.len() as u8,
            matched: 0,
            last_word: None,
        };
        self.signals
            .change_named(text, *output, Change::Drive(Driver::Gated(gate)));
        self.stage = Stage::Rows(number);
        Ok(())
    }

    /// `.latch`, with the words after it.
    pub fn read_latch(&mut self, text: &[u8], at: usize, rest: &[Span]) -> Result<(), NetlistFault>
        ensures { reading_on text.now self.new result ≡ first_judged (state_on text.now self.old) at (latch_of (pieces text.now rest.now)) }
    {
        let [input, output, others @ ..] = rest else {
            return Err(NetlistFault::new(Cause::BadLine, at));
        };
        let Some((trigger, initial)) = latch_words(text, others) else {
            return Err(NetlistFault::new(Cause::BadLine, at));
        };
        self.admit(text, at, &rest[0..2], 0)?;
        self.signals.check_drivers(text, &[*output])?;
        let latch = Latch {
            input: self.signals.number_of(text, *input) as u16,
            trigger,
            initial,
        };
        self.signals
            .change_named(text, *output, Change::Drive(Driver::Latched(latch)));
        self.signals.change_named(text, *input, Change::Capture);
        self.stage = Stage::Body;
        Ok(())
    }

    /// `.end`, with the words after it.
    pub fn read_end(&mut self, text: &[u8], at: usize, rest: &[Span]) -> Result<(), NetlistFault>
        ensures { reading_on text.now self.new result ≡ first_judged (state_on text.now self.old) at (end_of (pieces text.now rest.now)) }
    {
        let [] = rest else {
            return Err(NetlistFault::new(Cause::BadLine, at));
        };
        if !in_body(self.stage) {
            return Err(NetlistFault::new(Cause::BadLine, at));
        }
        self.stage = Stage::After;
        Ok(())
    }
}
