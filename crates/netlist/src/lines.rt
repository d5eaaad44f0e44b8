// A line: its words judged as a statement.
ghost use Rattle.std.specs.Prelude.{◌≡◌, ◌+◌, ◌-◌, ◌≤◌, not, length, take, drop};
ghost use Rattle.std.specs.List.{prefix_len};
ghost use Rattle.text.specs.Text.{piece, newline};
ghost use Rattle.netlist.specs.Statements.{command_of};
ghost use Rattle.fault.specs.Limit.{max_bytes};
ghost use Rattle.netlist.specs.Reading as reading;
ghost use Rattle.netlist.specs.Views.{pieces};
ghost use Rattle.netlist.specs.Outcomes.{state_on, reading_on, first_judged, words_judged};

use crate::line_words::LineWords;
use crate::netlist_fault::NetlistFault;
use crate::spans::word_at;
use crate::state::State;
use fault::cause::Cause;
use network::span::Span;
use text::scan::check_bytes;
use text::word::{Command, Token};

impl State {
    // A command at the place `at`, with the words after it.
    fn read_command(
        &mut self,
        text: &[u8],
        at: usize,
        command: Command,
        rest: &[Span],
    ) -> Result<(), NetlistFault>
        ensures { reading_on text.now self.new result ≡ first_judged (state_on text.now self.old) at (command_of command (pieces text.now rest.now)) }
    {
        match command {
            Command::Model => self.read_model(text, at, rest),
            Command::Inputs => self.read_inputs(text, at, rest),
            Command::Outputs => self.read_outputs(text, at, rest),
            Command::Names => self.read_gate(text, at, rest),
            Command::Latch => self.read_latch(text, at, rest),
            Command::End => self.read_end(text, at, rest),
        }
    }

    // The words of a line, of which there may be none.
    fn read_words(&mut self, text: &[u8], words: &[Span]) -> Result<(), NetlistFault>
        ensures { reading_on text.now self.new result ≡ words_judged (state_on text.now self.old) (pieces text.now words.now) }
    {
        let [first, rest @ ..] = words else {
            return Ok(());
        };
        match Token::from(word_at(text, *first)) {
            Token::Keyword(command, word) => self.read_command(text, word.at, command, rest),
            Token::Dotted(word) => Err(NetlistFault::new(Cause::BadLine, word.at)),
            Token::Plain(word) => self.read_row(text, word, rest),
        }
    }

    /// Reads the line from `from` to `end`, with room for its words.
    // That the text fits stays a clause: a type for such texts would be taken apart at every other call.
    pub fn read_line(
        &mut self,
        text: &[u8],
        from: usize,
        end: usize,
        words: &mut LineWords,
    ) -> Result<(), NetlistFault>
        requires fits { length text.now ≤ max_bytes }
        requires ends { end ≡ from + prefix_len (λ b. not (newline b)) (drop from text.now) }
        ensures { reading_on text.now self.new result ≡ reading.step (state_on text.now self.old) (piece from (take (end - from) (drop from text.now))) }
    {
        check_bytes(text, from, end)?;
        words.fill(text, from);
        self.read_words(text, words.as_slice())
    }
}
