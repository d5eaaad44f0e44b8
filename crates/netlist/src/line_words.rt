// The words of a line.
ghost use Rattle.std.specs.Prelude.{◌≡◌, ◌≤◌, [], length, drop, IfOk, vec_capacity};
ghost use Rattle.text.specs.Text.{words};
ghost use Rattle.fault.specs.Limit.{max_bytes};
ghost use Rattle.netlist.specs.Views.{pieces};

use fault::limit::MAX_BYTES;
use network::span::Span;
use std::alloc::{AllocError, Global};
use text::scan::next_word;

/// The words of a line, with room for as many as a text may have.
#[derive(Drop)]
pub struct LineWords {
    items: Vec<Span>,
    ghost room: { max_bytes ≤ vec_capacity items },
}

impl LineWords {
    pub fn new(heap: Global) -> Result<LineWords, AllocError>
        ensures { IfOk result (λ w. w.items.items ≡ []) }
    {
        let items = Vec::with_capacity(heap, MAX_BYTES)?;
        Ok(LineWords { items })
    }

    /// Takes the words from `from` to the end of the line or a comment.
    pub fn fill(&mut self, text: &[u8], from: usize)
        requires { length text.now ≤ max_bytes }
        ensures { pieces text.now self.new.items.items ≡ words from (drop from text.now) }
    {
        self.items.clear();
        // Each word tells where the next search begins; an iterator of words would serve this loop alone.
        let mut at = from;
        while let Some(word) = next_word(text, at) {
            at = word.at + word.text.len();
            self.items.push_reserved(Span {
                at: word.at,
                len: word.text.len(),
            });
        }
    }

    pub fn as_slice(&self) -> &[Span]
        ensures { result.now ≡ self.now.items.items }
    {
        &self.items
    }
}
