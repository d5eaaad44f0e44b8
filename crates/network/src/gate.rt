ghost use Rattle.std.specs.Prelude.{◌≡◌, ◌≤◌, length, take};

mod senses;
mod truth;

/// A gate: the signals at its pins, and its rows.
#[derive(Clone, Copy)]
pub struct Gate {
    // an array with a count: a gate is copied, and memory is asked for once alone
    pub pins: [u16; 4],
    pub pin_count: u8,
    /// bit s: some row matches setting s, in which pin j weighs 2^j
    pub matched: u16,
    /// the rows' last word, 1 being true; none without rows
    pub last_word: Option<bool>,
    ghost few: { pin_count ≤ 4 },
    ghost wide: { 4 ≤ length pins },
}

impl Gate {
    /// The signals at its pins.
    pub fn pins(&self) -> &[u16]
        ensures { result.now ≡ take self.now.pin_count self.now.pins }
    {
        &self.pins[..usize::from(self.pin_count)]
    }
}
