// The settings of a gate's pins that a row matches.
ghost use Rattle.std.specs.Prelude.{◌≡◌, ℕ, ◌<◌, max};
ghost use Rattle.rows.specs.Rows.{fits, matches};
ghost use Rattle.std.specs.Int.{bit_at};
ghost use Rattle.rows.specs.Settings.{one, Covers};

fn mark_fits(mark: u8, value: u32) -> bool
    requires { value < 2 }
    ensures { result ≡ fits mark value }
{
    mark == b'-' || u32::from(mark) == 48 + value
}

/// Whether the marks fit the setting, in which pin j weighs 2^j.
pub fn row_matches(marks: &[u8], setting: u32) -> bool
    ensures { result ≡ matches marks.now setting }
{
    // A loop: as a try_fold, `returns` stayed open.
    let mut rest = setting;
    for m in marks {
        if !mark_fits(*m, rest % 2) {
            return false;
        }
        rest /= 2;
    }
    true
}

/// The settings of four pins that the marks fit: bit s for setting s.
pub fn row_settings(marks: &[u8]) -> u16
    ensures { Covers marks.now result }
{
    (0..16u32).fold(0u16, |matched, s| {
        matched | u16::from(row_matches(marks, s)) << s
    })
}

/// The settings that were matched before, or that the marks fit.
pub fn with_settings(matched: u16, marks: &[u8]) -> u16
    ensures { (s : ℕ) → s < 16 → bit_at result s ≡ max (bit_at matched s) (one (matches marks.now s)) }
{
    matched | row_settings(marks)
}
