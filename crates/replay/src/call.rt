use book::script_fault::ScriptFault;
use fields::edit::Edit;

/// A call on a board: one of the four edits, or a script's bytes.
#[derive(Clone, Copy)]
pub enum Call<'a> {
    Edit(Edit),
    Script(&'a [u8]),
}

/// What a call answers: how many signals it worked, or why it was refused.
pub type Outcome = Result<usize, ScriptFault>;
