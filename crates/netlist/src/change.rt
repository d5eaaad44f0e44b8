use network::signal::Driver;

/// What a line does to a signal that it names.
// Names of changes, and no closures: a clause then says by one definition what each does.
#[derive(Clone, Copy)]
pub enum Change {
    Drive(Driver),
    Output,
    Capture,
}
