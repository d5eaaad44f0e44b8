/// Four times in picoseconds: delays of a pin, or the start times of a source.
/// Rise and fall are the edge at the gate's output, or at the source.
#[derive(Clone, Copy, PartialEq, Eq, Debug, Default)]
pub struct Times {
    pub late_rise: u32,
    pub late_fall: u32,
    pub early_rise: u32,
    pub early_fall: u32,
}
