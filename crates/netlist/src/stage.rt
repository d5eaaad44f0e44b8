/// How far the lines of a netlist have come.
#[derive(Clone, Copy)]
pub enum Stage {
    /// before `.model`
    Before,
    Body,
    /// rows of the gate that drives this signal may follow
    Rows(usize),
    /// after `.end`
    After,
}
