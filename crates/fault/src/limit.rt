/// How many bytes a file may have: a netlist, a delay table or a script.
pub const MAX_BYTES: usize = 32_768;
