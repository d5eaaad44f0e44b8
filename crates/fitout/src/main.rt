// Reads a netlist and a delay table, opens boards on them, and prints what they say, or why they are refused.
#![tactic(auto)]

mod arrivals;
mod boards;
mod show;

use arrivals::{show_arrivals, show_clock};
use boards::Boards;
use netlist::read::read;
use netlist::room::Room;
use show::{Printer, show_refusal};
use std::{env, fs};

fn main(rt: HostRuntime) -> anyhow::Result<()> {
    run(&rt)
}

fn run(rt: &HostRuntime) -> anyhow::Result<()> {
    let netlist = argument(rt, 1, "netlist.blif")?;
    let delays = argument(rt, 2, "delays.tlv")?;
    let mut network = match read(&netlist, Room::new(rt.alloc())?) {
        Ok(network) => network,
        Err(fault) => return Ok(show_refusal(rt, "NETLIST", fault.into())?),
    };
    Printer::new(rt, &netlist, &network).show_network()?;
    let mut boards = Boards::new(rt.alloc())?;
    match boards.open(&mut network, &delays) {
        Ok(opened) => {
            show_clock(rt, opened)?;
            show_arrivals(Printer::new(rt, &netlist, &network), &boards)?;
        }
        Err(fault) => show_refusal(rt, "DELAYS", fault.into())?,
    }
    Ok(())
}

/// The file that an argument names, or the one that it stands for when it is left out.
fn argument(rt: &HostRuntime, index: usize, file: &str) -> anyhow::Result<Vec<u8>> {
    let given = env::args(rt)?.nth(index);
    let path = given.as_deref().unwrap_or(file);
    Ok(fs::read(rt, path)?)
}
