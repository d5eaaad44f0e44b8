// Reads each netlist that it is given and prints its number of signals, or the refusal's number and place.
#![tactic(auto)]

use fault::refusal::Refusal;
use netlist::read::read;
use netlist::room::Room;
use std::{env, fs, io};

fn main(rt: HostRuntime) -> anyhow::Result<()> {
    for path in env::args(&rt)?.skip(1) {
        let text = fs::read(&rt, path.as_str())?;
        let room = Room::new(rt.alloc())?;
        show_case(&rt, path.as_str(), &text, room)?;
    }
    Ok(())
}

fn show_case(rt: &HostRuntime, path: &str, text: &[u8], room: Room) -> io::Result<()> {
    match read(text, room) {
        Ok(network) => {
            let size = network.size();
            println!(rt; "{path}: SIGNALS {size}")
        }
        Err(fault) => {
            let refusal = Refusal::from(fault);
            let number = refusal.number();
            let place = refusal.place;
            println!(rt; "{path}: REFUSED {number} {place}")
        }
    }
}
