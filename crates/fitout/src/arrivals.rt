// Arrivals of every signal, on each gauge.
use crate::boards::{Boards, Tables};
use crate::show::Printer;
use fields::entry::Clock;
use gauge::edge::Edge;
use gauge::gauges::Gauge;
use opening::open::Opened;
use std::io;

pub fn show_clock(rt: &HostRuntime, opened: Opened) -> io::Result<()> {
    let Opened {
        clock: Clock {
            period,
            setup,
            hold,
        },
        count,
    } = opened;
    println!(rt; "OPENED PERIOD {period} SETUP {setup} HOLD {hold} WORKED {count}")
}

pub fn show_arrivals(printer: Printer<'_>, boards: &Boards) -> io::Result<()> {
    let rt = printer.rt;
    // By number, which names the signal in the network and in the tables alike.
    for signal in 0..printer.network.size() {
        let name = printer.name(signal);
        for edge in [Edge::Rise, Edge::Fall] {
            let late = arrival(&boards.late, signal, edge);
            let early = arrival(&boards.early, signal, edge);
            let paths = u32::from(arrival(&boards.count, signal, edge));
            println!(rt; "ARRIVAL {name} {edge} LATE {late} EARLY {early} COUNT {paths}")?;
        }
    }
    Ok(())
}

/// The arrival of a signal at an edge, as its cell says; zero past the table.
fn arrival<G: Gauge>(tables: &Tables<G>, signal: usize, edge: Edge) -> G {
    tables
        .values
        .get(signal)
        .map_or(G::zero(), |value| value.arrival(edge))
}
