// Judges a delay table against a network, and writes nothing.
ghost use Rattle.std.specs.Prelude.{◌≡◌, ◌+◌, ◌*◌, ◌<◌, Some, None, [], length, is_ok, if◌then◌else◌, IfSome};
ghost use Rattle.fields.specs.Lists.{rest};
ghost use Rattle.fields.specs.Says.{entry_of};
ghost use Rattle.delays.specs.Outlines.{Pin, Source, outline_of, has};
ghost use Rattle.delays.specs.Tables.{entry_fault, first_fault, unless, table_of};
ghost use Rattle.delays.specs.Marks.{cell_fault, with_cell, marks, marked_with};

use crate::faults::DelayFault;
use crate::marks::Named;
use crate::parts::{has_pin, has_source, is_too_early};
use fields::entry::{Clock, Entry};
use fields::faults::FieldFault;
use fields::field::too_long;
use fields::read::Fields;
use network::network::Network;
use weights::times::Times;

// The cell of a pin, where the network has the pin.
// Gate and pin stay two numbers, as the files give them; `weight_cell` stands in a crate above.
fn pin_cell(network: &Network, gate: u16, pin: u8) -> Option<usize>
    ensures { result ≡ (if has (outline_of network.now) (Pin gate pin) then Some (4 * gate + pin) else None) }
{
    let gate = usize::from(gate);
    let pin = usize::from(pin);
    has_pin(network, gate, pin).then_some(4 * gate + pin)
}

// The cell of a source, where the network has the source.
fn source_cell(network: &Network, source: u16) -> Option<usize>
    ensures { result ≡ (if has (outline_of network.now) (Source source) then Some source else None) }
{
    let source = usize::from(source);
    has_source(network, source).then_some(source)
}

// Marks the cell of a part, or refuses what names it.
fn check_part(
    cells: &mut [bool],
    cell: Option<usize>,
    times: Times,
    at: usize,
) -> Result<(), DelayFault>
    requires { IfSome cell (λ i. i < length cells.old) }
    ensures answers { result ≡ unless (cell_fault cells.old cell times at) tt }
    ensures marked { cells.new ≡ (if is_ok result then with_cell cells.old cell else cells.old) }
{
    let cell = cell.ok_or(DelayFault::NoSuchPart { at })?;
    if is_too_early(times) {
        return Err(DelayFault::EarlyAboveLate { at });
    }
    if cells[cell] {
        return Err(DelayFault::NamedTwice { at });
    }
    cells[cell] = true;
    Ok(())
}

// Marks what an entry behind the clock names, or refuses it.
fn check_entry(
    network: &Network,
    named: &mut Named,
    entry: Entry,
    at: usize,
) -> Result<(), DelayFault>
    ensures answers { result ≡ unless (entry_fault (outline_of network.now) (marks named.old) at entry) tt }
    ensures marked { named.new ≡ (if is_ok result then marked_with named.old entry else named.old) }
{
    match entry {
        Entry::Clock(_) => Err(DelayFault::Field(FieldFault::Misplaced { at })),
        Entry::Delay { gate, pin, times } => {
            check_part(&mut named.pins, pin_cell(network, gate, pin), times, at)
        }
        Entry::Start { source, times } => {
            check_part(&mut named.sources, source_cell(network, source), times, at)
        }
    }
}

// Judges the fields behind the clock.
fn check_fields(network: &Network, fields: Fields<'_, Entry>) -> Result<(), DelayFault>
    ensures { result ≡ unless (first_fault (outline_of network.now) [] (rest entry_of fields.entry)) tt }
{
    let mut named = Named::new();
    for field in fields {
        check_entry(network, &mut named, field.said?, field.at)?;
    }
    Ok(())
}

/// The table's clock, or the first fault from the front.
pub fn check(network: &Network, file: &[u8]) -> Result<Clock, DelayFault>
    ensures { result ≡ table_of (outline_of network.now) file.now }
{
    if too_long(file) {
        return Err(DelayFault::FileTooLong);
    }
    let mut fields = Fields::<Entry>::new(file);
    let first = fields.next().ok_or(DelayFault::Empty)?;
    let Entry::Clock(clock) = first.said? else {
        return Err(DelayFault::Field(FieldFault::Misplaced { at: first.at }));
    };
    check_fields(network, fields)?;
    Ok(clock)
}
