//! The names of terminals, shipments and arcs' ends in lines that are written.
ghost use Rattle.std.specs.Prelude.{◌≡◌, ◌<◌, length, OnOk};
ghost use Rattle.fp_records.specs.Text.{with_field};
ghost use Rattle.fp_certificate_lines.specs.Rows.{shipment_name, terminal_name, with_ends};

use crate::NoMemory;
use fp_model::Instance;
use fp_records::Line;

// The name of a terminal.
fn terminal_name(instance: &Instance, terminal: u32) -> &[u8]
    requires { terminal < length instance.now.terminals }
    ensures { result.now ≡ terminal_name instance.now terminal }
{
    instance.terminals()[terminal as usize].bytes()
}

/// Adds the name of a terminal.
pub fn write_terminal(line: &mut Line, instance: &Instance, terminal: u32) -> Result<(), NoMemory>
    requires { terminal < length instance.now.terminals }
    ensures { OnOk result (line.new ≡ with_field line.old (terminal_name instance.now terminal)) }
{
    line.word(terminal_name(instance, terminal))
}

/// Adds the name of a shipment.
pub fn write_shipment(line: &mut Line, instance: &Instance, shipment: u32) -> Result<(), NoMemory>
    requires { shipment < length instance.now.shipments }
    ensures { OnOk result (line.new ≡ with_field line.old (shipment_name instance.now shipment)) }
{
    line.word(instance.shipment(shipment).name.bytes())
}

/// Adds the names of the two ends of an arc.
pub fn write_ends(line: &mut Line, instance: &Instance, number: u32) -> Result<(), NoMemory>
    requires { number < length instance.now.arcs }
    ensures { OnOk result (line.new ≡ with_ends line.old instance.now number) }
{
    let arc = instance.arc(number);
    write_terminal(line, instance, arc.from)?;
    write_terminal(line, instance, arc.to)
}
