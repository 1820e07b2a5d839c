//! The names of terminals in lines that are written.
ghost use Rattle.std.specs.Prelude.{◌≡◌, ◌<◌, length, OnOk};
ghost use Rattle.fp_records.specs.Text.{with_field};
ghost use Rattle.fp_timetable.specs.Lines.{TruckExists};
ghost use Rattle.fp_yard_sheets.specs.Rows.{head_name, tail_name, terminal_name};

use crate::NoMemory;
use fp_model::Instance;
use fp_records::Line;
use fp_timetable::TruckLine;

// Adds the name of a terminal.
fn write_terminal(line: &mut Line, instance: &Instance, terminal: u32) -> Result<(), NoMemory>
    requires { terminal < length instance.now.terminals }
    ensures { OnOk result (line.new ≡ with_field line.old (terminal_name instance.now terminal)) }
{
    line.word(instance.terminals()[terminal as usize].bytes())
}

// Adds the name of the terminal that a truck line leaves.
pub(crate) fn write_tail(
    line: &mut Line,
    instance: &Instance,
    truck: &TruckLine,
) -> Result<(), NoMemory>
    requires { TruckExists instance.now truck.now }
    ensures { OnOk result (line.new ≡ with_field line.old (tail_name instance.now truck.now)) }
{
    write_terminal(line, instance, instance.arc(truck.arc).from)
}

// Adds the name of the terminal that a truck line enters.
pub(crate) fn write_head(
    line: &mut Line,
    instance: &Instance,
    truck: &TruckLine,
) -> Result<(), NoMemory>
    requires { TruckExists instance.now truck.now }
    ensures { OnOk result (line.new ≡ with_field line.old (head_name instance.now truck.now)) }
{
    write_terminal(line, instance, instance.arc(truck.arc).to)
}
