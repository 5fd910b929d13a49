//! What a served drive tells at its end (docs/OPERATIONS.md, "What it writes").

ghost use Rattle.std.specs.Prelude.{Some, OnOk};
ghost use Rattle.std.specs.Fmt.{DisplaysOnOk};
ghost use Rattle.std.specs.Io.KnownBytes.{Appends};
ghost use Rattle.s4_commands.specs.Serving.{closed_line, counted_line, counts_text, end_lines};

use s4_cells::Cell;
use s4_run::RunFault;
use std::fmt;
use std::io::Write;

/// Writes the counts of the cells, where they are wanted, and how many records there are.
pub fn tell_end<W: Write>(
    output: &mut W,
    counts: bool,
    cells: &[Cell],
    records: usize,
) -> Result<(), RunFault>
    ensures { OnOk result (Appends (W.contents output.old) (W.contents output.new)
        (end_lines counts cells.now records)) }
{
    if counts {
        tell_counts(output, cells)?;
    }
    tell_closed(output, records)
}

/// Writes of each cell how many records it ever had.
fn tell_counts<W: Write>(output: &mut W, cells: &[Cell]) -> Result<(), RunFault>
    ensures { OnOk result
        (Appends (W.contents output.old) (W.contents output.new) (counted_line cells.now)) }
{
    writeln!(output, "counted{}", CountsText(cells)).map_err(RunFault::writing)
}

/// Writes how many records there are.
fn tell_closed<W: Write>(output: &mut W, records: usize) -> Result<(), RunFault>
    ensures { OnOk result
        (Appends (W.contents output.old) (W.contents output.new) (closed_line records)) }
{
    writeln!(output, "closed {records}").map_err(RunFault::writing)?;
    output.flush().map_err(RunFault::writing)
}

/// How many records each cell ever had, each behind a space.
#[derive(Clone, Copy)]
struct CountsText<'a>(&'a [Cell]);

impl fmt::Display for CountsText<'_> {
    ghost output = { λ t. Some (counts_text t.0.now) };

    fn fmt<W: fmt::Write>(&self, f: &mut fmt::Formatter<W>) -> fmt::Result {
        write_counts(self.0, f)
    }
}

/// The counts of the cells.
fn write_counts<W: fmt::Write>(cells: &[Cell], f: &mut fmt::Formatter<W>) -> fmt::Result
    ensures { DisplaysOnOk W.write_str_gives f.old result (Some (counts_text cells.now)) f.new }
{
    for cell in cells {
        write!(f, " {}", cell.next_place())?;
    }
    Ok(())
}
