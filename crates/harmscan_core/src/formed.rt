// Rows that were formed before the first of them is put.
ghost use Rattle.std.specs.List.{AllByRecursion};
ghost use Rattle.harm_io.specs.Sinks.{Writes};
ghost use Rattle.scan_report.specs.Reading.{text_of};
ghost use Rattle.scan_report.specs.Rows.{HaveText, fields_of};

use crate::report::put_line;
use harm_io::{PutFault, Sink};
use scan_report::{LineBuf, Row, write_row};

/// Puts rows, a line a put.
pub fn put_rows<O: Sink>(rows: &[Row], out: &mut O) -> Result<(), PutFault>
    requires { AllByRecursion (λ row. HaveText (fields_of row)) rows.now }
    ensures { Writes (text_of rows.now) (O.state out.old) (O.state out.new) result }
{
    let mut line = LineBuf::new();
    for row in rows {
        write_row(row, &mut line);
        match put_line(out, &line) {
            Ok(()) => (),
            Err(fault) => return Err(fault),
        }
    }
    Ok(())
}
