// The report of `verify`: one row.
ghost use Rattle.harmscan_core.specs.Inputs.{IsVerified, checked_in};
ghost use Rattle.harmscan_core.specs.Outcome.{Reports};

use crate::inputs::Checked;
use crate::outcome::{Outcome, after_put};
use crate::report::put_line;
use harm_io::Sink;
use scan_report::{LineBuf, Row, verified_row};

/// Puts the row of a report that is right of its study.
#[tactic(auto, using(crate::proofs::Rights::verified_written, crate::proofs::Rights::verified_not_taken))]
pub fn report_verified<O: Sink>(checked: &Checked, out: &mut O) -> Outcome
    requires { IsVerified checked.now.accepted.study checked.now.right }
    ensures { Reports (checked_in checked.now) (O.state out.old) (O.state out.new) result }
{
    let verified = checked.right.verified;
    let mut line = LineBuf::new();
    verified_row(
        &Row::Verified {
            scans: verified.scans,
            boxes: verified.boxes,
        },
        &mut line,
    );
    match put_line(out, &line) {
        Ok(()) => Outcome::Written(0),
        Err(fault) => after_put(fault),
    }
}
