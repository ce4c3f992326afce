//! Numbers of a report's lines.
ghost use Rattle.cmd_report_reader.specs.LineReading.{number_in};
ghost use Rattle.cmd_schedule.specs.Gives.{Gives};

use cmd_schedule::{LineFault, read_number};

/// A number of a report: one below 2^64.
pub fn number_in(field: &str) -> Result<u64, LineFault>
    ensures { Gives (λ n. n) result (number_in field.now) }
{
    match read_number(0, u64::MAX, field) {
        Ok(number) => Ok(number),
        Err(why) => Err(LineFault::Reason(why)),
    }
}
