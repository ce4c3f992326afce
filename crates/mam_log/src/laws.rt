//! What is so of each log.
ghost use Rattle.mam_log.specs.Tilings.{IsTiling};

use crate::device_log::Log;

/// A law: the entries and the tiles of a log are those of pages that follow on one another, in which no id stands
/// twice.
pub fn entries_are_tiled(log: &Log)
    ensures { IsTiling log.now.entries log.now.tiles }
{
    log.tiles();
}
