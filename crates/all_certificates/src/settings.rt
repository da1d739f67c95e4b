//! How packages are judged and told.

use accepting::Telling;
use workers::Workers;

/// How packages are judged, by so many workers, and how their report is told.
#[derive(Clone, Copy, Debug)]
pub struct Settings<'t> {
    pub workers: Workers,
    pub telling: Telling<'t>,
}
