//! A law: the function does nothing, and its contract is the law.

ghost use Rattle.event_json.specs.Lines.{EventLinesAreOfRuns};

use mvs_job::laws::traces_are_runs;

/// The lines of JSON of a run that ends are those of the events of a run.
pub fn event_lines_are_of_runs()
    ensures { EventLinesAreOfRuns }
{
    traces_are_runs();
}
