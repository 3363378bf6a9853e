//! Laws of runs with reasons, and of traces: each function does nothing, and its contract is the law.

ghost use Rattle.mvs_job.specs.Explained.{ExplainedArePrintings};
ghost use Rattle.mvs_job.specs.Explaining.{NoLineIsStarred};
ghost use Rattle.mvs_job.specs.Trace.{RunsHaveTraces, TracesAreRuns};

use mvs_laws::laws::well_formed;

/// No line of a printing begins with an asterisk: each begins with a number or a letter, and no name in it has a line feed.
pub fn no_line_is_starred()
    ensures { NoLineIsStarred }
{
    well_formed();
}

/// Without its lines that begin with an asterisk an explained run is the printing of a run.
pub fn explained_are_printings()
    ensures { ExplainedArePrintings }
{
    no_line_is_starred();
}

/// The events of a trace are those of a run.
pub fn traces_are_runs()
    ensures { TracesAreRuns }
{}

/// Each run is that of a trace.
pub fn runs_have_traces()
    ensures { RunsHaveTraces }
{}
