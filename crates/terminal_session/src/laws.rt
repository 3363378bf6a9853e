//! Laws of runs whose explanations are switched: each function does nothing, and its contract is the law.

ghost use Rattle.terminal_session.specs.Switching.{SwitchedArePrintings, SwitchedLeaksArePrintings};

use mvs_job::laws::no_line_is_starred;

/// Without its lines that begin with an asterisk, what is written of a run whose explanations are switched off and on is the printing
/// of a run.
pub fn switched_are_printings()
    ensures { SwitchedArePrintings }
{
    no_line_is_starred();
}

/// So it is with reports of leaks.
pub fn switched_leaks_are_printings()
    ensures { SwitchedLeaksArePrintings }
{
    no_line_is_starred();
}
