//! Lines that are kept for a job.

ghost use Rattle.std.specs.Prelude.{◌≡◌, ◌⊎◌, ◌+◌, ◌≤◌, ◌++◌, ◌∷◌, [], IfErr, IfOk, OnOk, length};
ghost use Rattle.mvs_model.specs.Lines.{IsUnended, ended_text, lines_of};
ghost use Rattle.mvs_model.specs.Numbers.{most_script_bytes};
ghost use Rattle.terminal_session.specs.Sessions.{with_line, with_lines};

use crate::session::Host;
use job_script::read_line;
use mvs_job::{RunFault, line_end};
use mvs_model::line::Line;
use shell::SessionScript;
use std::alloc::Global;

/// Keeps a line that has no fault as the last one of a script.
pub fn append(script: &mut SessionScript, line: &[u8]) -> Result<(), RunFault>
    requires short { length line.now ≤ 256 }
    requires unended { IsUnended line.now }
    ensures kept { OnOk result (script.new ≡ script.old ++ line.now ∷ []) }
    ensures few { OnOk result (length script.old ≤ most_script_bytes) }
    ensures unkept { IfErr result (λ fault. (script.new ≡ script.old)
        × ((fault ≡ RunFault.Memory) ⊎ ((fault ≡ RunFault.ReadTooLong)
        × (most_script_bytes ≤ length (ended_text script.old) + 256)))) }
{
    if !script.has_room(line) {
        return Err(RunFault::ReadTooLong);
    }
    script.push(line).map_err(|_| RunFault::Memory)
}

// Keeps a line as the last one of a script, or reports its fault.
fn keep<H: Host>(
    script: &mut SessionScript,
    read: &mut Line,
    host: &mut H,
    line: &[u8],
) -> Result<(), RunFault>
    ensures { OnOk result (script.new ≡ with_line script.old line.now) }
{
    if let Err(fault) = read_line(line, script.is_blank(), read) {
        host.on_fault(next_number(script), line, fault);
        return Ok(());
    }
    append(script, line)
}

/// Returns the number of the line after the last of a script.
pub fn next_number(script: &SessionScript) -> u32
    ensures { result ≡ length script.now + 1 }
{
    script.count() as u32 + 1
}

/// Returns the lines of a text that have no fault, and reports the others.
pub fn script_of<H: Host>(
    alloc: Global,
    host: &mut H,
    text: &[u8],
) -> Result<SessionScript, RunFault>
    ensures { IfOk result (λ script. script ≡ with_lines [] (lines_of text.now)) }
{
    let mut script = SessionScript::new(alloc);
    let mut read = Line::Nothing;
    let mut at = 0;
    'lines: while at < text.len() {
        let rest = &text[at..];
        let len = line_end(rest);
        keep(&mut script, &mut read, host, &rest[..len])?;
        at += len + 1;
    }
    Ok(script)
}
