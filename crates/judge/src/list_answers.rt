//! Whether an output continues with an answer that a list can have: it is granted, or refused for a shortage.

ghost use Rattle.std.specs.Prelude.{◌≡◌, [], false, true, IfOk};
ghost use Rattle.mvs_model.specs.Answers.{Abended};
ghost use Rattle.mvs_model.specs.FullAnswers.{has_long_data, full_answer};
ghost use Rattle.mvs_model.specs.State.{State};
ghost use Rattle.mvs_model.specs.Texts.{answer_text};
ghost use Rattle.judge.specs.Deciding.{BeginsBy, OpensList};
ghost use Rattle.judge.specs.Judging.{BeginsAnswered};

use crate::deciding::{begins, print_answer};
use job_script::print_abend;
use mvs_model::answer::Answer;
use mvs_model::code::Code;
use mvs_model::error::OutOfMemory;
use mvs_model::name::Name;
use mvs_model::watched::Watched;
use std::alloc::Global;

// Returns whether a text begins with an answer to the line of this number.
fn begins_so(
    alloc: Global,
    line_number: u32,
    task: &Name,
    answer: &Answer,
    text: &[u8],
) -> Result<bool, OutOfMemory>
    requires { has_long_data answer.now ≡ false }
    ensures { IfOk result
        (λ b. (st : State) → BeginsBy text.now
        (answer_text line_number task.now (full_answer st [] task.now answer.now)) b) }
{
    let printed = print_answer(Vec::new(alloc), line_number, task, answer)?;
    Ok(begins(text, printed.as_slice()))
}

// Returns whether it is an abend with this code, with any tasks that end with it.
pub(crate) fn begins_abend(
    alloc: Global,
    line_number: u32,
    task: &Name,
    code: Code,
    text: &[u8],
) -> Result<bool, OutOfMemory>
    ensures { IfOk result
        (λ b. BeginsBy text.now (answer_text line_number task.now (Abended code [])) b) }
{
    let mut writer = Watched::new(Vec::new(alloc));
    print_abend(&mut writer, line_number, task, code, &[]).map_err(|_| OutOfMemory)?;
    let printed = writer.into_inner();
    Ok(begins(text, printed.as_slice()))
}

// Returns whether a text begins with what a list may be answered.
fn begins_answered(
    alloc: Global,
    line_number: u32,
    task: &Name,
    text: &[u8],
) -> Result<bool, OutOfMemory>
    ensures yes { IfOk result (λ b. b ≡ true → BeginsAnswered line_number task.now text.now) }
    ensures no { IfOk result (λ b. BeginsAnswered line_number task.now text.now → b ≡ true) }
{
    let granted = begins_so(alloc, line_number, task, &Answer::Rc0, text)?;
    let refused = begins_so(alloc, line_number, task, &Answer::Rc4, text)?;
    let of_e = begins_abend(alloc, line_number, task, Code::System(0x804), text)?;
    let of_r = begins_abend(alloc, line_number, task, Code::System(0x80A), text)?;
    let located = begins_abend(alloc, line_number, task, Code::SHORTAGE, text)?;
    Ok(granted | refused | of_e | of_r | located)
}

/// Returns whether a list is open, whose line has this number and at which a run may print the text or not: none prints the answer of this run,
/// and yet it begins with an answer that a list can have.
pub fn opens_list(
    alloc: Global,
    line_number: u32,
    task: &Name,
    text: &[u8],
    passes: bool,
) -> Result<bool, OutOfMemory>
    ensures { IfOk result (OpensList line_number task.now text.now passes) }
{
    if passes {
        return Ok(false);
    }
    begins_answered(alloc, line_number, task, text)
}
