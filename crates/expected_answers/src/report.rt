//! The report of a comparison: as text, as TAP, or as JUnit's XML.

ghost use Rattle.std.specs.Prelude.{◌≡◌, ◌++◌, ◌+◌, ◌<◌, ◌≤◌, ◌^◌, IfOk, OnOk, codes, decimal, length};
ghost use Rattle.std.specs.Option.{option_map};
ghost use Rattle.mvs_model.specs.Lines.{lines_of};
ghost use Rattle.mvs_model.specs.Numbers.{most_script_bytes};
ghost use Rattle.expected_answers.specs.ExpectedAnswers.{expected_answers, expected_of, verdict_of};
ghost use Rattle.expected_answers.specs.Reports.{are_right, case_of, cases, cases_from, counted, counts_of, failures, foot, head, junit_begin, junit_case, junit_message, label_of, message_of, name_in, place_of, report_of, right_of, suite_numbers, sum_of, tap_case, tap_line, tap_message, tests, text_case, total, with_one, wrong_message};

use crate::expected::{AnswerPair, AnswerPairs, AnswerVerdict};
use crate::shown::{push_escaped, push_shown, shown_name};
use line_text::text::LineText as Line;
use std::alloc::{AllocError, Global};

/// The form of a report.
#[derive(Clone, Copy, Debug, PartialEq, Eq)]
pub enum Format {
    /// A line for each answer that is not right, and a line with the numbers.
    Text,
    /// The Test Anything Protocol, version 13.
    Tap,
    /// XML as JUnit writes it.
    Junit,
}

/// How a comparison is reported.
#[derive(Clone, Copy, Debug, PartialEq, Eq)]
pub struct ReportForm {
    pub format: Format,
    /// Whether a wrong answer is reported without what the run printed.
    pub is_hidden: bool,
}

/// How many answers of a script are right, wrong and missing, and the line of the last one, or 0 if there is none.
#[derive(Clone, Copy, Debug, PartialEq, Eq)]
pub struct Counts {
    pub right: u32,
    pub wrong: u32,
    pub missing: u32,
    pub last: u32,
}

/// The counts of no answers.
const NO_ANSWERS: Counts = Counts {
    right: 0,
    wrong: 0,
    missing: 0,
    last: 0,
};

impl Counts {
    // Returns these counts and one more answer.
    fn with(self, verdict: AnswerVerdict, line_number: u32) -> Counts
        requires { total self + 1 < 2 ^ 32 }
        ensures { result ≡ with_one self verdict line_number }
    {
        let last = line_number;
        match verdict {
            AnswerVerdict::Right => Counts {
                right: self.right + 1,
                last,
                ..self
            },
            AnswerVerdict::Wrong => Counts {
                wrong: self.wrong + 1,
                last,
                ..self
            },
            AnswerVerdict::Open | AnswerVerdict::Empty => Counts {
                missing: self.missing + 1,
                last,
                ..self
            },
        }
    }

    // Returns how many answers there are.
    fn total(&self) -> u32
        requires { total self.now < 2 ^ 32 }
        ensures { result ≡ total self.now }
    {
        self.right + self.wrong + self.missing
    }

    // Returns how many cases a report has: one for each answer, and one for a script without answers.
    fn tests(&self) -> u32
        requires { total self.now < 2 ^ 32 }
        ensures { result ≡ tests self.now }
    {
        self.total().max(1)
    }

    // Returns how many of them fail.
    fn failures(&self) -> u32
        requires { total self.now < 2 ^ 32 }
        ensures { result ≡ failures self.now }
    {
        if self.total() == 0 {
            1
        } else {
            self.wrong + self.missing
        }
    }

    /// Returns whether the script has answers, and all of them are right.
    pub fn are_right(&self) -> bool
        ensures { result ≡ are_right self.now }
    {
        self.right > 0 && self.wrong == 0 && self.missing == 0
    }
}

/// A report, and the counts in it.
#[derive(Drop)]
pub struct Report {
    pub text: Vec<u8>,
    pub counts: Counts,
}

/// A case of a report: its number among the cases, its line in the script, and what is wrong with it.
#[derive(Clone, Copy)]
struct Case<'a> {
    index: u32,
    line: Option<u32>,
    message: Option<&'a [u8]>,
}

// Appends a text.
fn push(report: &mut Vec<u8>, text: &[u8]) -> Result<(), AllocError>
    ensures { OnOk result (report.new.items ≡ report.old.items ++ text.now) }
{
    report.extend_from_slice(text)
}

// Appends a number.
fn push_number(report: &mut Vec<u8>, number: u32) -> Result<(), AllocError>
    ensures { OnOk result (report.new.items ≡ report.old.items ++ decimal number) }
{
    let mut line = Line::new();
    line.push_decimal(number);
    report.extend_from_slice(line.as_slice())
}

// Appends the place of a case in the script.
fn push_place(report: &mut Vec<u8>, line: Option<u32>) -> Result<(), AllocError>
    ensures { OnOk result (report.new.items ≡ report.old.items ++ place_of line) }
{
    match line {
        Some(number) => {
            push(report, b":")?;
            push_number(report, number)
        }
        None => Ok(()),
    }
}

// Appends the name of a case.
fn push_label(report: &mut Vec<u8>, line: Option<u32>) -> Result<(), AllocError>
    ensures { OnOk result (report.new.items ≡ report.old.items ++ label_of line) }
{
    match line {
        Some(number) => {
            push(report, b"line ")?;
            push_number(report, number)
        }
        None => push(report, b"answers"),
    }
}

// Appends a case that fails as text.
fn push_text_case(
    report: &mut Vec<u8>,
    name: &[u8],
    line: Option<u32>,
    message: &[u8],
) -> Result<(), AllocError>
    ensures { OnOk result (report.new.items ≡ report.old.items ++ text_case name.now line (Some message.now)) }
{
    push(report, name)?;
    push_place(report, line)?;
    push(report, b": ")?;
    push(report, message)?;
    push(report, b"\n")?;
    Ok(())
}

// Appends the first line of a case as TAP.
fn push_tap_line(report: &mut Vec<u8>, passed: &[u8], case: Case<'_>) -> Result<(), AllocError>
    ensures { OnOk result (report.new.items
        ≡ report.old.items ++ tap_line passed.now case.entry.index case.entry.line) }
{
    push(report, passed)?;
    push_number(report, case.index)?;
    push(report, b" - ")?;
    push_label(report, case.line)?;
    Ok(())
}

// Appends the message of a case as TAP has it.
fn push_tap_message(report: &mut Vec<u8>, message: &[u8]) -> Result<(), AllocError>
    ensures { OnOk result (report.new.items ≡ report.old.items ++ tap_message message.now) }
{
    push(report, b"\n  ---\n  message: |\n    ")?;
    push(report, message)?;
    push(report, b"\n  ...\n")?;
    Ok(())
}

// Appends a case as TAP.
fn push_tap_case(report: &mut Vec<u8>, case: Case<'_>) -> Result<(), AllocError>
    ensures { OnOk result (report.new.items
        ≡ report.old.items ++ tap_case case.entry.index case.entry.line (option_map (λ m. m.now) case.entry.message)) }
{
    match case.message {
        Some(message) => {
            push_tap_line(report, b"not ok ", case)?;
            push_tap_message(report, message)?;
            Ok(())
        }
        None => {
            push_tap_line(report, b"ok ", case)?;
            push(report, b"\n")?;
            Ok(())
        }
    }
}

// Appends the beginning of a case as XML.
fn push_junit_begin(report: &mut Vec<u8>, name: &[u8], line: Option<u32>) -> Result<(), AllocError>
    ensures { OnOk result (report.new.items ≡ report.old.items ++ junit_begin name.now line) }
{
    push(report, b"<testcase classname=\"")?;
    push(report, name)?;
    push(report, b"\" name=\"")?;
    push_label(report, line)?;
    Ok(())
}

// Appends the message of a case as XML.
fn push_junit_message(report: &mut Vec<u8>, message: &[u8]) -> Result<(), AllocError>
    ensures { OnOk result (report.new.items ≡ report.old.items ++ junit_message message.now) }
{
    push(report, b"\"><failure message=\"")?;
    push_escaped(report, message)?;
    push(report, b"\"/></testcase>\n")?;
    Ok(())
}

// Appends a case as XML.
fn push_junit_case(report: &mut Vec<u8>, name: &[u8], case: Case<'_>) -> Result<(), AllocError>
    ensures { OnOk result (report.new.items
        ≡ report.old.items ++ junit_case name.now case.entry.line (option_map (λ m. m.now) case.entry.message)) }
{
    push_junit_begin(report, name, case.line)?;
    match case.message {
        Some(message) => push_junit_message(report, message),
        None => push(report, b"\"/>\n"),
    }
}

// Appends a case.
fn push_case(
    report: &mut Vec<u8>,
    format: Format,
    name: &[u8],
    case: Case<'_>,
) -> Result<(), AllocError>
    ensures { OnOk result (report.new.items
        ≡ report.old.items ++ case_of format name.now case.entry.index case.entry.line (option_map (λ m. m.now) case.entry.message)) }
{
    match format {
        Format::Text => match case.message {
            Some(message) => push_text_case(report, name, case.line, message),
            None => Ok(()),
        },
        Format::Tap => push_tap_case(report, case),
        Format::Junit => push_junit_case(report, name, case),
    }
}

// Returns what is reported of a wrong answer.
fn wrong_message(
    alloc: Global,
    answer: &AnswerPair<'_>,
    is_hidden: bool,
) -> Result<Vec<u8>, AllocError>
    ensures { IfOk result (λ message. message.items ≡ wrong_message is_hidden answer.now) }
{
    let mut message = Vec::new(alloc);
    if is_hidden {
        message.extend_from_slice(b"wrong")?;
    } else {
        message.extend_from_slice(b"expected ")?;
        push_shown(&mut message, answer.expected)?;
        message.extend_from_slice(b", got ")?;
        push_shown(&mut message, &answer.got)?;
    }
    Ok(message)
}

// Appends the case of an answer.
fn push_answer(
    alloc: Global,
    report: &mut Vec<u8>,
    form: ReportForm,
    name: &[u8],
    index: u32,
    answer: &AnswerPair<'_>,
) -> Result<(), AllocError>
    ensures { OnOk result (report.new.items
        ≡ report.old.items ++ case_of form.format name.now index (Some answer.now.number) (message_of form.is_hidden (verdict_of answer.now) answer.now)) }
{
    let line = Some(answer.number);
    match answer.verdict() {
        AnswerVerdict::Right => push_case(
            report,
            form.format,
            name,
            Case {
                index,
                line,
                message: None,
            },
        ),
        AnswerVerdict::Wrong => {
            let message = wrong_message(alloc, answer, form.is_hidden)?;
            push_case(
                report,
                form.format,
                name,
                Case {
                    index,
                    line,
                    message: Some(&message),
                },
            )
        }
        AnswerVerdict::Open => push_case(
            report,
            form.format,
            name,
            Case {
                index,
                line,
                message: Some(b"not answered"),
            },
        ),
        AnswerVerdict::Empty => push_case(
            report,
            form.format,
            name,
            Case {
                index,
                line,
                message: Some(b"nothing after =>"),
            },
        ),
    }
}

// Appends the cases of the answers after the first one, of which these are the counts, and returns those of all.
fn push_rest(
    alloc: Global,
    report: &mut Vec<u8>,
    form: ReportForm,
    name: &[u8],
    answers: AnswerPairs<'_>,
    first: Counts,
) -> Result<Counts, AllocError>
    requires few { (1 < answers.number) × (total first < answers.number) }
    requires room { answers.number + length answers.script.now < 2 ^ 32 }
    ensures text { OnOk result (report.new.items
        ≡ report.old.items ++ cases_from form.format form.is_hidden name.now 2 (expected_answers answers.entry.number (lines_of answers.entry.script.now) (lines_of answers.entry.printed.now))) }
    ensures value { IfOk result (λ counts. counts
        ≡ counted first (expected_answers answers.entry.number (lines_of answers.entry.script.now) (lines_of answers.entry.printed.now))) }
    ensures small { IfOk result (λ counts. total counts < 2 ^ 32) }
{
    let mut answers = answers;
    let mut counts = first;
    let mut index = 2;
    'answers: while let Some(answer) = answers.next(alloc)? {
        push_answer(alloc, report, form, name, index, &answer)?;
        counts = counts.with(answer.verdict(), answer.number);
        index += 1;
    }
    Ok(counts)
}

// Appends the cases of a script, and returns the counts of its answers.
fn push_cases(
    alloc: Global,
    report: &mut Vec<u8>,
    form: ReportForm,
    name: &[u8],
    answers: AnswerPairs<'_>,
) -> Result<Counts, AllocError>
    requires few { 0 < answers.number }
    requires room { answers.number + length answers.script.now < 2 ^ 32 }
    ensures text { OnOk result (report.new.items
        ≡ report.old.items ++ cases form.format form.is_hidden name.now (expected_answers answers.entry.number (lines_of answers.entry.script.now) (lines_of answers.entry.printed.now))) }
    ensures value { IfOk result (λ counts. counts
        ≡ counts_of (expected_answers answers.entry.number (lines_of answers.entry.script.now) (lines_of answers.entry.printed.now))) }
    ensures small { IfOk result (λ counts. total counts < 2 ^ 32) }
{
    let mut answers = answers;
    match answers.next(alloc)? {
        Some(answer) => {
            push_answer(alloc, report, form, name, 1, &answer)?;
            let first = NO_ANSWERS.with(answer.verdict(), answer.number);
            push_rest(alloc, report, form, name, answers, first)
        }
        None => {
            let none = Case {
                index: 1,
                line: None,
                message: Some(b"no answers to compare"),
            };
            push_case(report, form.format, name, none)?;
            Ok(NO_ANSWERS)
        }
    }
}

// Appends how many answers are right.
fn push_right(report: &mut Vec<u8>, counts: &Counts) -> Result<(), AllocError>
    requires { total counts.now < 2 ^ 32 }
    ensures { OnOk result (report.new.items ≡ report.old.items ++ right_of counts.now) }
{
    push_number(report, counts.right)?;
    push(report, b" of ")?;
    push_number(report, counts.total())?;
    push(report, b" right, ")?;
    Ok(())
}

// Appends how many answers are right, wrong and missing.
fn push_sum(report: &mut Vec<u8>, counts: &Counts) -> Result<(), AllocError>
    requires { total counts.now < 2 ^ 32 }
    ensures { OnOk result (report.new.items ≡ report.old.items ++ sum_of counts.now) }
{
    push_right(report, counts)?;
    push_number(report, counts.wrong)?;
    push(report, b" wrong, ")?;
    push_number(report, counts.missing)?;
    push(report, b" not answered\n")?;
    Ok(())
}

// Appends the numbers of cases as XML.
fn push_suite_numbers(report: &mut Vec<u8>, counts: &Counts) -> Result<(), AllocError>
    requires { total counts.now < 2 ^ 32 }
    ensures { OnOk result (report.new.items ≡ report.old.items ++ suite_numbers counts.now) }
{
    push(report, b"\" tests=\"")?;
    push_number(report, counts.tests())?;
    push(report, b"\" failures=\"")?;
    push_number(report, counts.failures())?;
    push(report, b"\">\n")?;
    Ok(())
}

// Appends the beginning of a report as XML.
fn push_suite(report: &mut Vec<u8>, name: &[u8], counts: &Counts) -> Result<(), AllocError>
    requires { total counts.now < 2 ^ 32 }
    ensures { OnOk result (report.new.items ≡ report.old.items ++ head Format.Junit name.now counts.now) }
{
    push(
        report,
        b"<?xml version=\"1.0\" encoding=\"UTF-8\"?>\n<testsuites>\n<testsuite name=\"",
    )?;
    push(report, name)?;
    push_suite_numbers(report, counts)?;
    Ok(())
}

// Appends the beginning of a report as TAP.
fn push_plan(report: &mut Vec<u8>, counts: &Counts) -> Result<(), AllocError>
    requires { total counts.now < 2 ^ 32 }
    ensures { OnOk result (report.new.items ≡ report.old.items ++ (codes "TAP version 13\n1.." ++ (decimal (tests counts.now) ++ codes "\n"))) }
{
    push(report, b"TAP version 13\n1..")?;
    push_number(report, counts.tests())?;
    push(report, b"\n")?;
    Ok(())
}

// Appends the beginning of a report.
fn push_head(
    report: &mut Vec<u8>,
    format: Format,
    name: &[u8],
    counts: &Counts,
) -> Result<(), AllocError>
    requires { total counts.now < 2 ^ 32 }
    ensures { OnOk result (report.new.items ≡ report.old.items ++ head format name.now counts.now) }
{
    match format {
        Format::Text => Ok(()),
        Format::Tap => push_plan(report, counts),
        Format::Junit => push_suite(report, name, counts),
    }
}

// Appends the end of a report.
fn push_foot(report: &mut Vec<u8>, format: Format, counts: &Counts) -> Result<(), AllocError>
    requires { total counts.now < 2 ^ 32 }
    ensures { OnOk result (report.new.items ≡ report.old.items ++ foot format counts.now) }
{
    match format {
        Format::Text => push_sum(report, counts),
        Format::Tap => {
            push(report, b"# ")?;
            push_sum(report, counts)
        }
        Format::Junit => push(report, b"</testsuite>\n</testsuites>\n"),
    }
}

// Returns the name of a file as reports of a format have it.
fn name_in(alloc: Global, format: Format, name: &[u8]) -> Result<Vec<u8>, AllocError>
    ensures { IfOk result (λ shown. shown.items ≡ name_in format name.now) }
{
    let shown = shown_name(alloc, name)?;
    match format {
        Format::Text | Format::Tap => Ok(shown),
        Format::Junit => {
            let mut written = Vec::new(alloc);
            push_escaped(&mut written, &shown)?;
            Ok(written)
        }
    }
}

/// Compares the answers that a script expects with what a run of its statements printed, and returns the report. The name is that of
/// the script's file.
pub fn report_answers(
    alloc: Global,
    form: ReportForm,
    name: &str,
    script: &[u8],
    printed: &[u8],
) -> Result<Report, AllocError>
    requires { length script.now ≤ most_script_bytes }
    ensures text { IfOk result
        (λ report. report.text.items
        ≡ report_of form.format form.is_hidden name.now (expected_of script.now printed.now)) }
    ensures counts { IfOk result (λ report. report.counts ≡ counts_of (expected_of script.now printed.now)) }
{
    let answers = AnswerPairs::of(script, printed);
    let name = name_in(alloc, form.format, name.as_bytes())?;
    let mut cases = Vec::new(alloc);
    let counts = push_cases(alloc, &mut cases, form, &name, answers)?;
    let mut text = Vec::new(alloc);
    push_head(&mut text, form.format, &name, &counts)?;
    push(&mut text, &cases)?;
    push_foot(&mut text, form.format, &counts)?;
    Ok(Report { text, counts })
}
