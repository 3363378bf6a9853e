//! The texts of the reference about codes and rules.

ghost use Rattle.std.specs.Prelude.{IfOk, Some, option_map};
ghost use Rattle.expected_answers.specs.Reports.{shown};
ghost use Rattle.language_server.specs.Hovers.{IsCodeText, IsRuleText};

use crate::plain_text::push_shown;
use reference::{code, rule};
use std::alloc::{AllocError, Global};

/// The number of rules.
const RULES: u64 = 74;

/// Returns the text about a code, if a word is one.
pub fn code_text(alloc: Global, word: &[u8]) -> Result<Option<&'static str>, AllocError>
    ensures { IfOk result
        (λ text. IsCodeText (shown word.now) (option_map (λ t. t.now) text)) }
{
    let mut name = String::new(alloc);
    push_shown(&mut name, word)?;
    Ok(code(&name))
}

// Returns the text of the rule with a number, if there is one.
fn numbered_rule(number: u64) -> Option<&'static str>
    ensures { IsRuleText (Some number) (option_map (λ t. t.now) result) }
{
    if number > RULES {
        None
    } else {
        rule(number as u32)
    }
}

/// Returns the text of a rule, if there is one.
pub fn rule_text(number: Option<u64>) -> Option<&'static str>
    ensures { IsRuleText number (option_map (λ t. t.now) result) }
{
    numbered_rule(number?)
}
