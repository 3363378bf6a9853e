//! What is missing from the operands of a statement, and which of them exclude each other.

ghost use Rattle.std.specs.Prelude.{◌≡◌, ◌∷◌, [], ◌||◌, true, drop, map, length, unwrap_or, Some};
ghost use Rattle.std.specs.List.{list_any, list_all};
ghost use Rattle.mvs_model.specs.declared.line.Fault.TheVariants.{MissingOperand, Conflicting};
ghost use Rattle.mvs_model.specs.Reading.{first_of, ◌when◌, items, number, is_number, numbers_in, lacks_positional, lacks_keyword, is_half, is_conflict};
ghost use Rattle.job_script.specs.Items.{items_in};
ghost use Rattle.job_script.specs.Kinds.{fault_in};
ghost use Rattle.job_script.specs.Rows.{row_at, key_text, as_rule};
ghost use Rattle.job_script.specs.GivenOperands.{IsRead, by_place, option_now};
ghost use Rattle.job_script.specs.Rules.{AreNumbers, IsFit, is_shared_number};

use crate::given::GivenOperands;
use crate::items::{Item, between, count, inside, is_shared};
use crate::keys::Key;
use crate::rows::{Positional, Rule};
use mvs_model::line::Fault;

// Returns whether a positional operand after the first n is required.
fn lacks(positional: &[Positional], count: usize) -> bool
    ensures { result ≡ list_any (λ p. p.required) (drop count positional.now) }
{
    if count >= positional.len() {
        return false;
    }
    let (_, rest) = positional.split_at(count);
    rest.iter().any(|operand| operand.required)
}

// Returns the items of a list, or a number as the one item.
fn listed(text: &[u8]) -> &[u8]
    requires { AreNumbers (Some text.now) }
    ensures numbers { map number (items_in result.now) ≡ numbers_in (Some text.now) }
    ensures are { list_all is_number (items_in result.now) ≡ true }
{
    match inside(text) {
        None => text,
        Some(inner) => inner,
    }
}

// Returns whether a number is given with two keywords.
fn is_common(one: Option<&[u8]>, other: Option<&[u8]>) -> bool
    requires one { AreNumbers (option_now one) }
    requires other { AreNumbers (option_now other) }
    ensures { result
        ≡ is_shared_number (numbers_in (option_now one.entry))
        (numbers_in (option_now other.entry)) }
{
    let Some(one) = one else {
        return false;
    };
    let Some(other) = other else {
        return false;
    };
    is_shared(Item::Number(0, 0), listed(one), listed(other))
}

impl GivenOperands<'_> {
    // Returns whether a required positional operand is not there.
    fn lacks_positional(&self) -> bool
        ensures { result ≡ lacks_positional (row_at self.now.row) (by_place self.now) }
    {
        lacks(self.row.positional(), self.count)
    }

    // Returns whether a required keyword is not there.
    fn lacks_keyword(&self) -> bool
        requires { IsRead self.now }
        ensures { result ≡ lacks_keyword (row_at self.now.row) (by_place self.now) }
    {
        for keyword in self.keywords {
            if keyword.required && self.text(keyword.key).is_none() {
                return true;
            }
        }
        false
    }

    // Returns whether one of two keywords that go together is missing.
    fn is_half(&self, rule: Rule) -> bool
        requires { IsRead self.now }
        ensures { result ≡ is_half (by_place self.now) (as_rule rule) }
    {
        match rule {
            Rule::Together(one, other) => {
                let one = self.text(one).is_some();
                let other = self.text(other).is_some();
                (one && !other) || (other && !one)
            }
            Rule::Excludes(..) | Rule::SameLength(..) | Rule::Apart(..) => false,
        }
    }

    // Returns whether a rule is half kept.
    fn has_half(&self, rules: &[Rule]) -> bool
        requires read { IsRead self.now }
        requires rules { map as_rule rules.now ≡ (row_at self.now.row).rules }
        ensures { result ≡ list_any (is_half (by_place self.now)) (row_at self.now.row).rules }
    {
        for rule in rules {
            if self.is_half(*rule) {
                return true;
            }
        }
        false
    }

    // Returns the number of items of a keyword.
    fn count_under(&self, key: Key) -> usize
        requires { IsRead self.now }
        ensures { result
            ≡ length (items (unwrap_or ((by_place self.now).under (key_text key)) [])) }
    {
        match self.text(key) {
            None => 1,
            Some(text) => count(between(text)),
        }
    }

    // Returns whether a number is given with one of two keywords and with one of two others.
    fn shares(&self, one: Key, list: Key, other: Key, others: Key) -> bool
        requires read { IsRead self.now }
        requires one { AreNumbers ((by_place self.now).under (key_text one)) }
        requires list { AreNumbers ((by_place self.now).under (key_text list)) }
        requires other { AreNumbers ((by_place self.now).under (key_text other)) }
        requires others { AreNumbers ((by_place self.now).under (key_text others)) }
        ensures { result
            ≡ is_conflict (by_place self.now) (as_rule (Rule.Apart one list other others)) }
    {
        let one = self.text(one);
        let list = self.text(list);
        let other = self.text(other);
        let others = self.text(others);
        is_common(one, other)
            | is_common(one, others)
            | is_common(list, other)
            | is_common(list, others)
    }

    // Returns whether two operands exclude each other.
    fn is_conflict(&self, rule: Rule) -> bool
        requires read { IsRead self.now }
        requires fit { IsFit (by_place self.now) (as_rule rule) }
        ensures { result ≡ is_conflict (by_place self.now) (as_rule rule) }
    {
        match rule {
            Rule::Together(_, _) => false,
            Rule::Excludes(one, other) => self.text(one).is_some() && self.text(other).is_some(),
            Rule::SameLength(one, other) => self.count_under(one) != self.count_under(other),
            Rule::Apart(one, list, other, others) => self.shares(one, list, other, others),
        }
    }

    // Returns whether some operands exclude each other.
    fn has_conflict(&self, rules: &[Rule]) -> bool
        requires read { IsRead self.now }
        requires rules { map as_rule rules.now ≡ (row_at self.now.row).rules }
        ensures { result ≡ list_any (is_conflict (by_place self.now)) (row_at self.now.row).rules }
    {
        for rule in rules {
            if self.is_conflict(*rule) {
                return true;
            }
        }
        false
    }

    /// Checks operands of which each is accepted: returns the fault if one is missing, or if two exclude each other.
    pub fn check(&self) -> Result<(), Fault>
        requires { IsRead self.now }
        ensures { fault_in result
            ≡ first_of
            (MissingOperand when
            (lacks_positional (row_at self.now.row) (by_place self.now)
            || lacks_keyword (row_at self.now.row) (by_place self.now)
            || list_any (is_half (by_place self.now)) (row_at self.now.row).rules)
            ∷ Conflicting when list_any (is_conflict (by_place self.now))
            (row_at self.now.row).rules ∷ []) }
    {
        let rules = self.row.rules();
        if self.lacks_positional() || self.lacks_keyword() || self.has_half(rules) {
            return Err(Fault::MissingOperand);
        }
        if self.has_conflict(rules) {
            return Err(Fault::Conflicting);
        }
        Ok(())
    }
}
