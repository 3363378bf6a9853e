//! The syntax of an operation. Forms that take the same operands come together.

ghost use Rattle.std.specs.Prelude.{◌≡◌, ◌++◌, ◌∷◌, [], IfOk, OnOk, codes, map};
ghost use Rattle.job_script.specs.Operations.{operation_text};
ghost use Rattle.language_server.specs.Hovers.{block, forms_blocks, group_block, group_blocks, syntax_blocks};
ghost use Rattle.language_server.specs.Syntax.{forms_text, group_of, joined_groups, takes_same};

use crate::paragraphs::{Paragraph, push_block};
use crate::syntax::{operands_text, operands_with, statement_text};
use job_script::operations::Operation;
use std::alloc::{AllocError, Global};
use std::marker::Model;

// Forms with bars between them, and the operands that each of them takes.
#[derive(Drop)]
struct Forms {
    forms: String,
    operands: String,
}

impl Model for Forms {
    ghost use Rattle.std.specs.Prelude.{string_bytes};
    ghost use Rattle.language_server.specs.Syntax.{FormsValue};

    ghost Value = { FormsValue };

    ghost view = { λ f. record { forms = string_bytes f.forms; operands = string_bytes f.operands } };
}

impl Forms {
    // Makes one of a form.
    fn new(alloc: Global, operation: Operation, form: &str) -> Result<Forms, AllocError>
        ensures { IfOk result
            (λ forms. forms ≡ group_of (operation_text operation) form.now) }
    {
        Ok(Forms {
            forms: String::from_str(alloc, form)?,
            operands: operands_with(alloc, operation, form.as_bytes())?,
        })
    }

    // Returns whether other forms take the same operands.
    fn is_same(&self, other: &Forms) -> bool
        ensures { result ≡ takes_same self.now other.now }
    {
        self.operands.as_bytes() == other.operands.as_bytes()
    }

    // Adds other forms.
    fn add(&mut self, other: &Forms) -> Result<(), AllocError>
        ensures forms { OnOk result
            (self.new.forms ≡ self.old.forms ++ codes "|" ++ other.now.forms) }
        ensures operands { self.new.operands ≡ self.old.operands }
    {
        self.forms.push_str("|")?;
        self.forms.push_str(&other.forms)
    }

    // Adds the syntax of the forms.
    fn push(
        &self,
        alloc: Global,
        found: &mut Vec<Paragraph>,
        operation: Operation,
    ) -> Result<(), AllocError>
        ensures { OnOk result (found.new.items
            ≡ found.old.items ++ block (forms_text (operation_text operation) self.now) ∷ []) }
    {
        let text = statement_text(alloc, operation, &self.forms, &self.operands)?;
        push_block(alloc, found, &text)
    }

    // Continues with another group: joins it if it takes the same operands, or else adds the syntax of this one.
    fn go_on(
        &mut self,
        alloc: Global,
        found: &mut Vec<Paragraph>,
        operation: Operation,
        next: Forms,
        is_same: bool,
    ) -> Result<(), AllocError>
        ensures group { OnOk result (self.new ≡ joined_groups is_same self.old next) }
        ensures blocks { OnOk result (found.new.items
            ≡ found.old.items ++ group_block is_same (operation_text operation) self.old) }
    {
        if is_same {
            self.add(&next)?;
            return Ok(());
        }
        self.push(alloc, found, operation)?;
        *self = next;
        Ok(())
    }

    // Continues with a form.
    fn next(
        &mut self,
        alloc: Global,
        found: &mut Vec<Paragraph>,
        operation: Operation,
        form: &str,
    ) -> Result<(), AllocError>
        ensures group { OnOk result (self.new
            ≡ joined_groups (takes_same self.old (group_of (operation_text operation) form.now)) self.old (group_of (operation_text operation) form.now)) }
        ensures blocks { OnOk result (found.new.items ≡ found.old.items
            ++ group_block (takes_same self.old (group_of (operation_text operation) form.now)) (operation_text operation) self.old) }
    {
        let next = Forms::new(alloc, operation, form)?;
        let is_same = self.is_same(&next);
        self.go_on(alloc, found, operation, next, is_same)
    }
}

// Adds the syntax of a group of forms, and of the forms after it.
fn push_from(
    alloc: Global,
    found: &mut Vec<Paragraph>,
    operation: Operation,
    first: Forms,
    rest: &[&str],
) -> Result<(), AllocError>
    ensures { OnOk result (found.new.items ≡ found.old.items
        ++ group_blocks (operation_text operation) first (map (λ form. form.now) rest.now)) }
{
    let mut forms = first;
    for form in rest {
        forms.next(alloc, found, operation, form)?;
    }
    forms.push(alloc, found, operation)
}

// Adds the syntax of some forms of an operation.
fn push_forms(
    alloc: Global,
    found: &mut Vec<Paragraph>,
    operation: Operation,
    forms: &[&str],
) -> Result<(), AllocError>
    ensures { OnOk result (found.new.items ≡ found.old.items
        ++ forms_blocks (operation_text operation) (map (λ form. form.now) forms.now)) }
{
    match forms {
        [] => Ok(()),
        [form, rest @ ..] => {
            let first = Forms::new(alloc, operation, form)?;
            push_from(alloc, found, operation, first, rest)
        }
    }
}

/// Adds the syntax of an operation.
pub fn push_syntax(
    alloc: Global,
    found: &mut Vec<Paragraph>,
    operation: Operation,
) -> Result<(), AllocError>
    ensures { OnOk result (found.new.items
        ≡ found.old.items ++ syntax_blocks (operation_text operation)) }
{
    match operation.row(b"") {
        Some(row) => {
            let operands = operands_text(alloc, row)?;
            let text = statement_text(alloc, operation, "", &operands)?;
            push_block(alloc, found, &text)
        }
        None => push_forms(alloc, found, operation, operation.forms()),
    }
}
