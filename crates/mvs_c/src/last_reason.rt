//! Why the last request was refused.

ghost use Rattle.std.specs.Prelude.{◌≡◌};
ghost use Rattle.mvs_c.specs.Reasons.{no_why};
ghost use Rattle.mvs_c.specs.Why.{IsWhy};

use crate::reason::{ReasonFields, reason_fields};
use explanation::reason_text;
use line_text::text::LineText;
use mvs_job::{Job, Observer};
use mvs_model::name::Name;
use mvs_model::reason::{LineReason, Shortfall};
use mvs_model::refusal::Refusal;
use mvs_model::request::Request;
use std::marker::Model;

/// Why the last request was refused: the line that says it, and the fields. If the request was granted, the line is empty.
#[derive(Drop)]
pub struct LastReason {
    text: LineText,
    fields: Option<ReasonFields>,
}

impl Model for LastReason {
    ghost use Rattle.mvs_c.specs.Reasons.{WhyValue, why_code};

    ghost Value = { WhyValue };

    ghost coded = { why_code };

    ghost view = { λ w. record { text = w.text; fields = w.fields } };
}

impl Observer for LastReason {
    ghost heard = { λ old job t request refusal left new. IsWhy job t request refusal new };

    fn refused(
        &mut self,
        job: &Job,
        task: &Name,
        request: &Request,
        refusal: Refusal,
        left: &Shortfall,
    ) {
        let reason = job.step().details(task, request, refusal, left);
        self.text = reason_text(task, request, &LineReason::Refused(reason));
        self.fields = Some(reason_fields(task, request, &reason));
    }
}

impl LastReason {
    /// Makes one without a reason.
    pub fn new() -> LastReason
        ensures { result ≡ no_why }
    {
        LastReason {
            text: LineText::new(),
            fields: None,
        }
    }

    /// Removes the reason.
    pub fn clear(&mut self)
        ensures { self.new ≡ no_why }
    {
        self.text.cut(0);
        // Most requests are granted, and leave nothing to remove.
        if self.fields.is_some() {
            self.fields = None;
        }
    }

    /// Returns the line. It ends with a newline.
    pub fn as_slice(&self) -> &[u8]
        ensures { result.now ≡ self.now.text }
    {
        self.text.as_slice()
    }

    /// Returns the fields.
    pub fn fields(&self) -> Option<ReasonFields>
        ensures { result ≡ self.now.fields }
    {
        self.fields
    }

    /// Returns a copy.
    pub fn copied(&self) -> LastReason
        ensures { result ≡ self.now }
    {
        LastReason {
            text: self.text.copied(),
            fields: self.fields,
        }
    }
}
