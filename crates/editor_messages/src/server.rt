//! A server: messages in, messages out.

ghost use Rattle.std.specs.Prelude.{◌≡◌, ℕ, List, IfOk, MatchResult, None, false, length, option_map, true};
ghost use Rattle.std.specs.Str.{IsUtf8};
ghost use Rattle.json.specs.Json.{null};
ghost use Rattle.json.specs.Tree.{HasNumbers};
ghost use Rattle.json.specs.Value.{value_view};
ghost use Rattle.editor_messages.specs.Frames.{IsWithin};
ghost use Rattle.editor_messages.specs.Messages.{json_of, meaning_of};
ghost use Rattle.editor_messages.specs.Protocol.{kind_of, of_notification, of_request, status_of};
ghost use Rattle.editor_messages.specs.Queries.{QueryValue, NoticeValue, query_value, notice_of, notice_value, query_of};
ghost use Rattle.editor_messages.specs.Serving.{IsAnswerTurn, IsFrameTurn, IsNoticeTurn, IsNoticeOf, IsPublished, IsRefused, IsRequestTurn, IsServedTurn, IsTurn, IsTurnOf, exit_of, sent_of};

use crate::cancelled::is_cancelled;
use crate::frames::{Frame, after};
use crate::message::{ClientMessage, Id, message_of};
use crate::method::Method;
use crate::protocol::{ErrorCode, MethodKind, NoticeStep, Phase};
use crate::query::{Notice, Query};
use crate::sent::{error_frame, notice_frame, result_frame};
use json::{Scratch, Value};
use std::alloc::{AllocError, Global};
use std::marker::Model;
use std::str;

/// What gives the answers of a server.
pub trait Answers {
    // It may answer this with these bytes, which are JSON.
    ghost may_answer: { Self → QueryValue → List ℕ → Type 0 };

    // It may need memory for this that it lacks.
    ghost may_lack: { Self → QueryValue → Type 0 };

    // It may be this after a notification, with these parameters of the diagnostics that are sent.
    ghost may_notice: { Self → NoticeValue → Self → List ℕ → Type 0 };

    /// Returns the result of a request, as JSON.
    fn answer(&self, query: &Query<'_>) -> Result<Vec<u8>, AllocError>
        ensures { MatchResult result
            (λ body. may_answer self.now (query_value query.now) body.items)
            (λ _. may_lack self.now (query_value query.now)) };

    /// Does what a notification says, and returns the parameters of the diagnostics that are sent for it, as JSON.
    fn notice(&mut self, notice: &Notice<'_>) -> Result<Vec<u8>, AllocError>
        ensures { IfOk result
            (λ params. may_notice self.old (notice_value notice.now) self.new params.items) };
}

/// What a server does for a message.
#[derive(Drop)]
pub enum Turn {
    /// It sends these bytes.
    Sent(Vec<u8>),
    /// It ends with a status.
    Exit(u8),
}

/// A server.
#[derive(Drop)]
pub struct Server<A> {
    alloc: Global,
    phase: Phase,
    answers: A,
}

impl<A> Model for Server<A> {
    ghost use Rattle.editor_messages.specs.Serving.{Moment};

    ghost Value = { Moment A };

    ghost view = { λ s. record { phase = s.phase; answers = s.answers } };
}

impl<A: Answers> Server<A> {
    /// Makes one before the request `initialize`.
    pub fn new(alloc: Global, answers: A) -> Server<A>
        ensures phase { result.phase ≡ Phase.Waiting }
        ensures answers { result.answers ≡ answers }
    {
        Server {
            alloc,
            phase: Phase::Waiting,
            answers,
        }
    }

    /// Returns the exit status of a server whose input ends.
    pub fn status(&self) -> u8
        ensures { result ≡ status_of self.now.phase }
    {
        self.phase.status()
    }

    // Answers a request, and returns the response.
    fn reply(
        &mut self,
        id: &Id<'_>,
        method: Method,
        query: &Query<'_>,
    ) -> Result<Vec<u8>, AllocError>
        requires { HasNumbers (json_of id.now) }
        ensures { IfOk result
            (λ sent. IsAnswerTurn A.may_answer A.may_lack A.may_notice (json_of id.now) method
            (query_value query.now) self.old sent.items None self.new) }
    {
        match self.answers.answer(query) {
            Ok(body) => {
                let sent = result_frame(self.alloc, id, &body)?;
                self.phase = self.phase.after(method.kind(true));
                Ok(sent)
            }
            Err(_) => error_frame(self.alloc, id, ErrorCode::InternalError),
        }
    }

    // Serves a request that has no error yet, and returns the response.
    fn serve(
        &mut self,
        id: &Id<'_>,
        method: Method,
        params: Option<&Value<'_>>,
    ) -> Result<Vec<u8>, AllocError>
        requires { HasNumbers (json_of id.now) }
        ensures { IfOk result
            (λ sent. IsServedTurn A.may_answer A.may_lack A.may_notice
            (query_of method (option_map (λ v. value_view v.now) params.entry)) (json_of id.now)
            method self.old sent.items None self.new) }
    {
        match method.query(params) {
            Some(query) => self.reply(id, method, &query),
            None => error_frame(self.alloc, id, ErrorCode::InvalidParams),
        }
    }

    // Returns the response to a request. The next bytes have arrived already.
    fn request(
        &mut self,
        id: &Id<'_>,
        method: Method,
        params: Option<&Value<'_>>,
        arrived: &[u8],
    ) -> Result<Vec<u8>, AllocError>
        requires { HasNumbers (json_of id.now) }
        ensures { IfOk result
            (λ sent. IsRequestTurn A.may_answer A.may_lack A.may_notice
            (of_request self.old.phase (kind_of true method)) (json_of id.now) method
            (option_map (λ v. value_view v.now) params.entry) arrived.now self.old sent.items None
            self.new) }
    {
        let kind = method.kind(true);
        if let Err(error) = self.phase.request(kind) {
            return error_frame(self.alloc, id, error);
        }
        if kind == MethodKind::Known && is_cancelled(self.alloc, arrived, id) {
            return error_frame(self.alloc, id, ErrorCode::RequestCancelled);
        }
        self.serve(id, method, params)
    }

    // Does what a notification says, and returns the diagnostics that are sent for it.
    fn publish(&mut self, notice: &Notice<'_>) -> Result<Vec<u8>, AllocError>
        ensures { IfOk result
            (λ sent. IsPublished A.may_answer A.may_lack A.may_notice (notice_value notice.now)
            self.old sent.items None self.new) }
    {
        let params = self.answers.notice(notice)?;
        notice_frame(self.alloc, &params)
    }

    // Does what a notification asks, and returns what is sent for it.
    fn serve_notice(
        &mut self,
        method: Method,
        params: Option<&Value<'_>>,
    ) -> Result<Vec<u8>, AllocError>
        ensures { IfOk result
            (λ sent. IsNoticeOf A.may_answer A.may_lack A.may_notice
            (notice_of method (option_map (λ v. value_view v.now) params.entry)) self.old sent.items
            None self.new) }
    {
        match method.notice(params) {
            Some(notice) => self.publish(&notice),
            None => Ok(Vec::new(self.alloc)),
        }
    }

    // Does what a server does with a notification.
    fn notification(
        &mut self,
        method: Method,
        params: Option<&Value<'_>>,
    ) -> Result<Turn, AllocError>
        ensures { IfOk result
            (λ turn. IsNoticeTurn A.may_answer A.may_lack A.may_notice
            (of_notification self.old.phase (kind_of false method)) method
            (option_map (λ v. value_view v.now) params.entry) self.old (sent_of turn) (exit_of turn)
            self.new) }
    {
        match self.phase.notification(method.kind(false)) {
            NoticeStep::Serve => Ok(Turn::Sent(self.serve_notice(method, params)?)),
            NoticeStep::Drop => Ok(Turn::Sent(Vec::new(self.alloc))),
            NoticeStep::Exit(status) => Ok(Turn::Exit(status)),
        }
    }

    // Returns what a server does for a message. The next bytes have arrived already.
    fn message(&mut self, value: &Value<'_>, arrived: &[u8]) -> Result<Turn, AllocError>
        requires { HasNumbers (value_view value.now) }
        ensures { IfOk result
            (λ turn. IsTurnOf A.may_answer A.may_lack A.may_notice (meaning_of (value_view value.now))
            arrived.now self.old (sent_of turn) (exit_of turn) self.new) }
    {
        match message_of(value) {
            ClientMessage::Request(id, name, params) => {
                let sent = self.request(&id, Method::named(name), params, arrived)?;
                Ok(Turn::Sent(sent))
            }
            ClientMessage::Notification(name, params) => self.notification(
                Method::named(name),
                params,
            ),
            ClientMessage::Response => Ok(Turn::Sent(Vec::new(self.alloc))),
            ClientMessage::Malformed(id) => {
                let sent = error_frame(self.alloc, &id, ErrorCode::InvalidRequest)?;
                Ok(Turn::Sent(sent))
            }
        }
    }

    // Returns the error that has no identifier.
    fn refuse(&self, error: ErrorCode) -> Result<Turn, AllocError>
        ensures { IfOk result
            (λ turn. IsRefused null error self.now (sent_of turn)
            (exit_of turn) self.now) }
    {
        let sent = error_frame(self.alloc, &Id::Null, error)?;
        Ok(Turn::Sent(sent))
    }

    // Returns what a server does for the text of a message.
    fn text(&mut self, text: &str, arrived: &[u8]) -> Result<Turn, AllocError>
        requires { IsUtf8 text.now }
        ensures { IfOk result
            (λ turn. IsTurn A.may_answer A.may_lack A.may_notice text.now arrived.now self.old
            (sent_of turn) (exit_of turn) self.new) }
    {
        let mut scratch = Scratch::new(self.alloc);
        let parsed = Value::parse(self.alloc, text, &mut scratch);
        if let Err(json::Error::Invalid) = parsed {
            return self.refuse(ErrorCode::ParseError);
        }
        let value = parsed.map_err(|_| AllocError)?;
        self.message(&value, arrived)
    }

    // Returns what a server does for the content of a message.
    fn content(&mut self, content: &[u8], arrived: &[u8]) -> Result<Turn, AllocError>
        ensures { IfOk result
            (λ turn. IsTurn A.may_answer A.may_lack A.may_notice content.now arrived.now self.old
            (sent_of turn) (exit_of turn) self.new) }
    {
        match str::from_utf8(content) {
            Ok(text) => self.text(text, arrived),
            Err(_) => self.refuse(ErrorCode::ParseError),
        }
    }

    /// Returns what a server does for the frame with which bytes begin that have arrived.
    pub fn turn(&mut self, arrived: &[u8], frame: Frame) -> Result<Turn, AllocError>
        requires { IsWithin frame (length arrived.now) }
        ensures { IfOk result
            (λ turn. IsFrameTurn A.may_answer A.may_lack A.may_notice frame arrived.now self.old (sent_of turn)
            (exit_of turn) self.new) }
    {
        match frame {
            Frame::Incomplete => Ok(Turn::Sent(Vec::new(self.alloc))),
            Frame::Content(start, end) => self.content(&arrived[start..end], after(arrived, end)),
            Frame::NoLength(_) => self.refuse(ErrorCode::ParseError),
            Frame::TooLong(..) => self.refuse(ErrorCode::InvalidRequest),
        }
    }
}
