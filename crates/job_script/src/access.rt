//! PUT, SHOW, MOVE and WHERE, this project's own statements.

ghost use Rattle.std.specs.Prelude.{◌≡◌, []};
ghost use Rattle.mvs_model.specs.Grammar.{Puts, Shows, Moves, AsksWhere};
ghost use Rattle.mvs_model.specs.Numbers.{most_shown};
ghost use Rattle.mvs_model.specs.Reading.{statement_of};
ghost use Rattle.job_script.specs.GivenOperands.{IsRead, by_place};
ghost use Rattle.job_script.specs.Values.{IsSomeBytes};
ghost use Rattle.job_script.specs.LineMeaning.{filled, line_of_task, Holds, IsRanged, IsNamed, IsLocated};

use crate::addresses::{location, name};
use crate::digits::bounded;
use crate::given::GivenOperands;
use crate::values::bytes;
use mvs_model::line::{Fault, Line, SourceRequest, Statement};
use mvs_model::name::Name;

impl GivenOperands<'_> {
    /// Reads PUT.
    pub fn put(&self, task: Name, line: &mut Line) -> Result<(), Fault>
        requires read { IsRead self.now }
        requires to { Holds (IsLocated) ((by_place self.now).at 0) }
        requires bytes { Holds (IsSomeBytes) ((by_place self.now).at 1) }
        ensures { filled line.new result
            ≡ line_of_task task (statement_of Puts [] (by_place self.now)) }
    {
        let to = self.required_at(0)?;
        let digits = self.required_at(1)?;
        *line = Line::Statement(
            task,
            Statement::Request(SourceRequest::Put {
                to: location(to),
                bytes: bytes(digits),
            }),
        );
        Ok(())
    }

    /// Reads SHOW.
    pub fn show(&self, task: Name, line: &mut Line) -> Result<(), Fault>
        requires read { IsRead self.now }
        requires from { Holds (IsLocated) ((by_place self.now).at 0) }
        requires len { Holds (IsRanged 1 most_shown) ((by_place self.now).at 1) }
        ensures { filled line.new result
            ≡ line_of_task task (statement_of Shows [] (by_place self.now)) }
    {
        let from = self.required_at(0)?;
        let len = self.required_at(1)?;
        *line = Line::Statement(
            task,
            Statement::Request(SourceRequest::Show {
                from: location(from),
                len: bounded(len),
            }),
        );
        Ok(())
    }

    /// Reads MOVE.
    pub fn move_bytes(&self, task: Name, line: &mut Line) -> Result<(), Fault>
        requires read { IsRead self.now }
        requires to { Holds (IsLocated) ((by_place self.now).at 0) }
        requires from { Holds (IsLocated) ((by_place self.now).at 1) }
        requires len { Holds (IsRanged 1 65536) ((by_place self.now).at 2) }
        ensures { filled line.new result
            ≡ line_of_task task (statement_of Moves [] (by_place self.now)) }
    {
        let to = self.required_at(0)?;
        let from = self.required_at(1)?;
        let len = self.required_at(2)?;
        *line = Line::Statement(
            task,
            Statement::Request(SourceRequest::Move {
                to: location(to),
                from: location(from),
                len: bounded(len),
            }),
        );
        Ok(())
    }

    /// Reads WHERE.
    pub fn ask_where(&self, task: Name, line: &mut Line) -> Result<(), Fault>
        requires read { IsRead self.now }
        requires area { Holds (IsNamed) ((by_place self.now).at 0) }
        ensures { filled line.new result
            ≡ line_of_task task (statement_of AsksWhere [] (by_place self.now)) }
    {
        let area = self.required_at(0)?;
        *line = Line::Statement(task, Statement::Where(name(area)));
        Ok(())
    }
}
