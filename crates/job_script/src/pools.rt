//! The statements on cell pools (Assembler Services Reference, CPOOL).

ghost use Rattle.std.specs.Prelude.{◌≡◌, [], codes};
ghost use Rattle.mvs_model.specs.Grammar.{BuildsPool, GetsCell, FreesCell, DeletesPool};
ghost use Rattle.mvs_model.specs.Reading.{is_conditional, statement_of};
ghost use Rattle.job_script.specs.GivenOperands.{IsRead, by_place};
ghost use Rattle.job_script.specs.LineMeaning.{filled, line_of_task, Holds, IsRanged, IsNamed, IsLocated};

use crate::addresses::{location, name};
use crate::digits::bounded;
use crate::given::GivenOperands;
use crate::keys::Key;
use mvs_model::bounded::CellCount;
use mvs_model::line::{Fault, Line, SourceRequest, Statement};
use mvs_model::name::Name;

impl GivenOperands<'_> {
    // Returns whether the keyword after CPOOL GET makes it conditional.
    fn is_conditional(&self) -> bool
        requires { IsRead self.now }
        ensures { result ≡ is_conditional ((by_place self.now).at 0) }
    {
        match self.positional(0) {
            None => false,
            Some(word) => word == b"COND".as_slice() || word == b"C".as_slice(),
        }
    }

    /// Reads CPOOL BUILD.
    pub fn build(&self, task: Name, line: &mut Line) -> Result<(), Fault>
        requires read { IsRead self.now }
        requires pool { Holds (IsNamed) ((by_place self.now).under (codes "CPID")) }
        requires size { Holds (IsRanged 4 65536) ((by_place self.now).under (codes "CSIZE")) }
        requires count { Holds (IsRanged 1 65536) ((by_place self.now).under (codes "PCELLCT")) }
        requires more { Holds (IsRanged 1 65536) ((by_place self.now).under (codes "SCELLCT")) }
        ensures { filled line.new result
            ≡ line_of_task task (statement_of BuildsPool [] (by_place self.now)) }
    {
        let pool = self.required(Key::Cpid)?;
        let size = self.required(Key::Csize)?;
        let count = self.required(Key::Pcellct)?;
        let primary: CellCount = bounded(count);
        *line = Line::Statement(
            task,
            Statement::Request(SourceRequest::Build {
                pool: name(pool),
                number: self.subpool(),
                size: bounded(size),
                primary,
                secondary: self.number_or(Key::Scellct, primary),
                loc: self.loc(),
            }),
        );
        Ok(())
    }

    /// Reads CPOOL GET.
    pub fn get(&self, task: Name, line: &mut Line) -> Result<(), Fault>
        requires read { IsRead self.now }
        requires pool { Holds (IsNamed) ((by_place self.now).under (codes "CPID")) }
        requires cell { Holds (IsNamed) ((by_place self.now).under (codes "CELL")) }
        ensures { filled line.new result
            ≡ line_of_task task (statement_of GetsCell [] (by_place self.now)) }
    {
        let pool = self.required(Key::Cpid)?;
        let cell = self.required(Key::Cell)?;
        *line = Line::Statement(
            task,
            Statement::Request(SourceRequest::Get {
                pool: name(pool),
                conditional: self.is_conditional(),
                cell: name(cell),
            }),
        );
        Ok(())
    }

    /// Reads CPOOL FREE.
    pub fn free(&self, task: Name, line: &mut Line) -> Result<(), Fault>
        requires read { IsRead self.now }
        requires pool { Holds (IsNamed) ((by_place self.now).under (codes "CPID")) }
        requires cell { Holds (IsLocated) ((by_place self.now).under (codes "CELL")) }
        ensures { filled line.new result
            ≡ line_of_task task (statement_of FreesCell [] (by_place self.now)) }
    {
        let pool = self.required(Key::Cpid)?;
        let cell = self.required(Key::Cell)?;
        *line = Line::Statement(
            task,
            Statement::Request(SourceRequest::Free {
                pool: name(pool),
                cell: location(cell),
            }),
        );
        Ok(())
    }

    /// Reads CPOOL DELETE.
    pub fn delete(&self, task: Name, line: &mut Line) -> Result<(), Fault>
        requires read { IsRead self.now }
        requires pool { Holds (IsNamed) ((by_place self.now).under (codes "CPID")) }
        ensures { filled line.new result
            ≡ line_of_task task (statement_of DeletesPool [] (by_place self.now)) }
    {
        let pool = self.required(Key::Cpid)?;
        *line = Line::Statement(
            task,
            Statement::Request(SourceRequest::Delete { pool: name(pool) }),
        );
        Ok(())
    }
}
