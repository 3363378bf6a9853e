//! Requests of cell pools.

use crate::cards::ProgramFault;
use crate::obtains::location;
use crate::step::{StepEntry, Writing};
use mvs_model::line::{Location, SourceRequest};
use mvs_model::name::Name;
use mvs_model::want::Loc;
use std::io::Write;

/// The parts of a pool that will be built.
#[derive(Clone, Copy)]
struct PoolPlan {
    number: u8,
    size: u32,
    primary: u32,
    secondary: u32,
    loc: Loc,
}

impl<W: Write> Writing<W> {
    // Loads register 3 with the identifier of a pool and register 4 with the size of its cells, or abends as where there is none.
    fn point_to_pool(&mut self, pool: &Name) -> Result<(), ProgramFault> {
        let label = self.pool(pool)?;
        self.point(5, &label)?;
        self.cards.code("CLI", "8(5),1")?;
        self.cards.branch("7", "NOPOOL")?;
        self.cards.code("L", "3,0(,5)")?;
        self.cards.code("L", "4,4(,5)")
    }

    fn build(
        &mut self,
        entry: &StepEntry,
        pool: &Name,
        plan: &PoolPlan,
    ) -> Result<(), ProgramFault> {
        let alloc = self.cards.alloc();
        let label = self.pool(pool)?;
        let PoolPlan {
            number,
            size,
            primary,
            secondary,
            loc,
        } = plan;
        let loc = location(*loc, self.names.residence(&entry.task));
        let operands = format!(in alloc;
            "BUILD,PCELLCT={primary},SCELLCT={secondary},CSIZE={size},SP={number},LOC={loc},CPID=(3)"
        )?;
        self.cards.code("CPOOL", &operands)?;
        self.point(5, &label)?;
        self.cards.code("ST", "3,0(,5)")?;
        self.load(4, *size)?;
        self.cards.code("ST", "4,4(,5)")?;
        self.cards.code("MVI", "8(5),1")?;
        self.cards.go("RC0")
    }

    fn get(&mut self, pool: &Name, conditional: bool, cell: &Name) -> Result<(), ProgramFault> {
        self.point_to_pool(pool)?;
        let how = if conditional { "COND" } else { "UNCOND" };
        let operands = format!(in self.cards.alloc(); "GET,{how},CPID=(3)")?;
        self.cards.code("CPOOL", &operands)?;
        self.cards.code("LTR", "1,1")?;
        self.cards.branch("8", "NOCELL")?;
        self.cards.code("LR", "0,4")?;
        self.set_area(cell)?;
        self.cards.go("CELL")
    }

    fn give(&mut self, pool: &Name, cell: &Location) -> Result<(), ProgramFault> {
        self.locate(2, cell)?;
        self.point_to_pool(pool)?;
        self.cards.code("CPOOL", "FREE,CPID=(3),CELL=(2)")?;
        self.cards.go("RC0")
    }

    fn delete(&mut self, pool: &Name) -> Result<(), ProgramFault> {
        self.point_to_pool(pool)?;
        self.cards.code("CPOOL", "DELETE,CPID=(3)")?;
        let label = self.pool(pool)?;
        self.point(5, &label)?;
        self.cards.code("MVI", "8(5),0")?;
        self.cards.go("RC0")
    }

    /// Writes a request of a pool.
    pub fn of_pool(
        &mut self,
        entry: &StepEntry,
        written: &SourceRequest,
    ) -> Result<(), ProgramFault> {
        match written {
            SourceRequest::Build {
                pool,
                number,
                size,
                primary,
                secondary,
                loc,
            } => {
                let plan = PoolPlan {
                    number: *number,
                    size: size.get(),
                    primary: primary.get(),
                    secondary: secondary.get(),
                    loc: *loc,
                };
                self.build(entry, pool, &plan)
            }
            SourceRequest::Get {
                pool,
                conditional,
                cell,
            } => self.get(pool, *conditional, cell),
            SourceRequest::Free { pool, cell } => self.give(pool, cell),
            SourceRequest::Delete { pool } => self.delete(pool),
            _ => Ok(()),
        }
    }
}
