//! Requests for cells of cell pools (Assembler Services Reference, CPOOL).

ghost use Rattle.std.specs.Prelude.{◌≡◌, true, IfOk, OnOk};
ghost use Rattle.std.specs.FinMap.{get};
ghost use Rattle.mvs_model.specs.declared.name.Name.{Name as TheName};
ghost use Rattle.mvs_model.specs.declared.request.Reply.TheVariants.{Cell, Rc0};
ghost use Rattle.mvs_model.specs.declared.request.Request.TheVariants as request;
ghost use Rattle.request_forms.specs.Machine.{IsTask, task_name};
ghost use Rattle.mvs_model.specs.Subpool.{IsSubpoolNumber};
ghost use Rattle.mvs_model.specs.Steps.{Tries, TriesPlan};
ghost use Rattle.mvs_model.specs.Requests.{residence_of};
ghost use Rattle.mvs_model.specs.Want.{side_of};
ghost use Rattle.request_forms.specs.Taking.{TakesCell, TakesPool, further_of};

use crate::machine::Machine;
use crate::obtain::subpool_number;
use crate::obtain_list::first_hint;
use boundary_loc::side;
use cell_pool::Plan;
use mvs_model::bounded::{CellCount, CellSize};
use mvs_model::name::Name;
use mvs_model::place::{Addr, Place};
use mvs_model::refusal::Refusal;
use mvs_model::subpool::SubNo;
use mvs_model::want::Loc;
use task_owner::TaskId;

// Returns the hint for the first cell of a further part.
fn further_hint(hints: &[Addr]) -> Option<Addr>
    ensures { result ≡ further_of hints.now }
{
    match hints {
        [_, first, ..] => Some(*first),
        [cell] => Some(*cell),
        [] => None,
    }
}

impl Machine {
    /// Returns what a BUILD of the task plans: a first part of `primary` cells of `size` bytes, and `secondary` cells for each
    /// further part.
    pub fn plan(
        &self,
        t: TaskId,
        size: CellSize,
        primary: CellCount,
        secondary: CellCount,
        loc: Loc,
    ) -> Plan
        requires { IsTask self.now t }
        ensures { let side = side_of loc (residence_of self.now.state.owners (task_name self.now t)) in result
            ≡ record { cell_size = size; primary = primary; secondary = secondary; side = side } }
    {
        Plan {
            cell_size: size,
            primary,
            secondary,
            side: side(loc, self.tasks.residence(t)),
        }
    }

    // Makes a pool in the subpool for a task's number. If there is no such subpool, it is made, but only if the pool is made.
    fn build_pool(
        &mut self,
        t: TaskId,
        number: SubNo,
        pool: &Name,
        plan: &Plan,
        hints: Option<Addr>,
    ) -> Result<(), Refusal>
        requires active { IsTask self.old t }
        requires valid { IsSubpoolNumber number }
        ensures answer { TriesPlan self.old.state (task_name self.old t) pool.now number plan.now result self.new.state }
        ensures hints { OnOk result
            (TakesPool self.old.state (task_name self.old t) number pool.now plan.now hints self.new.state) }
    {
        match self.tasks.subpool(t, number) {
            Some(subpool) => self
                .pools
                .build(&mut self.store, pool, subpool, plan, hints),
            None => {
                let subpool = self.tasks.spare(t, number);
                let built = self
                    .pools
                    .build(&mut self.store, pool, subpool, plan, hints);
                if built.is_ok() {
                    self.tasks.bind(t, number, subpool);
                }
                built
            }
        }
    }

    /// Executes CPOOL BUILD: creates a pool with its first part, and the first cell at the hinted address if the machine allows that.
    pub fn build(
        &mut self,
        t: TaskId,
        number: u8,
        pool: &Name,
        plan: &Plan,
        hints: Option<Addr>,
    ) -> Result<(), Refusal>
        requires { IsTask self.old t }
        ensures answer { TriesPlan self.old.state (task_name self.old t) pool.now number plan.now result self.new.state }
        ensures hints { OnOk result
            (TakesPool self.old.state (task_name self.old t) number pool.now plan.now hints self.new.state) }
    {
        let number = subpool_number(number)?;
        self.build_pool(t, number, pool, plan, hints)
    }

    /// Executes CPOOL GET: allocates a free cell of the pool. If none is free, a conditional request is refused, and another one gets a cell
    /// of a further part. If the machine allows that, the cell is at the first hint, and the first cell of a further part at the
    /// second one or, if there is only one, at that.
    pub fn get(&mut self, pool: &Name, conditional: bool, hints: &[Addr]) -> Result<Place, Refusal>
        ensures answer { (t : TheName)
            → Tries Cell self.old.state t (request.Get pool.now conditional) result self.new.state }
        ensures hints { IfOk result (TakesCell self.old.state pool.now hints.now) }
    {
        let cell = first_hint(hints);
        let first = further_hint(hints);
        self.pools
            .get(&mut self.store, pool, conditional, cell, first)
    }

    /// Executes CPOOL FREE: gives back an allocated cell of the pool.
    pub fn free(&mut self, pool: &Name, cell: Addr) -> Result<(), Refusal>
        ensures { (t : TheName)
            → Tries (λ _. Rc0) self.old.state t (request.Free pool.now cell) result self.new.state }
    {
        self.pools.free(&mut self.store, pool, cell)
    }

    /// Executes CPOOL DELETE: deletes the pool with all its parts.
    pub fn delete(&mut self, pool: &Name) -> Result<(), Refusal>
        ensures { (t : TheName)
            → Tries (λ _. Rc0) self.old.state t (request.Delete pool.now) result self.new.state }
    {
        self.pools.delete(&mut self.store, pool)
    }
}
