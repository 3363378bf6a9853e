//! The parts of the machine, and its state as one value.

ghost use Rattle.std.specs.Prelude.{◌≡◌, Some, is_some, IfOk, IfSome};
ghost use Rattle.mvs_model.specs.Owners.{is_active};
ghost use Rattle.mvs_model.specs.Start.{start};
ghost use Rattle.task_owner.specs.Tasks.{name_at};
ghost use Rattle.request_forms.specs.Machine.{tasks_in};

use cell_pool::Pools;
use mvs_model::card::Card;
use mvs_model::error::OutOfMemory;
use mvs_model::name::Name;
use mvs_model::want::Placement;
use std::alloc::Global;
use std::marker::Model;
use subpool_store::Store;
use task_owner::{TaskId, Tasks};

/// The storage, the tasks and the cell pools of a step.
#[derive(Drop)]
pub struct Machine {
    pub(crate) store: Store,
    pub(crate) tasks: Tasks,
    pub(crate) pools: Pools,
}

impl Model for Machine {
    ghost use Rattle.cell_pool.specs.Agree.{Agree};
    ghost use Rattle.request_forms.specs.Machine.{MachineValue, machine_code, machine_state};

    ghost Value = { MachineValue };

    ghost coded = { machine_code };

    ghost view = { λ m. record {
      state = machine_state m.pools m.store.storage m.tasks.owners;
      names = m.tasks.names;
    } };

    ghost invariant = { λ m. Agree m.pools m.store.storage };
}

impl Machine {
    /// Makes the machine at the start of a step: only the job step task is active, nothing is held, and there are no pools.
    pub fn new(alloc: Global, card: &Card, placement: Placement) -> Result<Machine, OutOfMemory>
        ensures { IfOk result (λ m. m.state ≡ start card.now) }
    {
        let store = Store::new(alloc, card.below(), card.above(), card.fill(), placement)?;
        let tasks = Tasks::new(alloc, card.name(), card.residence())?;
        let pools = Pools::new(alloc)?;
        Ok(Machine {
            store,
            tasks,
            pools,
        })
    }

    /// Returns the active task of a name. It refers to the same task until that task ends.
    pub fn find(&self, name: &Name) -> Option<TaskId>
        ensures active { is_some result ≡ is_active self.now.state.owners name.now }
        ensures named { IfSome result (λ t. name_at (tasks_in self.now) t ≡ Some name.now) }
    {
        self.tasks.find(name)
    }

    /// Returns a copy, in which each `TaskId` refers to the same task. It fails if memory is exhausted.
    pub fn try_clone(&self) -> Result<Machine, OutOfMemory>
        ensures { IfOk result (λ copy. copy ≡ self.now) }
    {
        Ok(Machine {
            store: self.store.try_clone()?,
            tasks: self.tasks.try_clone()?,
            pools: self.pools.try_clone()?,
        })
    }
}
