//! The active tasks and the cell pools of a step, one by one.

ghost use Rattle.std.specs.Prelude.{◌≡◌};
ghost use Rattle.std.specs.FinMap.{get};
ghost use Rattle.mvs_model.specs.NextName.{IsNextName};
ghost use Rattle.task_owner.specs.Tasks.{mother_of};

use crate::machine::Machine;
use mvs_model::name::Name;

impl Machine {
    /// Returns the name of the first active task in byte order after the given one, or of the first of all where none is given.
    pub fn next_task(&self, given: &Option<Name>) -> Option<Name>
        ensures { IsNextName (get self.now.state.owners.tasks) given.now result }
    {
        self.tasks.next_task(given)
    }

    /// Returns the name of the task that attached the active task of this name. The job step task has none.
    pub fn mother(&self, name: &Name) -> Option<Option<Name>>
        ensures { result ≡ mother_of self.now.state.owners name.now }
    {
        let t = self.tasks.find(name)?;
        Some(self.tasks.mother(t))
    }

    /// Returns the name of the first pool in byte order after the given one, or of the first of all where none is given.
    pub fn next_pool(&self, given: &Option<Name>) -> Option<Name>
        ensures { IsNextName (get self.now.state.pools) given.now result }
    {
        self.pools.next_pool(given)
    }
}
