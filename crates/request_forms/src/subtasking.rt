//! Subtasks, and the end of a task (Assembler Services Guide, subtasking).

ghost use Rattle.std.specs.Prelude.{◌≡◌, true, not};
ghost use Rattle.std.specs.FinMap.{get};
ghost use Rattle.mvs_model.specs.Finite.{Keeps};
ghost use Rattle.mvs_model.specs.Storage.{ReleaseEach, is_one_of};
ghost use Rattle.cell_pool.specs.Agree.{Agree};
ghost use Rattle.cell_pool.specs.Roots.{pools_of};
ghost use Rattle.request_forms.specs.Machine.{IsTask, task_name};
ghost use Rattle.mvs_model.specs.Changes.{End};
ghost use Rattle.mvs_model.specs.Steps.{Tries};
ghost use Rattle.mvs_model.specs.declared.request.Request.TheVariants as request;
ghost use Rattle.mvs_model.specs.declared.request.Reply.TheVariants.{Attached, Ended};

use crate::machine::Machine;
use cell_pool::Pools;
use mvs_model::gifts::Gifts;
use mvs_model::name::Name;
use mvs_model::refusal::Refusal;
use mvs_model::request::Fallen;
use mvs_model::subpool_set::SubpoolSet;
use mvs_model::want::Residence;
use subpool_store::Store;
use task_owner::TaskId;

// Releases everything that some subpools hold, and deletes their cell pools.
fn release_each(store: &mut Store, pools: &mut Pools, subpools: &SubpoolSet)
    requires { Agree pools.old store.old.storage }
    ensures released { ReleaseEach store.old.storage subpools.now store.new.storage }
    ensures gone { Keeps (get (pools_of pools.old store.old.storage))
        (λ _ p. not (is_one_of subpools.now p.subpool))
        (get (pools_of pools.new store.new.storage)) }
    ensures agree { Agree pools.new store.new.storage }
{
    if subpools.is_empty() {
        return;
    }
    pools.drop_subpools(subpools);
    store.release_each(subpools);
}

impl Machine {
    /// Ends a task that abends, with its descendants and what they own. The result is the descendants.
    pub fn abend(&mut self, t: TaskId) -> Fallen
        requires { IsTask self.old t }
        ensures { (e : End self.old.state (task_name self.old t) self.new.state) × (result ≡ e.fallen) }
    {
        let gone = self.tasks.end(t);
        release_each(&mut self.store, &mut self.pools, &gone.freed);
        gone.fallen
    }

    /// Executes RETURN: ends the task. With an active subtask it is refused (System Codes, A03).
    pub fn finish(&mut self, t: TaskId) -> Result<(), Refusal>
        requires { IsTask self.old t }
        ensures { Tries (λ _. Ended) self.old.state (task_name self.old t) request.Return result self.new.state }
    {
        if self.tasks.has_active_subtasks(t) {
            return Err(Refusal::ActiveSubtask);
        }
        let freed = self.tasks.end_alone(t);
        release_each(&mut self.store, &mut self.pools, &freed);
        Ok(())
    }

    /// Executes ATTACH (Assembler Services Reference).
    pub fn attach(
        &mut self,
        t: TaskId,
        name: &Name,
        gifts: &Gifts,
        residence: Residence,
    ) -> Result<(), Refusal>
        requires { IsTask self.old t }
        ensures { Tries (λ _. Attached) self.old.state (task_name self.old t)
            (request.Attach name.now gifts.now residence) result self.new.state }
    {
        self.tasks.attach(t, name, gifts, residence)?;
        Ok(())
    }
}
