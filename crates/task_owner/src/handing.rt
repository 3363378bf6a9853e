//! What a mother hands over to a subtask.

ghost use Rattle.std.specs.Prelude.{◌≡◌, ◌≢◌, ◌<◌, ℕ, true, IsSome, Some, length};
ghost use Rattle.slab.specs.Slab.{get, slab_len};
ghost use Rattle.mvs_model.specs.Gifts.{gives};
ghost use Rattle.mvs_model.specs.Numbers.{most_subpools, subpool_numbers};
ghost use Rattle.task_owner.specs.Seats.{item_at};
ghost use Rattle.task_owner.specs.Handing.{taken, left_over, with_given, with_shared, is_handed, owned_anew, passed_on, Leaves};
ghost use Rattle.task_owner.specs.declared.task_slot.TaskSlot.{TaskSlot};
ghost use Rattle.task_owner.specs.declared.task_slot.Owned.{Owned};

use crate::task_slot::{OwnNumbers, Owned, SLOTS, TaskSlot};
use mvs_model::gifts::Gifts;
use mvs_model::subpool::SubpoolId;
use slab::Slab;

// Copies the entries of shared numbers to a subtask.
fn share(numbers: &OwnNumbers, gifts: &Gifts, subtask: &mut OwnNumbers)
    ensures { (n : ℕ) → n < subpool_numbers
        → item_at subtask.new n ≡ with_shared gifts.now numbers.now subtask.old n }
{
    let mut from = 0;
    'shared: while let Some(number) = gifts.first_shared(from) {
        subtask[number as usize] = numbers[number as usize];
        from = number + 1;
    }
}

// Moves the entries of given numbers to a subtask.
fn give(numbers: &mut OwnNumbers, gifts: &Gifts, subtask: &mut OwnNumbers)
    ensures left { (n : ℕ) → n < subpool_numbers
        → item_at numbers.new n ≡ left_over gifts.now numbers.old n }
    ensures given { (n : ℕ) → n < subpool_numbers
        → item_at subtask.new n ≡ with_given gifts.now numbers.old subtask.old n }
{
    let mut from = 0;
    'given: while let Some(number) = gifts.first_given(from) {
        subtask[number as usize] = numbers[number as usize];
        numbers[number as usize] = None;
        from = number + 1;
    }
}

// Takes what the task at the key gives; what it gives and shares.
pub(crate) fn hand_over(active: &mut Slab<TaskSlot>, mother: usize, gifts: &Gifts) -> OwnNumbers
    requires { IsSome (get active.old mother) }
    ensures taken { (x : TaskSlot) → get active.old mother ≡ Some x → (n : ℕ) → n < subpool_numbers
        → item_at result n ≡ taken gifts.now x.numbers n }
    ensures left { (x : TaskSlot) → get active.old mother ≡ Some x
        → (y : TaskSlot) × (get active.new mother ≡ Some y) × Leaves gifts.now x y }
    ensures others { (k : ℕ) → k ≢ mother → get active.new k ≡ get active.old k }
    ensures len { slab_len active.new ≡ slab_len active.old }
    ensures capacity { active.new.capacity ≡ active.old.capacity }
{
    match active.get_mut(mother) {
        Some(seat) => {
            let mut subtask = [None; SLOTS];
            share(&seat.numbers, gifts, &mut subtask);
            give(&mut seat.numbers, gifts, &mut subtask);
            subtask
        }
        None => unreachable!(),
    }
}

// Makes the task at the key the owner of a subpool that the mother owns.
fn pass(owned: &mut Vec<Option<Owned>>, mother: usize, key: usize, subpool: SubpoolId)
    requires { length owned.old.items ≡ most_subpools }
    ensures here { item_at owned.new.items subpool
        ≡ owned_anew mother key (item_at owned.old.items subpool) }
    ensures others { (s : ℕ) → s ≢ subpool → item_at owned.new.items s ≡ item_at owned.old.items s }
    ensures len { length owned.new.items ≡ length owned.old.items }
{
    let s = subpool.get() as usize;
    if let Some(o) = owned[s] {
        if o.owner == mother {
            owned[s] = Some(Owned {
                owner: key,
                number: o.number,
            });
        }
    }
}

// Makes the task at the key the owner of each subpool that the attaching task gives. They are the entries of the given numbers.
pub(crate) fn pass_on(
    owned: &mut Vec<Option<Owned>>,
    numbers: &OwnNumbers,
    mother: usize,
    key: usize,
    gifts: &Gifts,
)
    requires long { length owned.old.items ≡ most_subpools }
    requires stand { (n s : ℕ) → gives gifts.now n ≡ true → item_at numbers.now n ≡ Some s
        → (o : Owned) × (item_at owned.old.items s ≡ Some o) × (o.number ≡ n) }
    requires listed { (s : ℕ) (o : Owned) → item_at owned.old.items s ≡ Some o
        → is_handed gifts.now mother o ≡ true → item_at numbers.now o.number ≡ Some s }
    ensures passed { (s : ℕ)
        → item_at owned.new.items s ≡ passed_on gifts.now mother key (item_at owned.old.items s) }
    ensures len { length owned.new.items ≡ length owned.old.items }
{
    let mut from = 0;
    'given: while let Some(number) = gifts.first_given(from) {
        if let Some(subpool) = numbers[number as usize] {
            pass(owned, mother, key, subpool);
        }
        from = number + 1;
    }
}
