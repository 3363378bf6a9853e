//! The number of orders of the statements of a step that keep the order of each task.

ghost use Rattle.std.specs.Prelude.{◌≡◌, ◌≤◌, ◌<◌, ◌+◌, ◌*◌, ◌^◌, IfSome, count_by, length};
ghost use Rattle.schedules.specs.Counting.{AreOrders, is_of_task};

use crate::step_line::StepLine;
use mvs_model::name::Name;

// Returns a number times another one, divided by a third one, if the division is exact and the result has at most 64 bits.
fn scaled(total: u64, factor: u32, divisor: u32) -> Option<u64>
    requires { 1 ≤ divisor }
    ensures { IfSome result (λ q. q * divisor ≡ total * factor) }
{
    let product = total as u128 * factor as u128;
    let divisor = divisor as u128;
    if product % divisor != 0 {
        return None;
    }
    u64::try_from(product / divisor).ok()
}

// Returns how many statements are of a task.
fn count_of(lines: &[StepLine], task: &Name) -> u32
    requires { length lines.now + 4 < 2 ^ 32 }
    ensures count { result ≡ count_by (is_of_task task.now) lines.now }
    ensures few { result ≤ length lines.now }
{
    let mut count = 0;
    for line in lines {
        if line.task == *task {
            count += 1;
        }
    }
    count
}

/// Returns the number of orders of some statements that keep the order of each task, if it has at most 64 bits.
pub(crate) fn orders_of(lines: &[StepLine]) -> Option<u64>
    requires { length lines.now + 4 < 2 ^ 32 }
    ensures { IfSome result (AreOrders lines.now) }
{
    let mut orders = 1;
    let mut at = 0;
    'lines: while at < lines.len() {
        let place = count_of(&lines[..at], &lines[at].task) + 1;
        orders = scaled(orders, at as u32 + 1, place)?;
        at += 1;
    }
    Some(orders)
}
