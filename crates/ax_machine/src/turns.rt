ghost use Rattle.std.specs.Prelude.{◌≡◌, ◌<◌, length, Some, IfOk};
ghost use Rattle.ax_script.specs.Queues.{queue_of};
ghost use Rattle.ax_machine.specs.Run.{first_of, rest_of, first_left, left_after};

use ax_journal::{Order, Orders};
use ax_script::OrderLists;
use ax_values::NoMemory;
use std::alloc::Global;
use std::collections::VecDeque;
use std::marker::Model;

/// The orders that an actor has left, in order.
#[derive(Drop)]
pub(crate) struct Queue {
    left: VecDeque<Order>,
}

impl Model for Queue {
    ghost use Rattle.std.specs.Prelude.{List};
    ghost use Rattle.ax_journal.specs.declared.order.Order.{Order};

    ghost Value = { List Order };

    ghost view = { λ queue. queue.left.items };
}

impl Queue {
    fn of(orders: Orders) -> Queue
        ensures { result ≡ orders }
    {
        Queue {
            left: VecDeque::from_vec(orders.into_parts()),
        }
    }

    fn len(&self) -> usize
        ensures { result ≡ length self.now }
    {
        self.left.len()
    }

    /// The first order that is left, which stays.
    fn first(&self) -> &Order
        requires { 0 < length self.now }
        ensures { first_of self.now ≡ Some result.now }
    {
        &self.left[0]
    }

    /// The first order that is left, which then is not left any more.
    fn next(&mut self) -> Option<Order>
        ensures first { result ≡ first_of self.old }
        ensures left { self.new ≡ rest_of self.old }
    {
        self.left.pop_front()
    }
}

/// A queue for each actor.
pub(crate) fn queues_of(alloc: Global, orders: OrderLists) -> Result<Vec<Queue>, NoMemory>
    ensures { IfOk result (λ queues. queues.items ≡ orders) }
{
    let mut queues = Vec::new(alloc);
    for queue in orders.into_parts() {
        queues.push(Queue::of(queue))?;
    }
    Ok(queues)
}

/// How many orders an actor has left: none, where no actor has the number.
pub(crate) fn count_left(queues: &[Queue], actor: u32) -> usize
    ensures { result ≡ length (queue_of queues.now actor) }
{
    match queues.get(actor as usize) {
        Some(queue) => queue.len(),
        None => 0,
    }
}

/// The next order of an actor, which stays.
pub(crate) fn first_order(queues: &[Queue], actor: u32) -> &Order
    requires { 0 < length (queue_of queues.now actor) }
    ensures { first_left queues.now actor ≡ Some result.now }
{
    queues[actor as usize].first()
}

/// The next order of an actor, which then is not left any more. None comes exactly where the actor has none left.
pub(crate) fn next_order(queues: &mut Vec<Queue>, actor: u32) -> Option<Order>
    ensures order { result ≡ first_left queues.old.items actor }
    ensures left { queues.new.items ≡ left_after queues.old.items actor }
{
    let queue = queues.get_mut(actor as usize)?;
    queue.next()
}
