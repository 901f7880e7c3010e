//! The queue of a talker, from the messages that a script gives to it.

ghost use Rattle.std.specs.Prelude.{◌≡◌, ◌++◌, IfOk, OnOk};
ghost use Rattle.gw_opening.specs.Queues.{IsQueueOf, first_instances, instance, instances};

use can_segment::DueFrame;
use gw_script::Message;
use std::alloc::{AllocError, Global};

/// Returns the instance of a message at this place among its instances, counted from 0.
fn instance(message: &Message, place: u32) -> DueFrame
    ensures { result ≡ instance message.now place }
{
    DueFrame {
        due: u64::from(message.at()) + u64::from(place) * u64::from(message.every()),
        frame: *message.frame(),
    }
}

/// Pushes all instances of a message, one after the other.
fn push_instances(all: &mut Vec<DueFrame>, message: &Message) -> Result<(), AllocError>
    ensures { OnOk result (all.new.items ≡ all.old.items ++ first_instances message.now message.now.count) }
{
    for place in 0..message.count() {
        all.push(instance(message, place))?;
    }
    Ok(())
}

/// Returns all instances of these messages, message by message.
fn instances(alloc: Global, messages: &[Message]) -> Result<Vec<DueFrame>, AllocError>
    ensures { IfOk result (λ all. all.items ≡ instances messages.now) }
{
    let mut all = Vec::new(alloc);
    for message in messages {
        push_instances(&mut all, message)?;
    }
    Ok(all)
}

/// Returns the queue of a talker with these messages: their instances by due bit, and those due at one bit in the order
/// of the messages. `AllocError` where an allocation failed.
pub(crate) fn queue_of(alloc: Global, messages: &[Message]) -> Result<Vec<DueFrame>, AllocError>
    ensures { IfOk result (λ queue. IsQueueOf messages.now queue.items) }
{
    let mut queue = instances(alloc, messages)?;
    queue.sort_by_key(|instance| instance.due)?;
    Ok(queue)
}
