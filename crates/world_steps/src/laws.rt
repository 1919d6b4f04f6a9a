//! The order in which a lane holds what each decider has put for it, and what becomes of the record of a channel that is replaced.

ghost use Rattle.world_steps.specs.Orders.{LanesFit, OutboxesFit, RecordsStay};

use due_laws::laws::tell_of_events;

/// In every world that a list of steps reaches, each lane holds what each decider has put for it in the decider's order: what was
/// picked, and then what the queue holds. What a decider has put, and then what waits in its outbox, is all that it has gained.
pub fn lanes_fit()
    ensures lanes { LanesFit }
    ensures outboxes { OutboxesFit }
{
    tell_of_events();
}

/// In every world the record of a channel that was replaced stays as it is: a replacement ends the record of the channel that served, and
/// no step changes one that has ended.
pub fn records_stay()
    ensures { RecordsStay }
{}
