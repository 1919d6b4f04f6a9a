//! Laws of what the events so far say of an object.

ghost use Rattle.due_laws.specs.Readings.{MomentIsGreatestStamp, IsReadyByLast, DownWhereStartsOutnumber};
ghost use Rattle.due_laws.specs.Readings.{BeginIsLeast, HardIsOfLastEvent, FlappingIsOfLastEvent};
ghost use Rattle.due_laws.specs.Readings.{OwnSwitchIsOfLastEvent, SwitchIsOfLastEvent};
ghost use Rattle.due_laws.specs.Acknowledgements.{AckedByLastAcknowledgement, RemovalIsReady};
ghost use Rattle.due_laws.specs.Acknowledgements.{RemovalEndsAcknowledgements};

/// The readings say of the whole list of events what the manual says: the moment is the greatest stamp, the
/// ready moment comes from the last problem attempt, the object is in downtime where from some start on starts
/// outnumber ends, and a problem begins at the least event since which it runs.
pub fn read_the_feed()
    ensures moment { MomentIsGreatestStamp }
    ensures ready { IsReadyByLast }
    ensures downtime { DownWhereStartsOutnumber }
    ensures begin { BeginIsLeast }
{}

/// The hard state, flapping, the program switch and an object's own are those of the last event of the feed that gives them.
pub fn follow_the_last_event()
    ensures hard { HardIsOfLastEvent }
    ensures flapping { FlappingIsOfLastEvent }
    ensures switch { SwitchIsOfLastEvent }
    ensures own_switch { OwnSwitchIsOfLastEvent }
{}

/// A problem is acknowledged where its last acknowledgement holds: no OK state came since, and, unless it is sticky,
/// the state is the same (chapter "External Commands").
pub fn follow_the_acknowledgement()
    ensures { AckedByLastAcknowledgement }
{}

/// A problem isn't acknowledged once its acknowledgement is taken back, and the clock attempts it again from then on
/// (chapter "External Commands").
pub fn take_back_the_acknowledgement()
    ensures ends { RemovalEndsAcknowledgements }
    ensures ready { RemovalIsReady }
{}
