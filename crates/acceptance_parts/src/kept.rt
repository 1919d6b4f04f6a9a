//! The log of suppressions, a lane's record, and the index of due times.

use due_model::config::{ContactId, LaneId, ObjectId};
use due_model::notice::{Filter, Kind, Notice, Suppression};
use due_model::state::State;
use due_times::Index;
use std::alloc::AllocError;
use std::process::Abort;
use std::test::Fail;
use suppression_log::Log;
use undelivered::{LaneRecord, TakeFault, Why};

/// A suppression of object 0 at an event.
fn stopped(event: u64) -> Suppression {
    Suppression {
        event,
        moment: 1000,
        object: ObjectId(0),
        kind: Kind::Problem,
        state: State::Down,
        number: 1,
        filter: Filter::Downtime,
        contact: None,
    }
}

/// A notice of object 0 at an event.
fn due(event: u64) -> Notice {
    Notice {
        event,
        moment: 1000,
        object: ObjectId(0),
        kind: Kind::Problem,
        state: State::Down,
        number: 1,
        contact: ContactId(0),
        lane: LaneId(0),
    }
}

#[test]
fn suppressions_in_order(rt: HostRuntime) -> Result<(), Fail> {
    let mut log = Log::new(rt.alloc());
    log.reserve(1)?;
    log.push(stopped(0))?;
    log.push(stopped(1))?;
    assert_eq!(rt; log.lines(), [stopped(0), stopped(1)].as_slice());
    log.clear();
    assert_eq!(rt; log.lines().len(), 0);
    log.push(stopped(2))?;
    assert_eq!(rt; log.lines(), [stopped(2)].as_slice());
    Ok(())
}

#[test]
fn record_of_a_lane(rt: HostRuntime) -> Result<(), Fail> {
    let mut record = LaneRecord::new(rt.alloc());
    assert!(rt; record.take_up(due(0)) == Ok(()));
    assert!(rt; record.take_up(due(1)) == Err(TakeFault::NotIdle));
    assert!(rt; record.parts().hand == Some(due(0)));
    record.settle();
    assert!(rt; record.take_up(due(1)) == Ok(()));
    record.close(Why::Asked);
    assert!(rt; record.take_up(due(2)) == Err(TakeFault::Closed));
    record.drain(due(2))?;
    let parts = record.parts();
    assert_eq!(rt; parts.taken, [due(0)].as_slice());
    assert_eq!(rt; parts.undelivered, [due(1), due(2)].as_slice());
    assert!(rt; parts.hand == None);
    assert!(rt; parts.why == Some(Why::Asked));
    Ok(())
}

#[test]
fn due_times_in_order(rt: HostRuntime) -> Result<(), Fail> {
    let mut index = Index::new(rt.alloc());
    index.reserve(3)?;
    index.set(ObjectId(2), Some(60))?;
    index.set(ObjectId(0), Some(120))?;
    index.set(ObjectId(6), Some(60))?;
    index.set(ObjectId(1), Some(90))?;
    index.set(ObjectId(1), None)?;
    assert!(rt; index.pop_due(59) == None);
    assert!(rt; index.pop_due(60) == Some(ObjectId(2)));
    assert!(rt; index.pop_due(60) == Some(ObjectId(6)));
    assert!(rt; index.pop_due(119) == None);
    assert!(rt; index.pop_due(200) == Some(ObjectId(0)));
    assert!(rt; index.pop_due(200) == None);
    assert_eq!(rt; index.examined(), 3);
    Ok(())
}

/// Objects 1, 4 and 6 are due at 60, 50 and 70.
fn three_due(index: &mut Index) -> Result<(), AllocError> {
    index.reserve(8)?;
    index.set(ObjectId(4), Some(50))?;
    index.set(ObjectId(1), Some(60))?;
    index.set(ObjectId(6), Some(70))
}

#[test]
fn due_objects_in_order(rt: HostRuntime) -> Result<(), Fail> {
    let mut index = Index::new(rt.alloc());
    three_due(&mut index)?;
    assert!(rt; index.next_due(0, 49) == None);
    assert!(rt; index.next_due(0, 60) == Some(ObjectId(1)));
    assert!(rt; index.next_due(2, 60) == Some(ObjectId(4)));
    assert!(rt; index.next_due(5, 69) == None);
    index.take_due(60);
    assert_eq!(rt; index.examined(), 2);
    assert!(rt; index.next_due(0, 70) == Some(ObjectId(6)));
    Ok(())
}
