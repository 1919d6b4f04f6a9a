//! The end of the threads.

ghost use Rattle.engine_threads.specs.Lanes.{HaveTaken, IsServed};
ghost use Rattle.std.specs.Prelude.{◌≡◌, ◌≤◌, ℕ, [], Some, length, slice_get, vec_capacity};

use crate::starts::ServesLane;
use channel::Channel;
use delivery_worker::Served;
use std::sync::Wait;
use std::thread::{Promise, PromisedHandle, Threads};

/// What a thread gives back. One that leaves gives nothing; none leaves that was told to begin.
fn join_one<T: Drop + Send, P: Promise<Option<T>>, R: Threads + Wait>(
    rt: &R,
    handle: PromisedHandle<Option<T>, P>,
) -> T
    ensures { P.kept_by handle.promise (Some result) }
{
    if let Some(end) = handle.join(rt) {
        return end;
    }
    for _ in rt.forever() {}
    unreachable!()
}

/// Joins all threads, which were told to begin, and keeps both things that each gives back where room was made for them. It takes no
/// memory.
pub(crate) fn join_all<
    T: Drop + Send,
    U: Drop + Send,
    P: Promise<Option<(T, U)>>,
    R: Threads + Wait,
>(
    rt: &R,
    handles: Vec<PromisedHandle<Option<(T, U)>, P>>,
    room: Vec<T>,
    places: Vec<U>,
) -> (Vec<T>, Vec<U>)
    requires none { room.items ≡ [] }
    requires no_other { places.items ≡ [] }
    requires room { length handles.items ≤ vec_capacity room }
    requires places { length handles.items ≤ vec_capacity places }
    ensures count { length result.0.items ≡ length handles.items }
    ensures others { length result.1.items ≡ length handles.items }
    ensures each { (i : ℕ) (h : _) (t : _) (u : _) → slice_get handles.items i ≡ Some h
        → slice_get result.0.items i ≡ Some t → slice_get result.1.items i ≡ Some u
        → P.kept_by h.promise (Some (t, u)) }
{
    let mut ends = room;
    let mut others = places;
    for handle in handles {
        let (end, other) = join_one(rt, handle);
        let _room = ends.push(end);
        let _place = others.push(other);
    }
    (ends, others)
}

/// Joins the threads of all lanes, which were told to begin, and keeps what each left and its channels, where room was made for them. It takes no
/// memory.
pub(crate) fn join_lanes<'s, C: Channel + 's, R: Threads + Wait>(
    rt: &R,
    handles: Vec<PromisedHandle<Option<(Served, Vec<C>)>, ServesLane<'s, C>>>,
    room: Vec<Served>,
    places: Vec<Vec<C>>,
) -> (Vec<Served>, Vec<Vec<C>>)
    requires none { room.items ≡ [] }
    requires empty_lanes { places.items ≡ [] }
    requires room { length handles.items ≤ vec_capacity room }
    requires places { length handles.items ≤ vec_capacity places }
    ensures count { length result.0.items ≡ length handles.entry.items }
    ensures places { length result.1.items ≡ length handles.entry.items }
    ensures each { (i : ℕ) (h s : _) → slice_get handles.entry.items i ≡ Some h
        → slice_get result.0.items i ≡ Some s → IsServed h.promise.queue.now h.promise.channels s }
    ensures channels { (i : ℕ) (h s b : _) → slice_get handles.entry.items i ≡ Some h
        → slice_get result.0.items i ≡ Some s → slice_get result.1.items i ≡ Some b
        → HaveTaken C.account C.offered h.promise.tries h.promise.config.now s h.promise.given.value.items b.items }
{
    let mut served = room;
    let mut channels = places;
    for handle in handles {
        let (lane, of_lane) = join_one(rt, handle);
        let _room = served.push(lane);
        let _place = channels.push(of_lane);
    }
    (served, channels)
}
