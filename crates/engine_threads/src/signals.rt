//! What the intake sends to the deciders.

ghost use Rattle.std.specs.Prelude.{◌≡◌, ◌++◌, ◌∷◌, List, [], false, length, reverse};
ghost use Rattle.decider_thread.specs.declared.Signal.{Signal};
ghost use Rattle.rtrb.specs.Ring.{SameProducer, sent};
ghost use Rattle.decider_thread.specs.Decided.{heard};
ghost use Rattle.engine_threads.specs.Sent.{AreSame, HaveSent};
ghost use Rattle.decider_thread.specs.declared.Signal.TheVariants.{Over};

use crate::source::{Given, Source};
use decider_thread::Signal;
use delivery_worker::Gate;
use due_model::config::Config;
use idle_pause::Pause;
use rtrb::Producer;
use std::sync::Wait;
use std::sync::atomic::{AtomicBool, Ordering};
use std::time::Clock;

/// Sends a signal to one decider.
fn send<R: Wait + Clock>(rt: &R, ring: &mut Producer<Signal>, signal: Signal)
    ensures ring { SameProducer ring.old ring.new }
    ensures sent { sent ring.new ≡ sent ring.old ++ signal ∷ [] }
{
    let mut pause = Pause::new();
    for _ in rt.forever() {
        if ring.push(signal).is_ok() {
            return;
        }
        pause.rest(rt);
    }
    unreachable!()
}

/// Sends a signal to all deciders.
fn send_all<R: Wait + Clock>(rt: &R, rings: &mut Vec<Producer<Signal>>, signal: Signal)
    ensures same { AreSame rings.old.items rings.new.items }
    ensures sent { (signals : List Signal) → HaveSent signals rings.old.items
        → HaveSent (signals ++ signal ∷ []) rings.new.items }
    ensures count { length rings.new.items ≡ length rings.old.items }
{
    for place in 0..rings.len() {
        send(rt, &mut rings[place], signal);
    }
}

/// Sends the events of a source to all deciders, until it has no more, memory runs out, or a thread asks to halt; and then that there
/// are no more. True: memory ran out.
pub(crate) fn feed_from<S: Source, G: Gate, R: Wait + Clock>(
    rt: &R,
    config: &Config,
    rings: &mut Vec<Producer<Signal>>,
    source: &mut S,
    gate: &G,
    halt: &AtomicBool,
) -> bool
    requires { HaveSent (heard (reverse (S.given_so_far source.old))) rings.old.items }
    ensures same { AreSame rings.old.items rings.new.items }
    ensures sent { HaveSent (heard (reverse (S.given_so_far source.new)) ++ Over ∷ []) rings.new.items }
    ensures count { length rings.new.items ≡ length rings.old.items }
    ensures source { S.goes config.now source.old source.new }
    ensures over { result ≡ false → S.ended source.new }
{
    let memory = send_each(rt, config, rings, source, gate, halt);
    send_all(rt, rings, Signal::Over);
    memory
}

/// Sends the events of a source to all deciders. True: memory ran out.
fn send_each<S: Source, G: Gate, R: Wait + Clock>(
    rt: &R,
    config: &Config,
    rings: &mut Vec<Producer<Signal>>,
    source: &mut S,
    gate: &G,
    halt: &AtomicBool,
) -> bool
    requires { HaveSent (heard (reverse (S.given_so_far source.old))) rings.old.items }
    ensures same { AreSame rings.old.items rings.new.items }
    ensures sent { HaveSent (heard (reverse (S.given_so_far source.new))) rings.new.items }
    ensures count { length rings.new.items ≡ length rings.old.items }
    ensures source { S.goes config.now source.old source.new }
    ensures over { result ≡ false → S.ended source.new }
{
    let mut pause = Pause::new();
    for _ in rt.forever() {
        if halt.load(Ordering::SeqCst) {
            return true;
        }
        match source.next(config, gate) {
            Err(_) => {
                gate.wanting();
                return true;
            }
            Ok(Given::Over) => return false,
            Ok(Given::Nothing) => pause.rest(rt),
            Ok(Given::Event(event)) => {
                pause.reset();
                send_all(rt, rings, Signal::Decides(event));
            }
        }
    }
    unreachable!()
}
