//! The deciders of a world, each with its outbox.

ghost use Rattle.std.specs.Prelude.{◌≡◌, ℕ, [], Some, length, map, replicate, slice_get, IfOk};
ghost use Rattle.due_model.specs.claims.Accepted.{IsAccepted};
ghost use Rattle.world_steps.specs.declared.deciders.KeptDecider.{KeptDecider as KeptDeciderOf};
ghost use Rattle.world_steps.specs.claims.Worlds.{setup_for};
ghost use Rattle.world_steps.specs.Worlds.{new_decider};
ghost use Rattle.world_steps.specs.claims.Fits.{decider_state, DeciderFits};

use decider::{Decider, Outbox, Share};
use due_model::config::Config;
use due_model::zone::Zone;
use std::alloc::{AllocError, Global};
use steps::Settings;

/// A decider, and its notices that wait, lane by lane.
#[derive(Drop)]
pub(crate) struct KeptDecider<'a> {
    pub(crate) decider: Decider<'a>,
    pub(crate) outbox: Outbox,
}

/// The deciders of a world in which nothing has happened. A refused growth is the only error.
pub(crate) fn new_deciders<'a>(
    alloc: Global,
    config: &'a Config,
    zone: &'a Zone,
    settings: Settings,
) -> Result<Vec<KeptDecider<'a>>, AllocError>
    requires accepted { IsAccepted config.now }
    ensures states { IfOk result (λ deciders.
        map decider_state deciders.items
        ≡ replicate settings.deciders (new_decider (length config.now.lanes))) }
    ensures fits { IfOk result (λ deciders. (d : ℕ) (x : KeptDeciderOf)
        → slice_get deciders.items d ≡ Some x
        → DeciderFits (setup_for config.now zone.now settings) [] d x) }
{
    let mut made = Vec::with_capacity(alloc, settings.deciders as usize)?;
    for decider in 0..settings.deciders {
        let share = Share {
            decider,
            deciders: settings.deciders,
        };
        made.push(KeptDecider {
            decider: Decider::new(alloc, config, zone, share)?,
            outbox: Outbox::new(alloc, config.lanes.len())?,
        })?;
    }
    Ok(made)
}
