//! The door of a configuration is asked for, and comes back.
ghost use Rattle.std.specs.Prelude.{◌≡◌, None, IsSome, IfSome, IfOk, OnErr, option_map};
ghost use Rattle.scraper_pool.specs.Serving.{IsUnopened};
ghost use Rattle.world_run.specs.Serving.{HasAsked, comes_back};

use bridge_config::Config;
use bridge_ports::{Door, Failed, World};
use label_sets::Memory;

/// The door of a configuration that has one, where the world can open it. Without memory the world is not asked.
pub(crate) fn open_door<E: Door, W: World<Door = E>>(
    config: &Config,
    world: &mut W,
) -> Result<Option<E>, Memory>
    requires { (W.seen world.old).world.door_at ≡ None }
    ensures asked { IfOk result (λ door. HasAsked config.now (W.seen world.old) (W.seen world.new) (option_map E.door door)) }
    ensures known { IfOk result (λ door. IfSome door (λ d. IsSome (W.seen world.new).world.door_at)) }
    ensures fresh { IfOk result (λ door. IfSome door (λ d. IsUnopened (E.door d))) }
    ensures kept { OnErr result (W.seen world.new ≡ W.seen world.old) }
{
    let Some(at) = &config.door else {
        return Ok(None);
    };
    let at = at.copy()?;
    match world.door(at) {
        Ok(door) => Ok(Some(door)),
        Err(Failed) => Ok(None),
    }
}

/// Gives the door back, if there is one.
pub(crate) fn close_door<E: Door, W: World<Door = E>>(world: &mut W, door: Option<E>)
    requires { IfSome door (λ d. IsSome (W.seen world.old).world.door_at) }
    ensures { W.seen world.new ≡ comes_back (option_map E.door door) (W.seen world.old) }
{
    if let Some(door) = door {
        world.door_back(door);
    }
}
