//! Which events are proper for a configuration, as a test.

ghost use Rattle.std.specs.Prelude.{◌≡◌};
ghost use Rattle.caller_feeds.specs.Properness.{TestIsProperness, is_proper};

use due_model::config::Config;
use due_model::event::Event;
use due_model::proper;

/// Whether an event is proper for a configuration. It takes no memory.
pub(crate) fn proper(config: &Config, event: &Event) -> bool
    ensures { result ≡ is_proper config.now event.now }
{
    proper::is_proper(config, event)
}

/// The test by which contracts list proper events is true exactly where an event is proper.
pub fn test_is_exact()
    ensures { TestIsProperness }
{}
