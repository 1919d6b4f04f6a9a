//! What goes through a feed.

use crate::properness::proper;
use due_model::config::Config;
use due_model::event::Event;

/// What goes through a feed.
#[derive(Clone, Copy, Debug, PartialEq, Eq)]
pub enum FeedItem {
    Posted(Event),
    /// There is no more.
    End,
}

impl FeedItem {
    ghost use Rattle.std.specs.Prelude.{◌≡◌};
    ghost use Rattle.caller_feeds.specs.Items.{is_end, is_improper, proper_event};

    /// Whether it is the end.
    pub(crate) fn is_end(self) -> bool
        ensures { result ≡ is_end self }
    {
        match self {
            FeedItem::Posted(_) => false,
            FeedItem::End => true,
        }
    }

    /// The event that it is, if it is a proper one.
    pub(crate) fn proper_event(self, config: &Config) -> Option<Event>
        ensures { result ≡ proper_event config.now self }
    {
        match self {
            FeedItem::Posted(event) => {
                if proper(config, &event) {
                    Some(event)
                } else {
                    None
                }
            }
            FeedItem::End => None,
        }
    }

    /// Whether it is an improper event.
    pub(crate) fn is_improper(self, config: &Config) -> bool
        ensures { result ≡ is_improper config.now self }
    {
        match self {
            FeedItem::Posted(event) => !proper(config, &event),
            FeedItem::End => false,
        }
    }
}
