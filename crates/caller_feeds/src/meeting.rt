//! What was taken, beside what the handles have sent.

ghost use Rattle.std.specs.Prelude.{◌≡◌, List};
ghost use Rattle.std.specs.List.{AllZip};
ghost use Rattle.due_model.specs.declared.config.Config.{Config};
ghost use Rattle.due_model.specs.declared.event.Event.{Event};
ghost use Rattle.caller_feeds.specs.Feeds.{ArePairs, HasMet, HasSentSame};
ghost use Rattle.caller_feeds.specs.Merge.{Merge};
ghost use Rattle.caller_feeds.specs.Taken.{AreOver, IsTaken, sent_lists};

use crate::end::FeedEnd;
use crate::handle::FeedHandle;

/// Compares what each end has received with what its handle has sent. Where each feed's end was received, the events that were
/// taken are a merge of the proper ones among all that the handles have sent. Nothing is received or sent.
pub fn meet_all(handles: &mut Vec<FeedHandle>, ends: &mut Vec<FeedEnd>)
    requires { ArePairs handles.old.items ends.old.items }
    ensures met { AllZip HasMet handles.old.items ends.old.items }
    ensures merge { AreOver ends.old.items → (c : Config) (events : List Event)
        → IsTaken c ends.old.items events → Merge events (sent_lists c handles.old.items) }
    ensures sent { AllZip HasSentSame handles.old.items handles.new.items }
    ensures pairs { ArePairs handles.new.items ends.new.items }
{
    for place in 0..ends.len() {
        ends[place].meet(&mut handles[place]);
    }
}
