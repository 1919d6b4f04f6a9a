//! What the change of a configuration does to the notices of a feed.

use changed_notices::ChangeForm;
use command_output::Ending;
use due_model::config::Choices;
use due_model::zone::Zone;
use std::alloc::AllocError;
use std::process::Abort;
use texts_compared::compare_files;

/// Two contacts and a command, before the host of each text.
const PEOPLE: &str =
    "define command{\n command_name mail\n}\ndefine contact{\n contact_name ann\n host_notification_commands mail\n}\ndefine contact{\n contact_name bob\n host_notification_commands mail\n}\n";

/// Web is told of to ann each hour.
const BEFORE: &str =
    "define host{\n host_name web\n contacts ann\n notification_interval 60\n}\ndefine host{\n host_name old\n contacts ann\n}\n";

/// To bob too from the second notice on, and each half hour; another host is new, so that objects have other numbers.
const AFTER: &str =
    "define host{\n host_name new\n contacts bob\n}\ndefine host{\n host_name web\n contacts ann\n notification_interval 30\n}\ndefine hostescalation{\n host_name web\n first_notification 2\n last_notification 0\n contacts ann,bob\n notification_interval 30\n}\n";

/// From 21:50 on by UTC.
const FEED: &[u8] =
    b"[78600] HOST_STATE;web;DOWN\n[78600] HOST_STATE;old;DOWN\n[78601] HOST_STATE;new;DOWN\n[80400] CLOCK\n[82200] CLOCK\n[x] CLOCK\n[82300] HOST_STATE;web;UP\n";

/// By hand: of web's notices the first is the same, at 22:20 there are two more, at 22:50 and at the recovery bob's. What old gives is lost,
/// and what new gives is gained, each by the number of its event by its own configuration, of which either refuses a line.
const CHANGES: &str = "\
-;1;78600;old;PROBLEM;DOWN;1;ann;mail
+;1;78601;new;PROBLEM;DOWN;1;bob;mail
-;2;80400;old;PROBLEM;DOWN;2;ann;mail
+;2;80400;web;PROBLEM;DOWN;2;ann;mail
+;2;80400;web;PROBLEM;DOWN;2;bob;mail
-;3;82200;old;PROBLEM;DOWN;3;ann;mail
+;3;82200;new;PROBLEM;DOWN;2;bob;mail
+;3;82200;web;PROBLEM;DOWN;3;bob;mail
+;4;82300;web;RECOVERY;UP;4;bob;mail
P;ann;6;4;4;3;3600;1800
P;bob;0;5;0;4;0;3599
";

#[test]
fn a_change_of_escalations(rt: HostRuntime) -> Result<(), AllocError> {
    let before = [PEOPLE, BEFORE].concat(rt.alloc())?;
    let after = [PEOPLE, AFTER].concat(rt.alloc())?;
    let mut out = Vec::new(rt.alloc());
    let ended = compare_files(
        rt.alloc(),
        Choices::own(),
        &Zone::Utc,
        before.as_bytes(),
        after.as_bytes(),
        FEED,
        ChangeForm::Plain,
        &mut out,
    );
    assert_eq!(rt; ended, Ok(Ending::Whole));
    let text = str::from_utf8(&out).unwrap_or("?");
    assert_eq!(rt; text, CHANGES);
    Ok(())
}
