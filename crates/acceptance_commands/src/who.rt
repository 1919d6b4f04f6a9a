//! Who would be told, and who wouldn't, over a writer in memory.

use command_output::Ending;
use due_model::config::Choices;
use due_model::zone::Zone;
use made_feed::Supposed;
use std::test::Fail;
use who_missed::RowForm;
use who_told::{Unknown, WhoFault, object_parts, who};

const OBJECTS: &str = "\
define command{
 command_name mail
}
define contact{
 contact_name ann
 host_notification_commands mail
}
define contact{
 contact_name chef
 host_notification_commands mail
}
define host{
 host_name web
 contacts ann
 notification_interval 1
}
define hostescalation{
 host_name web
 first_notification 4
 contacts ann,chef
}
";

const TABLE: &str = "\
1970-01-01 00:16:40  1  ann  mail  web
1970-01-01 00:17:40  2  ann  mail  web
1970-01-01 00:18:40  3  ann  mail  web
not told  chef  escalation 1 begins with notice 4; told 1970-01-01 00:19:40, notice 4
";

const WEB: Supposed<'static> = Supposed {
    down: &[],
    host: "web",
    service: None,
    state: "DOWN",
    moment: 1000,
    minutes: 2,
};

#[test]
fn of_a_host(rt: HostRuntime) -> Result<(), Fail> {
    let mut out = Vec::new(rt.alloc());
    let ended = who(
        rt.alloc(),
        Choices::own(),
        &Zone::Utc,
        OBJECTS.as_bytes(),
        &WEB,
        RowForm::Plain,
        &mut out,
    );
    assert_eq!(&rt;
        (ended, out.as_slice()),
        (Ok(Ending::Whole), TABLE.as_bytes())
    );
    Ok(())
}

/// The same for people, with colours.
const PEOPLE: &str = "\
\x1b[31m1970-01-01T00:16:40+00:00  web  PROBLEM        DOWN         told     1   ann   mail\x1b[0m
\x1b[31m1970-01-01T00:17:40+00:00  web  PROBLEM        DOWN         told     2   ann   mail\x1b[0m
\x1b[31m1970-01-01T00:18:40+00:00  web  PROBLEM        DOWN         told     3   ann   mail\x1b[0m
\x1b[33mnot told  chef  escalation 1 begins with notice 4; told 1970-01-01 00:19:40, notice 4\x1b[0m
";

/// And of a minute, as JSON.
const JSON: &str = "\
{\"letter\":\"N\",\"event\":0,\"moment\":1000,\"local\":\"1970-01-01T00:16:40+00:00\",\"object\":\"web\",\"kind\":\"PROBLEM\",\"state\":\"DOWN\",\"number\":1,\"contact\":\"ann\",\"command\":\"mail\"}
{\"letter\":\"N\",\"event\":1,\"moment\":1060,\"local\":\"1970-01-01T00:17:40+00:00\",\"object\":\"web\",\"kind\":\"PROBLEM\",\"state\":\"DOWN\",\"number\":2,\"contact\":\"ann\",\"command\":\"mail\"}
{\"letter\":\"M\",\"contact\":\"chef\",\"reason\":\"escalation 1 begins with notice 4\",\"moment\":1180,\"local\":\"1970-01-01T00:19:40+00:00\",\"number\":4}
";

#[test]
fn of_a_host_for_people(rt: HostRuntime) -> Result<(), Fail> {
    let mut out = Vec::new(rt.alloc());
    let ended = who(
        rt.alloc(),
        Choices::own(),
        &Zone::Utc,
        OBJECTS.as_bytes(),
        &WEB,
        RowForm::Pretty(true),
        &mut out,
    );
    assert_eq!(&rt;
        (ended, out.as_slice()),
        (Ok(Ending::Whole), PEOPLE.as_bytes())
    );
    Ok(())
}

#[test]
fn of_a_host_as_json(rt: HostRuntime) -> Result<(), Fail> {
    let mut out = Vec::new(rt.alloc());
    let supposed = Supposed { minutes: 1, ..WEB };
    let ended = who(
        rt.alloc(),
        Choices::own(),
        &Zone::Utc,
        OBJECTS.as_bytes(),
        &supposed,
        RowForm::Json,
        &mut out,
    );
    assert_eq!(&rt;
        (ended, out.as_slice()),
        (Ok(Ending::Whole), JSON.as_bytes())
    );
    Ok(())
}

#[test]
fn of_one_that_is_unknown(rt: HostRuntime) -> Result<(), Fail> {
    let mut out = Vec::new(rt.alloc());
    let supposed = Supposed {
        down: &["web", "db"],
        ..WEB
    };
    let ended = who(
        rt.alloc(),
        Choices::own(),
        &Zone::Utc,
        OBJECTS.as_bytes(),
        &supposed,
        RowForm::Plain,
        &mut out,
    );
    assert_eq!(&rt;
        (ended, out.as_slice()),
        (Err(WhoFault::Unknown(Unknown::Host("db"))), b"".as_slice())
    );
    Ok(())
}

#[test]
fn parts_of_a_name(rt: HostRuntime) -> Result<(), Fail> {
    assert_eq!(&rt; object_parts("web/http/x"), ("web", Some("http/x")));
    assert_eq!(&rt; object_parts("web"), ("web", None));
    assert_eq!(&rt; object_parts(""), ("", None));
    Ok(())
}
