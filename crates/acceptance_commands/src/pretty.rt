//! A report for people, over readers and writers in memory.

use acceptance_inputs::texts::{BASE, input};
use command_output::Ending;
use due_model::config::Choices;
use due_model::zone::Zone;
use line_forms::Picks;
use progress::Unwatched;
use report_pretty::{Wanted, pretty_files, pretty_in};
use std::test::Fail;

const FEED: &str = "\
[1000] HOST_DOWNTIME;web;START
[1010] HOST_STATE;web;DOWN
[1070] CLOCK
[1130] CLOCK
[1140] X
[1150] HOST_DOWNTIME;web;END
[1210] CLOCK
";

const LINES: &str = "\
1970-01-01T00:16:40+00:00  web  DOWNTIMESTART  PENDING      told     -   ann  mail
1970-01-01T00:16:50+00:00  web  PROBLEM        DOWN         stopped  Downtime
line 5 of the feed: UnknownKind
1970-01-01T00:18:50+00:00  web  PROBLEM        DOWN         stopped  Downtime, 2 times more
1970-01-01T00:19:10+00:00  web  DOWNTIMEEND    DOWN         told     -   ann  mail
1970-01-01T00:20:10+00:00  web  PROBLEM        DOWN         told     1   ann  mail
";

const COLOURED: &str = "\
\x1b[2m1970-01-01T00:16:50+00:00  web  PROBLEM        DOWN         stopped  Downtime\x1b[0m
\x1b[35mline 5 of the feed: UnknownKind\x1b[0m
\x1b[2m1970-01-01T00:18:50+00:00  web  PROBLEM        DOWN         stopped  Downtime, 2 times more\x1b[0m
";

/// Lines of all letters, or of these.
fn lines_of(letters: Option<&str>) -> Picks<'_> {
    Picks {
        only: letters,
        object: None,
        contact: None,
    }
}

#[test]
fn of_one_input(rt: HostRuntime) -> Result<(), Fail> {
    let alloc = rt.alloc();
    let text = input(alloc, FEED)?;
    let mut out = Vec::new(alloc);
    let ended = pretty_in(
        alloc,
        Choices::own(),
        &Zone::Utc,
        text.as_bytes(),
        Wanted {
            picks: lines_of(None),
            coloured: false,
        },
        &mut out,
        &mut Unwatched,
    );
    assert_eq!(&rt;
        (ended, out.as_slice()),
        (Ok(Ending::Whole), LINES.as_bytes())
    );
    Ok(())
}

#[test]
fn of_two_inputs_with_colours(rt: HostRuntime) -> Result<(), Fail> {
    let alloc = rt.alloc();
    let mut out = Vec::new(alloc);
    let ended = pretty_files(
        alloc,
        Choices::own(),
        &Zone::Utc,
        BASE.as_bytes(),
        FEED.as_bytes(),
        Wanted {
            picks: lines_of(Some("SR")),
            coloured: true,
        },
        &mut out,
        &mut Unwatched,
    );
    assert_eq!(&rt;
        (ended, out.as_slice()),
        (Ok(Ending::Whole), COLOURED.as_bytes())
    );
    Ok(())
}
