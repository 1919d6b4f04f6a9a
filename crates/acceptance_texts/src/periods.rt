//! Time periods and their loops, the faults of values, and names that stand twice or that nothing has, as the manual's rules give them. The
//! faults are seen through the program.

use crate::shown::{Case, What, all_show, shows};
use object_periods::laws::{no_loop_is_left, periods_fit};
use std::alloc::{AllocError, Global};
use std::fmt::Write;

/// Texts, and the periods of each: ranges keep their order; weekdays are inherited one by one; exclusions are added to; and of lines of dates
/// the last counts, before those of a template.
const PERIODS: [Case; 4] = [
    (
        "define timeperiod{\ntimeperiod_name p\nfriday 13:30-14:45,0:00-9:05,24:00-24:00\n}\n",
        "p 5:48600-53100,0-32700,86400-86400,\n",
    ),
    (
        "define timeperiod{\nname t\nregister 0\nmonday 01:00-02:00\ntuesday 03:00-04:00\n}\ndefine timeperiod{\nuse t\ntimeperiod_name p\ntuesday 05:00-06:00\nsunday 07:00-08:00\n}\n",
        "p 0:25200-28800, 1:3600-7200, 2:18000-21600,\n",
    ),
    (
        "define timeperiod{\nname t\nregister 0\nexclude b\n}\ndefine timeperiod{\nuse t\ntimeperiod_name a\nexclude +c\n}\ndefine timeperiod{\ntimeperiod_name b\n}\ndefine timeperiod{\ntimeperiod_name c\n}\n",
        "a !1 !2\nb\nc\n",
    ),
    (
        "define timeperiod{\nname t\nregister 0\nday 1 01:00-02:00\ndecember 24 03:00-04:00\n}\ndefine timeperiod{\nuse t\ntimeperiod_name p\nday  1 05:00-06:00\nmonday -1 may 07:00-08:00\n2024-1-2 00:00-00:00\n}\n",
        "p Date { year: 2024, month: 1, day: 2 }:0-0, WeekdayOfMonth { weekday: 1, place: -1, month: 5 }:25200-28800, OfEachMonth { day: 1 }:18000-21600, OfMonth { month: 12, day: 24 }:10800-14400,\n",
    ),
];

/// Texts, and the first fault of each.
const FAULTS: [Case; 4] = [
    ("", ""),
    (
        "define host{\nname t\nregister 0\nnotification_interval x\n}\ndefine host{\nuse t\nhost_name a\n}\n",
        "6 BadNumber",
    ),
    (
        "define host{\nhost_name a\nnotification_options x\nnotification_interval x\n}\n",
        "1 BadNumber",
    ),
    (
        "define service{\nservice_description s\nhost_name a,!b\nis_volatile 1\n}\n",
        "1 Volatile",
    ),
];

/// Objects a, b, g, v, ann, team, day and mail, one of each type and two hosts, after the blocks of each text.
const NAMED: &str =
    "define host{\nhost_name a\n}\ndefine host{\nhost_name b\n}\ndefine hostgroup{\nhostgroup_name g\n}\ndefine servicegroup{\nservicegroup_name v\n}\ndefine contact{\ncontact_name ann\n}\ndefine contactgroup{\ncontactgroup_name team\n}\ndefine timeperiod{\ntimeperiod_name day\n}\ndefine command{\ncommand_name mail\n}\n";

/// Blocks before them, and the places of the first that is doubled and of the first that names something that isn't there.
const NAMES: [Case; 3] = [
    ("", "- -"),
    ("define command{\ncommand_name mail\n}\n", "8 -"),
    (
        "define host{\nhost_name x\n}\ndefine host{\nhost_name x\ncontacts nobody\n}\n",
        "1 1",
    ),
];

#[test]
fn blocks_give_periods_and_faults(rt: HostRuntime) -> Result<(), AllocError> {
    periods_fit();
    no_loop_is_left();
    all_show(&rt, rt.alloc(), "", &PERIODS, What::Periods)?;
    all_show(&rt, rt.alloc(), "", &FAULTS, What::Fault)
}

#[test]
fn the_first_of_each_name_is_found(rt: HostRuntime) -> Result<(), AllocError> {
    for (before, wanted) in NAMES {
        let text = [before, NAMED].concat(rt.alloc())?;
        shows(&rt, rt.alloc(), text.as_bytes(), What::Names, wanted)?;
    }
    Ok(())
}

/// A period of a row that excludes both of the next row.
fn add_side(out: &mut String, side: &str, row: u32) -> Result<(), AllocError> {
    let next = row.saturating_add(1);
    write!(
        out,
        "define timeperiod{{\ntimeperiod_name {side}{row}\nexclude a{next},b{next}\n}}\n"
    )
}

/// So many rows of two periods, each of which excludes both of the next row, and the last row the second.
fn diamond(alloc: Global, rows: u32, back: bool) -> Result<String, AllocError> {
    let mut out = String::new(alloc);
    for row in 0..rows {
        add_side(&mut out, "a", row)?;
        add_side(&mut out, "b", row)?;
    }
    if back {
        write!(
            out,
            "define timeperiod{{\ntimeperiod_name b{rows}\nexclude a1\n}}\n"
        )?;
    }
    Ok(out)
}

#[test]
fn loops_are_found_in_a_long_diamond(rt: HostRuntime) -> Result<(), AllocError> {
    for (back, wanted) in [(false, "-"), (true, "2")] {
        let text = diamond(rt.alloc(), 2_000, back)?;
        shows(&rt, rt.alloc(), text.as_bytes(), What::Loop, wanted)?;
    }
    Ok(())
}
