//! The objects of which escalation blocks speak, and the dependencies of blocks, as the manual's rules give them.

use crate::of_services::Asked;
use crate::shown::{Case, What, all_show, shows};
use std::alloc::{AllocError, Global};
use std::fmt::Write;

/// Hosts a, b and c, the numbers 0, 1 and 2. Service s of a is object 3, s of b object 4, and t of b object 5. Group g has
/// b, group k none; service group v has t of b and s of a, and w has v and s of b. Period p is number 0. The blocks that
/// follow stand from place 11 on.
const OBJECTS: &str =
    "define host{\nhost_name a\n}\ndefine host{\nhost_name b\nhostgroups g\n}\ndefine host{\nhost_name c\n}\ndefine hostgroup{\nhostgroup_name g\n}\ndefine hostgroup{\nhostgroup_name k\n}\ndefine service{\nservice_description s\nhost_name b,a\n}\ndefine service{\nservice_description t\nhostgroup_name g\n}\ndefine servicegroup{\nservicegroup_name v\nmembers b,t,a,s\n}\ndefine servicegroup{\nservicegroup_name w\nservicegroup_members v\nmembers b,s\n}\ndefine timeperiod{\ntimeperiod_name p\n}\ndefine host{\nname m\nregister 0\n}\n";

/// Escalation blocks after them, and the objects of which each speaks: by names, by groups, by descriptions, by service groups, and what a
/// template gives.
const ESCALATIONS: [Case; 6] = [
    ("define hostescalation{\nhost_name b,a\n}\n", "11:0.1."),
    (
        "define hostescalation{\nhostgroup_name g\n}\ndefine hostescalation{\nhost_name *\n}\n",
        "11:1.12:0.1.2.",
    ),
    (
        "define serviceescalation{\nhost_name b,a\nservice_description t,s\n}\n",
        "11:3.4.5.",
    ),
    (
        "define serviceescalation{\nhost_name b\nservice_description *\n}\n",
        "11:4.5.",
    ),
    (
        "define serviceescalation{\nservicegroup_name v\nhost_name b\nservice_description s\n}\n",
        "11:3.4.5.",
    ),
    (
        "define serviceescalation{\nname t\nregister 0\nhost_name a,x\nservice_description s,y\n}\ndefine serviceescalation{\nuse t\nhost_name +b\n}\n",
        "12:3.4.",
    ),
];

/// Dependency blocks after them, and the dependencies that they give: one for each dependent and each master, those of descriptions and of
/// service groups, criteria that name no state, a period, and what a template gives.
const ENTRIES: [Case; 6] = [
    (
        "define hostdependency{\nhost_name a\ndependent_host_name b\nnotification_failure_criteria n\n}\n",
        "1>0  -;",
    ),
    (
        "define hostdependency{\nhost_name a\ndependent_host_name b\nnotification_failure_criteria d\ninherits_parent 1\ndependency_period p\n}\n",
        "1>0+ d 0;",
    ),
    (
        "define hostdependency{\nhost_name b,a\ndependent_host_name c,b,c\nnotification_failure_criteria d\n}\n",
        "1>0 d -;1>1 d -;2>0 d -;2>1 d -;",
    ),
    (
        "define servicedependency{\nhost_name a\nservice_description s\ndependent_host_name b\ndependent_service_description *\nnotification_failure_criteria a\n}\n",
        "4>3 pOWUC -;5>3 pOWUC -;",
    ),
    (
        "define servicedependency{\nhost_name b\nservice_description s\ndependent_servicegroup_name v\ndependent_host_name b\ndependent_service_description s\nnotification_failure_criteria u\n}\n",
        "3>4 U -;4>4 U -;5>4 U -;",
    ),
    (
        "define hostdependency{\nname t\nregister 0\nhost_name a\ndependent_host_name b\nnotification_failure_criteria d\ninherits_parent 1\n}\ndefine hostdependency{\nuse t\ndependent_host_name +c\n}\n",
        "1>0+ d -;2>0+ d -;",
    ),
];

/// The same, and the place of the first on a loop: none of a chain, one on itself, the first that lies on it, and groups that share a service.
const LOOPS: [Case; 5] = [
    (
        "define hostdependency{\nhost_name a\ndependent_host_name b\nnotification_failure_criteria d\n}\n",
        "-",
    ),
    (
        "define hostdependency{\nhost_name a\ndependent_host_name a\nnotification_failure_criteria d\n}\n",
        "11",
    ),
    (
        "define hostdependency{\nhost_name a\ndependent_host_name c\nnotification_failure_criteria d\n}\ndefine hostdependency{\nhost_name a\ndependent_host_name b\nnotification_failure_criteria d\n}\ndefine hostdependency{\nhost_name b\ndependent_host_name a\nnotification_failure_criteria d\n}\n",
        "12",
    ),
    (
        "define servicedependency{\nservicegroup_name v\ndependent_servicegroup_name w\nnotification_failure_criteria c\n}\n",
        "11",
    ),
    (
        "define hostdependency{\nhostgroup_name *\ndependent_host_name b\nnotification_failure_criteria d\n}\n",
        "11",
    ),
];

#[test]
fn blocks_speak_of_the_objects_that_the_rules_give(rt: HostRuntime) -> Result<(), AllocError> {
    let escalated = What::OfServices(Asked::Escalated);
    all_show(&rt, rt.alloc(), OBJECTS, &ESCALATIONS, escalated)?;
    let entries = What::OfServices(Asked::Entries);
    all_show(&rt, rt.alloc(), OBJECTS, &ENTRIES, entries)?;
    let loops = What::OfServices(Asked::Loop);
    all_show(&rt, rt.alloc(), OBJECTS, &LOOPS, loops)
}

/// So many masters in a group, so many dependents in another, and so many blocks of the one on the other.
fn site(alloc: Global, masters: u32, dependents: u32, blocks: u32) -> Result<String, AllocError> {
    let mut out = String::new(alloc);
    out.push_str(
        "define hostgroup{\nhostgroup_name m\n}\ndefine hostgroup{\nhostgroup_name d\n}\n",
    )?;
    for host in 0..masters {
        write!(out, "define host{{\nhost_name m{host}\nhostgroups m\n}}\n")?;
    }
    for host in 0..dependents {
        write!(out, "define host{{\nhost_name d{host}\nhostgroups d\n}}\n")?;
    }
    for _block in 0..blocks {
        out.push_str(
            "define hostdependency{\nhostgroup_name m\ndependent_hostgroup_name d\nnotification_failure_criteria d\n}\n",
        )?;
    }
    Ok(out)
}

/// Such a site, what is asked of it, and the answer: a block of 100 masters and 1,000 dependents gives 100,000 dependencies, of which ten
/// blocks fit, and not one more; one of 5,000 and 5,000 is refused, and 250 of them are looked at for loops, without them.
const SITES: [(u32, u32, u32, Asked, &str); 4] = [
    (100, 1000, 10, Asked::Count, "1000000"),
    (100, 1000, 12, Asked::Entries, "1112 4457 TooMany"),
    (5000, 5000, 1, Asked::Entries, "10002 40007 TooMany"),
    (5000, 5000, 250, Asked::Loop, "-"),
];

#[test]
fn the_first_block_past_the_limit_of_dependencies_is_refused(
    rt: HostRuntime,
) -> Result<(), AllocError> {
    for (masters, dependents, blocks, asked, wanted) in SITES {
        let text = site(rt.alloc(), masters, dependents, blocks)?;
        let what = What::OfServices(asked);
        shows(&rt, rt.alloc(), text.as_bytes(), what, wanted)?;
    }
    Ok(())
}

/// So many hosts, and so many escalation blocks of all of them.
fn escalated_site(alloc: Global, hosts: u32, escalations: u32) -> Result<String, AllocError> {
    let mut out = String::new(alloc);
    for host in 0..hosts {
        write!(out, "define host{{\nhost_name {host}\n}}\n")?;
    }
    for _escalation in 0..escalations {
        out.push_str("define hostescalation{\nhost_name *\n}\n")?;
    }
    Ok(out)
}

/// With 1,000 hosts a block of all of them gives 1,000 escalations: 1,000 blocks fit, and not one more.
#[test]
fn the_first_block_past_the_limit_of_escalations_is_refused(
    rt: HostRuntime,
) -> Result<(), AllocError> {
    let text = escalated_site(rt.alloc(), 1000, 1002)?;
    let what = What::OfServices(Asked::Escalated);
    shows(&rt, rt.alloc(), text.as_bytes(), what, "2000 6001 TooMany")
}
