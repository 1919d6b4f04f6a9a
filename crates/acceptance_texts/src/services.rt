//! The hosts of service blocks, the places of services, and the members of service groups, as the manual's rules give them.

use crate::of_services::Asked;
use crate::shown::{Case, What, all_show, shows};
use std::alloc::{AllocError, Global};
use std::fmt::Write;

/// Hosts a, b and c, and groups of them, before the service blocks of each text.
const HOSTS: &str =
    "define host{\nhost_name a\n}\ndefine host{\nhost_name b\nhostgroups g\n}\ndefine host{\nhost_name c\n}\ndefine hostgroup{\nhostgroup_name g\nmembers a\n}\ndefine hostgroup{\nhostgroup_name h\nmembers c,b\n}\n";

/// Service blocks, and the hosts of each: lists, `*`, groups that reach a host twice, and what a template gives.
const BLOCKS: [Case; 4] = [
    (
        "define service{\nservice_description s\nhost_name b,a\n}\n",
        "s:a.b.\n",
    ),
    (
        "define service{\nservice_description s\nhost_name *\n}\n",
        "s:a.b.c.\n",
    ),
    (
        "define service{\nservice_description s\nhostgroup_name h,g\nhost_name b\n}\n",
        "s:a.b.c.\n",
    ),
    (
        "define service{\nname t\nregister 0\nhost_name c\nhostgroup_name g\n}\ndefine service{\nuse t\nservice_description s\n}\n",
        "s:a.b.c.\n",
    ),
];

/// Service blocks and groups; the first group whose members aren't pairs, the first doubled block, how many hosts each has, and where the
/// services s and t of three hosts and those of the members a,s,b,t stand.
const SERVICES: [Case; 3] = [
    (
        "define service{\nservice_description s\nhost_name b,a\n}\ndefine service{\nservice_description t\nhost_name *\n}\ndefine service{\nservice_description s\nhostgroup_name h\n}\n",
        "- 2 2.3.2. 016 234 0.3.",
    ),
    (
        "define service{\nservice_description t\nhost_name b\n}\ndefine service{\nservice_description s\nhostgroup_name g\n}\ndefine servicegroup{\nservicegroup_name v\nmembers a,s,b,t\n}\n",
        "- - 1.2. 12- -0- 1.0.",
    ),
    (
        "define service{\nservice_description s\nhost_name a\n}\ndefine servicegroup{\nservicegroup_name v\nmembers a,s,b,s\n}\n",
        "6 - 1. 0-- --- 0.",
    ),
];

/// Service groups after the same hosts and services s of a and b and t of b, in this order, and their members: in the order of the services,
/// each once; those whose blocks name the group; groups of groups, a loop; and a list that is added to another.
const GROUPS: [Case; 4] = [
    (
        "define servicegroup{\nservicegroup_name v\nmembers b,t,b,s,a,s,b,t\n}\n",
        "v:0.1.2.\n",
    ),
    (
        "define service{\nservice_description u\nhost_name *\nservicegroups w,v\n}\ndefine servicegroup{\nservicegroup_name v\nmembers b,t\n}\ndefine servicegroup{\nservicegroup_name w\n}\n",
        "v:2.3.4.\nw:3.4.\n",
    ),
    (
        "define servicegroup{\nservicegroup_name v\nservicegroup_members w\nmembers a,s\n}\ndefine servicegroup{\nservicegroup_name w\nservicegroup_members v,w\nmembers b,t\n}\n",
        "v:0.2.\nw:0.2.\n",
    ),
    (
        "define servicegroup{\nname t\nregister 0\nmembers b,t,a\nservicegroup_members y\n}\ndefine servicegroup{\nname u\nuse t\nregister 0\nmembers +s,b\n}\ndefine servicegroup{\nuse u\nservicegroup_name v\nmembers +s\n}\ndefine servicegroup{\nuse u\nservicegroup_name w\nmembers +t,a,s\n}\ndefine servicegroup{\nservicegroup_name y\n}\n",
        "v:0.1.2.\nw:0.2.\ny:\n",
    ),
];

/// Hosts a and b. Service s of a has place 0, s of b place 1, and t of b place 2.
const THREE: &str =
    "define host{\nhost_name a\n}\ndefine host{\nhost_name b\nhostgroups g\n}\ndefine hostgroup{\nhostgroup_name g\n}\ndefine service{\nservice_description s\nhost_name b,a\n}\ndefine service{\nservice_description t\nhostgroup_name g\n}\n";

#[test]
fn service_blocks_have_the_hosts_that_the_rules_give(rt: HostRuntime) -> Result<(), AllocError> {
    let hosts = What::OfServices(Asked::Hosts);
    all_show(&rt, rt.alloc(), HOSTS, &BLOCKS, hosts)?;
    let services = What::OfServices(Asked::Services);
    all_show(&rt, rt.alloc(), HOSTS, &SERVICES, services)?;
    let groups = What::OfServices(Asked::Groups);
    all_show(&rt, rt.alloc(), THREE, &GROUPS, groups)
}

/// So many hosts, and so many service blocks with all of them, of different descriptions; a service group of the last, and one that has no
/// pair.
fn site(alloc: Global, hosts: u32, services: u32) -> Result<String, AllocError> {
    let mut out = String::new(alloc);
    for host in 0..hosts {
        write!(out, "define host{{\nhost_name {host}\n}}\n")?;
    }
    for service in 0..services {
        write!(
            out,
            "define service{{\nhost_name *\nservice_description {service}\n}}\n"
        )?;
    }
    let (host, service) = (hosts.saturating_sub(1), services.saturating_sub(1));
    write!(
        out,
        "define servicegroup{{\nservicegroup_name v\nmembers {host},{service}\n}}\ndefine servicegroup{{\nservicegroup_name w\nmembers 0,x\n}}\n"
    )?;
    Ok(out)
}

/// With 256 hosts there may be 65,535 - 256 services: those of 254 blocks, and not of one more. Members are found all the same.
#[test]
fn the_first_block_past_the_limit_is_refused(rt: HostRuntime) -> Result<(), AllocError> {
    let text = site(rt.alloc(), 256, 300)?;
    let services = What::OfServices(Asked::Services);
    shows(
        &rt,
        rt.alloc(),
        text.as_bytes(),
        services,
        "557 - 1785 TooMany",
    )
}
