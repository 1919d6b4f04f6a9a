//! The members of groups, and the names of objects and groups, as the manual's rules give them.

use crate::shown::{Case, What, all_show, shows};
use object_groups::groups::GroupKind;
use object_groups::laws::loop_adds_nothing;
use object_groups::names::{Names, has_exclusion, is_all};
use object_reader::block::BlockKind;
use object_values::values::entries;
use std::alloc::{AllocError, Global};
use std::fmt::Write;
use std::process::Abort;

/// Hosts a, b and c, before the groups of each text.
const HOSTS: &str =
    "define host{\nhost_name a\n}\ndefine host{\nhost_name b\n}\ndefine host{\nhost_name c\n}\n";

/// Groups of hosts, and the members of each: lists, `*`, names that no host has, groups of groups, a loop, what templates give, and two
/// groups of one name.
const CASES: [Case; 8] = [
    (
        "define hostgroup{\nhostgroup_name g\nmembers c,a\n}\n",
        "g:a.c.\n",
    ),
    (
        "define hostgroup{\nhostgroup_name g\nmembers *,b\n}\n",
        "g:b.\n",
    ),
    (
        "define hostgroup{\nhostgroup_name g\nmembers b,x\n}\n",
        "g:b.\n",
    ),
    (
        "define hostgroup{\nhostgroup_name g\nhostgroup_members *\n}\ndefine hostgroup{\nhostgroup_name h\nmembers a\n}\ndefine hostgroup{\nhostgroup_name i\nmembers b\n}\n",
        "g:a.b.\nh:a.\ni:b.\n",
    ),
    (
        "define hostgroup{\nhostgroup_name g\nhostgroup_members h\nmembers c\n}\ndefine hostgroup{\nhostgroup_name h\nhostgroup_members g\nmembers a\n}\n",
        "g:a.c.\nh:a.c.\n",
    ),
    (
        "define hostgroup{\nname t\nregister 0\nmembers a\nhostgroup_members i\n}\ndefine hostgroup{\nuse t\nhostgroup_name g\n}\ndefine hostgroup{\nuse t\nhostgroup_name h\nhostgroup_members null\n}\ndefine hostgroup{\nhostgroup_name i\nmembers c\n}\n",
        "g:a.c.\nh:a.\ni:c.\n",
    ),
    (
        "define host{\nname t\nregister 0\nhostgroups *\n}\ndefine host{\nuse t\nhost_name d\n}\ndefine host{\nuse t\nhost_name e\nhostgroups +g\n}\ndefine host{\nuse t\nhost_name f\nhostgroups +\n}\ndefine hostgroup{\nhostgroup_name g\n}\ndefine hostgroup{\nhostgroup_name h\n}\n",
        "g:d.e.f.\nh:d.f.\n",
    ),
    (
        "define hostgroup{\nhostgroup_name g\nmembers a\n}\ndefine hostgroup{\nhostgroup_name g\nmembers b\n}\ndefine hostgroup{\nhostgroup_name h\nhostgroup_members g\n}\n",
        "g:a.\ng:b.\nh:a.\n",
    ),
];

/// Contacts in two groups, one of them in the other.
const CONTACTS: [Case; 1] = [(
    "define contact{\ncontact_name ann\ncontactgroups g\n}\ndefine contact{\ncontact_name bob\n}\ndefine contactgroup{\ncontactgroup_name g\ncontactgroup_members h\n}\ndefine contactgroup{\ncontactgroup_name h\nmembers bob,ann\n}\n",
    "g:ann.bob.\nh:ann.bob.\n",
)];

/// Objects of several types, some of them doubled, and templates.
const OBJECTS: [Case; 1] = [(
    "define host{\nhost_name a\n}\ndefine contact{\ncontact_name a\n}\ndefine host{\nname t\nregister 0\nhost_name b\n}\ndefine host{\nuse t\n}\ndefine host{\nhost_name a\n}\ndefine host{\nregister x\n}\n",
    "0 a 0 false\n3 b 1 false\n4 a 0 true\n5  3 false\n",
)];

#[test]
fn groups_have_the_members_that_the_rules_give(rt: HostRuntime) -> Result<(), AllocError> {
    loop_adds_nothing();
    let of_hosts = What::Groups(GroupKind::HostGroups);
    all_show(&rt, rt.alloc(), HOSTS, &CASES, of_hosts)?;
    let of_contacts = What::Groups(GroupKind::ContactGroups);
    all_show(&rt, rt.alloc(), "", &CONTACTS, of_contacts)?;
    let objects = What::Objects(BlockKind::Host);
    all_show(&rt, rt.alloc(), "", &OBJECTS, objects)
}

/// Adds a group that lists both of the next row.
fn add_side(text: &mut String, side: &str, row: u32) -> Result<(), AllocError> {
    let next = row.saturating_add(1);
    write!(
        text,
        "define hostgroup{{\nhostgroup_name {side}{row}\nhostgroup_members l{next},r{next}\n}}\n"
    )
}

/// A host, and so many rows of two groups, each of which lists both of the next row; the host is in the last.
fn diamonds(alloc: Global, rows: u32) -> Result<String, AllocError> {
    let mut text = String::new(alloc);
    for row in 0..rows {
        add_side(&mut text, "l", row)?;
        add_side(&mut text, "r", row)?;
    }
    write!(text, "define host{{\nhost_name a\nhostgroups l{rows}\n}}\n")?;
    write!(text, "define hostgroup{{\nhostgroup_name l{rows}\n}}\n")?;
    write!(text, "define hostgroup{{\nhostgroup_name r{rows}\n}}\n")?;
    Ok(text)
}

#[test]
fn long_chains_and_wide_diamonds_have_members(rt: HostRuntime) -> Result<(), AllocError> {
    let text = diamonds(rt.alloc(), 10_000)?;
    shows(
        &rt,
        rt.alloc(),
        text.as_bytes(),
        What::FirstGroup,
        "l0:a.\n",
    )
}

/// The names ann, bob and bob.
fn three_names(alloc: Global) -> Result<Names<'static>, AllocError> {
    let names: [&[u8]; 3] = [b"ann", b"bob", b"bob"];
    Names::new(alloc, Vec::from_slice(alloc, &names)?)
}

/// Adds what the entries of a list are, beside some names: whether they mean all, leave something out, or have one that none
/// of the names is.
fn add_list(out: &mut String, names: &Names<'_>, entries: &[&[u8]]) -> Result<(), AllocError> {
    let all = is_all(entries);
    let excludes = has_exclusion(entries);
    let unknown = names.has_unknown(entries);
    write!(out, "{all} {excludes} {unknown}")
}

/// Lists of names, and what they are.
const LISTS: [Case; 9] = [
    ("", "false false false"),
    ("*", "true false false"),
    ("*,ann", "false false true"),
    ("ann,bob", "false false false"),
    ("ann,cat,bob", "false false true"),
    ("ann,!bob", "false true true"),
    ("!", "false true true"),
    ("ann,ann", "false false false"),
    ("an", "false false true"),
];

/// Compares what a list is.
fn list_is(
    rt: &impl Abort,
    alloc: Global,
    names: &Names<'_>,
    case: Case,
) -> Result<(), AllocError> {
    let list = entries(alloc, case.0.as_bytes())?;
    let mut out = String::new(alloc);
    add_list(&mut out, names, list.as_slice())?;
    assert!(rt; out.as_str() == case.1, "{}", case.0);
    Ok(())
}

/// Compares what each list is.
fn lists_are(rt: &impl Abort, alloc: Global, names: &Names<'_>) -> Result<(), AllocError> {
    for case in &LISTS {
        list_is(rt, alloc, names, *case)?;
    }
    Ok(())
}

#[test]
fn lists_are_what_the_rules_give(rt: HostRuntime) -> Result<(), AllocError> {
    let names = three_names(rt.alloc())?;
    lists_are(&rt, rt.alloc(), &names)
}
