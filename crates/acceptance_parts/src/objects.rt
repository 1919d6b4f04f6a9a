//! Objects by name.

use acceptance_inputs::configs::object;
use due_model::config::ObjectId;
use due_model::objects::Objects;
use std::alloc::{AllocError, Global};
use std::process::Abort;
use std::test::Fail;

/// More objects than a list here has.
const MANY: usize = 100;

/// Hosts, and services of the host of this number; the last one's host isn't in the list.
const OBJECTS: [(&str, Option<ObjectId>); 6] = [
    ("web", None),
    ("db", None),
    ("disk", Some(ObjectId(1))),
    ("disk", Some(ObjectId(0))),
    ("web", None),
    ("ping", Some(ObjectId(9))),
];

/// A host's name, a service's, and the object that they name.
const FOUND: [(&[u8], Option<&[u8]>, Option<ObjectId>); 9] = [
    (b"web", None, Some(ObjectId(0))),
    (b"db", None, Some(ObjectId(1))),
    (b"disk", None, None),
    (b"db", Some(b"disk"), Some(ObjectId(2))),
    (b"web", Some(b"disk"), Some(ObjectId(3))),
    (b"web", Some(b""), None),
    (b"", Some(b"ping"), None),
    (b"web", Some(b"ping"), None),
    (b"we", None, None),
];

/// The objects of a list of names and hosts.
fn objects(
    rt: &impl Abort,
    alloc: Global,
    names: &[(&'static str, Option<ObjectId>)],
) -> Result<Objects, AllocError> {
    let mut objects = Vec::new(alloc);
    for named in names {
        let (name, host) = *named;
        objects.push(object(alloc, name, host)?)?;
    }
    assert!(rt; objects.len() < MANY);
    Objects::new(alloc, objects)
}

#[test]
fn finds_by_name(rt: HostRuntime) -> Result<(), Fail> {
    let objects = objects(&rt, rt.alloc(), &OBJECTS)?;
    for row in &FOUND {
        let (host, service, found) = *row;
        assert_eq!(rt; objects.find(host, service), found, "{host:?} {service:?}");
    }
    Ok(())
}
