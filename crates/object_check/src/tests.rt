use crate::marks::{name_misfits, value_misfits};
use crate::misfits::Misfit;
use object_inheritance::templates::Templates;
use object_names::named::NamedObjects;
use object_reader::reading::read;
use std::alloc::{AllocError, Global};

/// A host without a name and with an interval that isn't a number, and one of an unknown contact.
const TEXT: &[u8] = b"define host{
 notification_interval x
}
define host{
 host_name web
 contacts bob
}
";

/// The faults of its values: the first block lacks its name, and its interval isn't a number.
const VALUES: [Misfit; 2] = [Misfit { place: 0, row: 0 }, Misfit { place: 0, row: 16 }];

/// That of its names: the contact isn't there.
const NAMES: [Misfit; 1] = [Misfit { place: 1, row: 1 }];

/// The faults of the values, and those of the names.
fn found(alloc: Global) -> Result<(Vec<Misfit>, Vec<Misfit>), AllocError> {
    let text = Vec::from_slice(alloc, TEXT)?;
    let Ok(blocks) = read(alloc, &text) else {
        return Err(AllocError);
    };
    let Ok(templates) = Templates::new(alloc, blocks.as_slice()) else {
        return Err(AllocError);
    };
    let objects = NamedObjects::new(alloc, &templates)?;
    let values = value_misfits(alloc, &templates, &objects)?;
    let names = name_misfits(alloc, &templates, &objects)?;
    Ok((values, names))
}

#[test]
fn all_faults_are_told(rt: HostRuntime) -> Result<(), AllocError> {
    let (values, names) = found(rt.alloc())?;
    assert!(rt; values.as_slice() == VALUES.as_slice());
    assert!(rt; names.as_slice() == NAMES.as_slice());
    Ok(())
}
