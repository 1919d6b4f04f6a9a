//! How a block is named.

use crate::telling::kind_word;
use object_groups::objects::name_directive;
use object_inheritance::registered::registers;
use object_reader::block::{Block, BlockKind};
use object_values::values::value_in;

/// A block by its type and its name.
#[derive(Clone, Copy)]
pub struct NamedBlock<'a> {
    /// The type, as a `define` has it.
    pub kind: &'static str,
    /// Whether it is named as a template.
    pub is_template: bool,
    /// Its name; empty where it gives none itself.
    pub name: &'a [u8],
    /// The hosts of a service, as they are listed; else empty.
    pub hosts: &'a [u8],
}

/// What the block gives for the directive itself.
fn own<'a>(block: &'a Block, directive: &str) -> Option<&'a [u8]> {
    value_in(block.directives.as_slice(), directive.as_bytes())
}

/// What the block lists of hosts or groups itself.
fn listed(block: &Block) -> &[u8] {
    let hosts = own(block, "host_name").or(own(block, "hostgroup_name"));
    hosts.or(own(block, "servicegroup_name")).unwrap_or(&[])
}

/// The name that a block has as an object: that of its own directive, or for escalations and dependencies what they list.
fn object_name(block: &Block) -> &[u8] {
    let directive = name_directive(block.kind);
    if directive.is_empty() {
        listed(block)
    } else {
        own(block, directive).unwrap_or(&[])
    }
}

/// The hosts of a service block.
fn hosts_of(block: &Block) -> &[u8] {
    match block.kind {
        BlockKind::Service => listed(block),
        _ => &[],
    }
}

/// How the block is named: as an object, if it is one and gives a name; else as a template, if it is one.
pub fn named(block: &Block) -> NamedBlock<'_> {
    let kind = kind_word(block.kind);
    let name = object_name(block);
    let is_object = registers(own(block, "register")) && !name.is_empty();
    match own(block, "name") {
        Some(template) if !is_object => NamedBlock {
            kind,
            is_template: true,
            name: template,
            hosts: &[],
        },
        _ => NamedBlock {
            kind,
            is_template: false,
            name,
            hosts: hosts_of(block),
        },
    }
}
