//! The last line of a check: what was checked, and what was found.

use crate::options::Form;
use due_model::config::Config;
use faults_told::forms::{push_count, push_string};
use faults_told::text_forms::{push, push_number};
use std::alloc::{AllocError, Global};

/// Adds how many of something there are.
pub(crate) fn push_some(
    text: &mut Vec<u8>,
    number: usize,
    one: &str,
    more: &str,
) -> Result<(), AllocError> {
    push_counted(text, number as u64, one, more)
}

/// Adds how many of something there are, in words.
fn push_counted(text: &mut Vec<u8>, count: u64, one: &str, more: &str) -> Result<(), AllocError> {
    push_number(text, count)?;
    text.push(b' ')?;
    push(text, if count == 1 { one } else { more })
}

/// Adds the last line: what was checked, of which these are the words, and how many faults and warnings there are.
pub(crate) fn push_end(
    text: &mut Vec<u8>,
    form: Form<'_, '_>,
    checked: &[u8],
    faults: u64,
    warnings: u64,
) -> Result<(), AllocError> {
    if form.json {
        push(text, "{\"checked\":")?;
        push_string(text, checked)?;
        push_count(text, "faults", faults)?;
        push_count(text, "warnings", warnings)?;
        return push(text, "}\n");
    }
    push(text, "checked ")?;
    text.extend_from_slice(checked)?;
    push(text, ": ")?;
    push_counted(text, faults, "fault, ", "faults, ")?;
    push_counted(text, warnings, "warning\n", "warnings\n")
}

/// How many hosts the configuration has.
fn host_count(config: &Config) -> usize {
    let mut count: usize = 0;
    for object in config.objects.as_slice() {
        if object.host.is_none() {
            count = count.saturating_add(1);
        }
    }
    count
}

/// What a configuration has, in words.
pub(crate) fn words_of(alloc: Global, config: &Config) -> Result<Vec<u8>, AllocError> {
    let mut words = Vec::new(alloc);
    let hosts = host_count(config);
    let services = config.objects.len().saturating_sub(hosts);
    push_some(&mut words, hosts, "host", "hosts")?;
    push(&mut words, ", ")?;
    push_some(&mut words, services, "service", "services")?;
    push(&mut words, ", ")?;
    push_some(&mut words, config.contacts.len(), "contact", "contacts")?;
    push(&mut words, ", ")?;
    push_some(&mut words, config.periods.len(), "period", "periods")?;
    push(&mut words, ", ")?;
    push_some(
        &mut words,
        config.escalations.len(),
        "escalation",
        "escalations",
    )?;
    push(&mut words, ", ")?;
    push_some(
        &mut words,
        config.dependencies.len(),
        "dependency",
        "dependencies",
    )?;
    Ok(words)
}
