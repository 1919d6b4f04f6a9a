//! The spellings of directives that Nagios takes beside the standard ones, type by type (`xodtemplate.c` of Nagios Core 4.4.6).

ghost use Rattle.std.specs.Prelude.{◌≡◌};
ghost use Rattle.std.specs.Str.{bytes_eq};
ghost use Rattle.nagios_text.specs.claims.Names.{for_contacts, for_dependents, for_hosts, for_masters, for_objects};
ghost use Rattle.nagios_text.specs.claims.Names.{for_service_blocks, for_service_masters, for_services, plain_name};

use object_reader::block::BlockKind;

/// Whether bytes are a word.
pub(crate) fn is_word(bytes: &[u8], word: &str) -> bool
    ensures { result ≡ bytes_eq bytes.now word.now }
{
    bytes == word.as_bytes()
}

/// In host blocks.
fn for_hosts(name: &[u8]) -> &[u8]
    ensures { result.now ≡ for_hosts name.now }
{
    if is_word(name, "host_groups") {
        "hostgroups".as_bytes()
    } else {
        name
    }
}

/// In contact blocks.
fn for_contacts(name: &[u8]) -> &[u8]
    ensures { result.now ≡ for_contacts name.now }
{
    if is_word(name, "contact_groups") {
        "contactgroups".as_bytes()
    } else {
        name
    }
}

/// Where hosts are named.
fn for_objects(name: &[u8]) -> &[u8]
    ensures { result.now ≡ for_objects name.now }
{
    if is_word(name, "host") || is_word(name, "hosts") {
        "host_name".as_bytes()
    } else if is_word(name, "hostgroup") || is_word(name, "hostgroups") {
        "hostgroup_name".as_bytes()
    } else {
        name
    }
}

/// Where services are.
fn for_services(name: &[u8]) -> &[u8]
    ensures { result.now ≡ for_services name.now }
{
    if is_word(name, "description") {
        "service_description".as_bytes()
    } else if is_word(name, "servicegroup") || is_word(name, "servicegroups") {
        "servicegroup_name".as_bytes()
    } else {
        for_objects(name)
    }
}

/// Where those are named that depend.
fn for_dependents(name: &[u8]) -> &[u8]
    ensures { result.now ≡ for_dependents name.now }
{
    if is_word(name, "dependent_host") {
        "dependent_host_name".as_bytes()
    } else if is_word(name, "dependent_hostgroup") || is_word(name, "dependent_hostgroups") {
        "dependent_hostgroup_name".as_bytes()
    } else if is_word(name, "dependent_description") {
        "dependent_service_description".as_bytes()
    } else if is_word(name, "dependent_servicegroup") || is_word(name, "dependent_servicegroups") {
        "dependent_servicegroup_name".as_bytes()
    } else if is_word(name, "notification_failure_options") {
        "notification_failure_criteria".as_bytes()
    } else {
        name
    }
}

/// In blocks of dependencies of hosts.
fn for_masters(name: &[u8]) -> &[u8]
    ensures { result.now ≡ for_masters name.now }
{
    if is_word(name, "master_host") || is_word(name, "master_host_name") {
        "host_name".as_bytes()
    } else {
        for_dependents(for_objects(name))
    }
}

/// In blocks of dependencies of services.
fn for_service_masters(name: &[u8]) -> &[u8]
    ensures { result.now ≡ for_service_masters name.now }
{
    if is_word(name, "master_host") || is_word(name, "master_host_name") {
        "host_name".as_bytes()
    } else if is_word(name, "master_description") || is_word(name, "master_service_description") {
        "service_description".as_bytes()
    } else {
        for_dependents(for_services(name))
    }
}

/// In service blocks.
fn for_service_blocks(name: &[u8]) -> &[u8]
    ensures { result.now ≡ for_service_blocks name.now }
{
    if is_word(name, "service_groups") {
        "servicegroups".as_bytes()
    } else if is_word(name, "description") {
        "service_description".as_bytes()
    } else {
        for_objects(name)
    }
}

/// The standard name of a directive in blocks of the kind.
pub(crate) fn plain_name(kind: BlockKind, name: &[u8]) -> &[u8]
    ensures { result.now ≡ plain_name kind name.now }
{
    match kind {
        BlockKind::Host => for_hosts(name),
        BlockKind::Service => for_service_blocks(name),
        BlockKind::Contact => for_contacts(name),
        BlockKind::HostEscalation => for_objects(name),
        BlockKind::ServiceEscalation => for_services(name),
        BlockKind::HostDependency => for_masters(name),
        BlockKind::ServiceDependency => for_service_masters(name),
        _ => name,
    }
}
