//! The names of a command line, and which of them aren't known.

ghost use Rattle.std.specs.Prelude.{◌≡◌, ◌∷◌, ◌++◌, find, is_some, not, None, IfNone, IfSome};
ghost use Rattle.std.specs.Option.{option_copied};
ghost use Rattle.due_model.specs.claims.Objects.{object_named};
ghost use Rattle.who_told.specs.Names.{Lacks};
ghost use Rattle.who_told.specs.Unknown.{is_host_state, is_known, is_service_state, unknown_down, unknown_in};
ghost use Rattle.who_told.specs.Unknown.{unknown_object, unknown_service, unknown_state};

use due_model::config::Config;
use made_feed::Supposed;

/// The host of a name `host` or `host/service`, and the service where one is named: the host is all before the first slash.
pub fn object_parts(name: &str) -> (&str, Option<&str>)
    ensures unbroken { Lacks 47 result.0.now }
    ensures host { IfNone result.1 (result.0.now ≡ name.now) }
    ensures service { IfSome result.1 (λ service. name.now ≡ result.0.now ++ 47 ∷ service.now) }
{
    match name.split_once('/') {
        Some((host, service)) => (host, Some(service)),
        None => (name, None),
    }
}

/// What isn't known of what is supposed, the first that is found.
#[derive(Clone, Copy, Debug, PartialEq, Eq)]
pub enum Unknown<'a> {
    /// There is no host of this name.
    Host(&'a str),
    /// The host of this name has no service of that one.
    Service(&'a str, &'a str),
    /// This is no state of a host.
    HostState(&'a str),
    /// This is no state of a service.
    ServiceState(&'a str),
}

/// Whether an object of this name is known: a host or, where a service is given, that service of it.
fn is_known(config: &Config, host: &str, service: Option<&str>) -> bool
    ensures { result ≡ is_known config.now host.now (option_copied service.entry) }
{
    let service = match service {
        Some(service) => Some(service.as_bytes()),
        None => None,
    };
    config.objects.find(host.as_bytes(), service).is_some()
}

/// The first of these hosts that isn't known.
fn first_unknown<'a>(config: &Config, down: &[&'a str]) -> Option<&'a str>
    ensures { result ≡ find (λ host. not (is_known config.now host.now None)) down.entry.now }
{
    down.iter()
        .copied()
        .find(|host| !is_known(config, host, None))
}

/// The first host of those that are down that isn't known.
fn unknown_down<'a>(config: &Config, supposed: &Supposed<'a>) -> Option<Unknown<'a>>
    ensures { result ≡ unknown_down config.now supposed.now }
{
    match first_unknown(config, supposed.down) {
        Some(host) => Some(Unknown::Host(host)),
        None => None,
    }
}

/// The service that isn't known, of a host that is.
fn unknown_service<'a>(config: &Config, supposed: &Supposed<'a>) -> Option<Unknown<'a>>
    ensures { result ≡ unknown_service config.now supposed.now }
{
    if is_known(config, supposed.host, supposed.service) {
        return None;
    }
    match supposed.service {
        Some(service) => Some(Unknown::Service(supposed.host, service)),
        None => None,
    }
}

/// Which of the names of the object isn't known.
fn unknown_object<'a>(config: &Config, supposed: &Supposed<'a>) -> Option<Unknown<'a>>
    ensures { result ≡ unknown_object config.now supposed.now }
{
    if is_known(config, supposed.host, None) {
        unknown_service(config, supposed)
    } else {
        Some(Unknown::Host(supposed.host))
    }
}

/// Whether a word is a state of a host.
fn is_host_state(word: &str) -> bool
    ensures { result ≡ is_host_state word.now }
{
    word == "UP" || word == "DOWN" || word == "UNREACHABLE"
}

/// Whether a word is a state of a service.
fn is_service_state(word: &str) -> bool
    ensures { result ≡ is_service_state word.now }
{
    word == "OK" || word == "WARNING" || word == "UNKNOWN" || word == "CRITICAL"
}

/// The state, where it is none of such an object.
fn unknown_state<'a>(supposed: &Supposed<'a>) -> Option<Unknown<'a>>
    ensures { result ≡ unknown_state supposed.now }
{
    match supposed.service {
        None if !is_host_state(supposed.state) => Some(Unknown::HostState(supposed.state)),
        Some(_) if !is_service_state(supposed.state) => {
            Some(Unknown::ServiceState(supposed.state))
        }
        _ => None,
    }
}

/// What isn't known of what is supposed, the first that is found: a host that is down, the object, its state.
pub(crate) fn unknown_in<'a>(config: &Config, supposed: &Supposed<'a>) -> Option<Unknown<'a>>
    ensures { result ≡ unknown_in config.now supposed.now }
{
    let down = unknown_down(config, supposed);
    if down.is_some() {
        return down;
    }
    let object = unknown_object(config, supposed);
    if object.is_some() {
        return object;
    }
    unknown_state(supposed)
}
