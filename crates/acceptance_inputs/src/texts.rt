//! The object text of the worked examples.

ghost use Rattle.std.specs.Prelude.{◌≡◌, ◌++◌, IfOk, codes, string_bytes};

use std::alloc::{AllocError, Global};

/// One host, its contact and a command.
pub const BASE: &str = "\
define command{
 command_name mail
 command_line /usr/bin/true
}
define contact{
 contact_name ann
 host_notification_commands mail
 service_notification_commands mail
}
define host{
 host_name web
 contacts ann
 notification_interval 1
}
";

/// The input of BASE and this feed.
pub fn input(alloc: Global, feed: &str) -> Result<String, AllocError>
    ensures { IfOk result (λ text. string_bytes text ≡ BASE.now ++ codes "%events\n" ++ feed.now) }
{
    let mut text = String::from_str(alloc, BASE)?;
    text.push_str("%events\n")?;
    text.push_str(feed)?;
    Ok(text)
}
