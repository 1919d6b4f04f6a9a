//! What blocks inherit from templates, as the manual's rules give it. What a configuration has of it is seen through the program.

use crate::shown::{What, shows};
use std::alloc::{AllocError, Global};
use std::fmt::Write;

/// Texts, a directive, and what each block has for it: a template has what it inherits itself, before the next one is asked; lists are added to,
/// template by template; `register` isn't inherited; `null` is empty.
const CASES: [(&str, &'static str, &str); 4] = [
    (
        "define host{\nuse a,b\n}\ndefine host{\nname a\nuse c\n}\ndefine host{\nname b\ncontacts y\n}\ndefine host{\nname c\ncontacts z\n}\n",
        "contacts",
        "z|z|z.\nz|z|z.\ny|y|y.\nz|z|z.\n",
    ),
    (
        "define host{\nuse a\ncontacts +w\n}\ndefine host{\nname a\nuse c\ncontacts +x\n}\ndefine host{\nname c\ncontacts z\n}\n",
        "contacts",
        "+w|+w|z.x.w.\n+x|+x|z.x.\nz|z|z.\n",
    ),
    (
        "define host{\nname t\nregister 0\n}\ndefine host{\nuse t\n}\n",
        "register",
        "0|0|0.\n||none\n",
    ),
    (
        "define contact{\nname t\nservice_notification_period null\n}\ndefine contact{\nuse t\n}\n",
        "service_notification_period",
        "null||\nnull||\n",
    ),
];

#[test]
fn blocks_have_what_the_rules_give(rt: HostRuntime) -> Result<(), AllocError> {
    for (text, directive, wanted) in CASES {
        let what = What::Values(directive, usize::MAX);
        shows(&rt, rt.alloc(), text.as_bytes(), what, wanted)?;
    }
    Ok(())
}

/// Two templates of a row, which use both templates of the next.
fn add_row(text: &mut String, row: u32) -> Result<(), AllocError> {
    let next = row.saturating_add(1);
    for side in ["a", "b"] {
        write!(
            text,
            "define host{{\nname {side}{row}\nuse a{next},b{next}\n}}\n"
        )?;
    }
    Ok(())
}

/// So many rows of two templates each, which use both templates of the next row; those of the last row give a contact each.
fn diamonds(alloc: Global, rows: u32) -> Result<String, AllocError> {
    let mut text = String::new(alloc);
    for row in 0..rows {
        add_row(&mut text, row)?;
    }
    for side in ["a", "b"] {
        write!(
            text,
            "define host{{\nname {side}{rows}\ncontacts {side}\n}}\n"
        )?;
    }
    Ok(text)
}

#[test]
fn long_chains_and_wide_diamonds_are_resolved(rt: HostRuntime) -> Result<(), AllocError> {
    let text = diamonds(rt.alloc(), 10_000)?;
    let what = What::Values("contacts", 1);
    shows(&rt, rt.alloc(), text.as_bytes(), what, "a|a|a.\n")
}
