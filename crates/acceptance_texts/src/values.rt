//! What the values of directives say: option lists, failure criteria, and the day lines of time periods.

use crate::shown::Case;
use due_model::config::Range;
use due_model::options::OptionLetters;
use due_model::state::StateSet;
use object_values::options::{CriteriaKind, OptionKind, criteria_in, options_in};
use object_values::ranges::{are_ranges, is_dated, ranges_in, weekday_of};
use std::alloc::{AllocError, Global};
use std::fmt::Write;
use std::process::Abort;

/// What is shown of a value or a name.
#[derive(Clone, Copy)]
enum What {
    /// What it allows as the list of a host, a service, a host escalation and a service escalation.
    Options,
    /// What it names as criteria of hosts and of services.
    Criteria,
    /// The ranges of a day line in seconds, or `?`.
    Ranges,
    /// What a directive of a time period is: a weekday by its number, dated, or neither.
    Day,
}

/// Adds a mark, where it is wanted.
fn push_if(out: &mut String, wanted: bool, mark: &str) -> Result<(), AllocError> {
    if wanted {
        out.push_str(mark)?;
    }
    Ok(())
}

/// The letters of a set: `U` is UNKNOWN.
fn push_letters(out: &mut String, letters: OptionLetters) -> Result<(), AllocError> {
    push_if(out, letters.down, "d")?;
    push_if(out, letters.unreachable, "u")?;
    push_if(out, letters.warning, "w")?;
    push_if(out, letters.unknown, "U")?;
    push_if(out, letters.critical, "c")?;
    push_if(out, letters.recovery, "r")?;
    push_if(out, letters.flapping, "f")?;
    push_if(out, letters.downtime, "s")
}

/// Adds what an option list allows: its letters, or `?` where it is none, and a semicolon.
fn push_options(out: &mut String, kind: OptionKind, text: &str) -> Result<(), AllocError> {
    match options_in(kind, text.as_bytes()) {
        None => out.push_str("?")?,
        Some(letters) => push_letters(out, letters)?,
    }
    out.push_str(";")
}

/// What a list allows as that of each kind.
fn push_all_options(out: &mut String, text: &str) -> Result<(), AllocError> {
    push_options(out, OptionKind::Host, text)?;
    push_options(out, OptionKind::Service, text)?;
    push_options(out, OptionKind::HostEscalation, text)?;
    push_options(out, OptionKind::ServiceEscalation, text)
}

/// The states of a set: `U` is UNKNOWN, `O` is OK.
fn push_states(out: &mut String, states: StateSet) -> Result<(), AllocError> {
    push_if(out, states.pending, "p")?;
    push_if(out, states.up, "o")?;
    push_if(out, states.down, "d")?;
    push_if(out, states.unreachable, "u")?;
    push_if(out, states.fine, "O")?;
    push_if(out, states.warning, "w")?;
    push_if(out, states.unknown, "U")?;
    push_if(out, states.critical, "c")
}

/// Adds the states that criteria name, or `?` where they are none, and a semicolon.
fn push_criteria(out: &mut String, kind: CriteriaKind, text: &str) -> Result<(), AllocError> {
    match criteria_in(kind, text.as_bytes()) {
        None => out.push_str("?")?,
        Some(states) => push_states(out, states)?,
    }
    out.push_str(";")
}

/// What criteria name of hosts and of services.
fn push_both_criteria(out: &mut String, text: &str) -> Result<(), AllocError> {
    push_criteria(out, CriteriaKind::OfHosts, text)?;
    push_criteria(out, CriteriaKind::OfServices, text)
}

fn push_each_range(out: &mut String, ranges: &[Range]) -> Result<(), AllocError> {
    for range in ranges {
        let start = range.start;
        let end = range.end;
        write!(out, "{start}-{end};")?;
    }
    Ok(())
}

fn push_ranges(alloc: Global, out: &mut String, text: &str) -> Result<(), AllocError> {
    match ranges_in(alloc, text.as_bytes())? {
        Some(ranges) => push_each_range(out, ranges.as_slice()),
        None => out.push_str("?"),
    }
}

fn push_day(out: &mut String, name: &str) -> Result<(), AllocError> {
    if let Some(weekday) = weekday_of(name.as_bytes()) {
        write!(out, "{weekday}")?;
    }
    push_if(out, is_dated(name.as_bytes()), "dated")
}

fn push_what(alloc: Global, out: &mut String, text: &str, what: What) -> Result<(), AllocError> {
    match what {
        What::Options => push_all_options(out, text),
        What::Criteria => push_both_criteria(out, text),
        What::Ranges => push_ranges(alloc, out, text),
        What::Day => push_day(out, text),
    }
}

/// Compares what is shown of each case.
fn all_show(rt: &impl Abort, alloc: Global, cases: &[Case], what: What) -> Result<(), AllocError> {
    for case in cases {
        let mut out = String::new(alloc);
        push_what(alloc, &mut out, case.0, what)?;
        assert!(rt; out.as_str() == case.1, "{}", case.0);
    }
    Ok(())
}

/// Option lists, and what they allow.
const OPTIONS: [Case; 34] = [
    ("", ";;;;"),
    (",", ";;;;"),
    (" , ,", ";;;;"),
    ("d", "d;?;d;?;"),
    ("down", "d;?;d;?;"),
    ("u", "u;U;u;U;"),
    ("unreachable", "u;?;u;?;"),
    ("unknown", "?;U;?;U;"),
    ("w", "?;w;?;w;"),
    ("warning", "?;w;?;w;"),
    ("c", "?;c;?;c;"),
    ("critical", "?;c;?;c;"),
    ("r", "r;r;r;r;"),
    ("recovery", "r;r;r;r;"),
    ("f", "f;f;?;?;"),
    ("flapping", "f;f;?;?;"),
    ("s", "s;s;?;?;"),
    ("downtime", "s;s;?;?;"),
    ("n", ";;;;"),
    ("none", ";;;;"),
    ("a", "duwUcrfs;duwUcrfs;duwUcrfs;duwUcrfs;"),
    ("all", "duwUcrfs;duwUcrfs;duwUcrfs;duwUcrfs;"),
    ("r,n", ";;;;"),
    ("n r", ";;;;"),
    ("a,n", ";;;;"),
    ("r,a", "duwUcrfs;duwUcrfs;duwUcrfs;duwUcrfs;"),
    ("n,x", "?;?;?;?;"),
    ("a,x", "?;?;?;?;"),
    ("u,r", "ur;Ur;ur;Ur;"),
    ("u r", "ur;Ur;ur;Ur;"),
    (",u,\t,r ,", "ur;Ur;ur;Ur;"),
    ("ur", "?;?;?;?;"),
    ("U", "?;?;?;?;"),
    ("o", "?;?;?;?;"),
];

#[test]
fn option_lists_allow_what_they_give(rt: HostRuntime) -> Result<(), AllocError> {
    all_show(&rt, rt.alloc(), &OPTIONS, What::Options)
}

/// Failure criteria, and the states that they name.
const CRITERIA: [Case; 27] = [
    ("", ";;"),
    (", ,", ";;"),
    ("o", "o;O;"),
    ("up", "o;?;"),
    ("ok", "?;O;"),
    ("d", "d;?;"),
    ("down", "d;?;"),
    ("u", "u;U;"),
    ("unreachable", "u;?;"),
    ("unknown", "?;U;"),
    ("w", "?;w;"),
    ("warning", "?;w;"),
    ("c", "?;c;"),
    ("critical", "?;c;"),
    ("p", "p;p;"),
    ("pending", "p;p;"),
    ("n", ";;"),
    ("none", ";;"),
    ("a", "podu;pOwUc;"),
    ("all", "podu;pOwUc;"),
    ("o,n", ";;"),
    ("a n", ";;"),
    ("p,a", "podu;pOwUc;"),
    ("u p,o", "pou;pOU;"),
    ("n,x", "?;?;"),
    ("r", "?;?;"),
    ("f", "?;?;"),
];

#[test]
fn criteria_name_the_states_that_they_give(rt: HostRuntime) -> Result<(), AllocError> {
    all_show(&rt, rt.alloc(), &CRITERIA, What::Criteria)
}

/// The values of day lines, and their ranges.
const RANGES: [Case; 28] = [
    ("09:00-17:00", "32400-61200;"),
    ("9:00-17:00", "32400-61200;"),
    ("9:05-17:59", "32700-64740;"),
    ("00:00-24:00", "0-86400;"),
    ("0:00-0:00", "0-0;"),
    ("24:00-24:00", "86400-86400;"),
    ("09:00-12:00,13:00-17:00", "32400-43200;46800-61200;"),
    ("13:00-17:00,09:00-12:00", "46800-61200;32400-43200;"),
    ("9:00-17", "?"),
    ("9-17:00", "?"),
    ("09:00-08:00", "?"),
    ("09:01-09:00", "?"),
    ("00:00-24:01", "?"),
    ("00:00-25:00", "?"),
    ("00:60-02:00", "?"),
    ("00:00-02:0", "?"),
    ("00:00-02:000", "?"),
    ("000:00-02:00", "?"),
    (":00-02:00", "?"),
    ("00:00", "?"),
    ("00:00-", "?"),
    ("-02:00", "?"),
    ("00:00-01:00-02:00", "?"),
    ("00:00-01:00:00", "?"),
    ("09:00-10:00,", "?"),
    (",09:00-10:00", "?"),
    ("", "?"),
    ("a0:00-01:00", "?"),
];

#[test]
fn day_lines_have_their_ranges(rt: HostRuntime) -> Result<(), AllocError> {
    all_show(&rt, rt.alloc(), &RANGES, What::Ranges)
}

/// Names of directives of time periods, and what they are.
const DAYS: [Case; 24] = [
    ("sunday", "0"),
    ("monday", "1"),
    ("tuesday", "2"),
    ("wednesday", "3"),
    ("thursday", "4"),
    ("friday", "5"),
    ("saturday", "6"),
    ("Sunday", ""),
    ("mondays", ""),
    ("monday 3", "dated"),
    ("monday -1 may", "dated"),
    ("mondays 3", ""),
    ("day", "dated"),
    ("day 1", "dated"),
    ("days 1", ""),
    ("january", "dated"),
    ("december 25", "dated"),
    ("may 1 - 3", "dated"),
    ("mai 1", ""),
    ("2024-01-01", "dated"),
    ("1", "dated"),
    ("timeperiod_name", ""),
    ("exclude", ""),
    ("alias monday", ""),
];

#[test]
fn directives_of_periods_are_day_lines_or_not(rt: HostRuntime) -> Result<(), AllocError> {
    all_show(&rt, rt.alloc(), &DAYS, What::Day)
}

/// Whether each text is ranges exactly where there are any.
#[test]
fn texts_are_ranges_where_they_have_some(rt: HostRuntime) {
    for case in &RANGES {
        assert!(&rt;
            are_ranges(case.0.as_bytes()) != (case.1 == "?"),
            "{}",
            case.0
        );
    }
}
