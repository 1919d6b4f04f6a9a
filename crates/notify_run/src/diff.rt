//! The command `diff`: its files, and how it ends.

ghost use Rattle.std.specs.Prelude.{◌≡◌};
ghost use Rattle.std.specs.Process.{exit_status};
ghost use Rattle.texts_compared.specs.Fault.{compare_status};

use crate::faults::say_more;
use crate::pretty::row_form;
use changed_notices::ChangeForm;
use command_output::{AnyWriter, CommandFault, Ending};
use due_model::config::Choices;
use due_model::zone::Zone;
use std::fs::File;
use std::process::ExitCode;
use text_lines::AnyReader;
use texts_compared::{CompareFault, compare_files, compare_status};
use who_missed::RowForm;

/// Says on standard error what a comparison failed with, if it did, and where or why, and gives its exit status.
fn status_of_comparison(
    rt: &HostRuntime,
    objects: &str,
    changed: &str,
    outcome: Result<Ending, CompareFault>,
) -> ExitCode
    ensures { exit_status result ≡ compare_status outcome }
{
    if let Err(fault) = outcome {
        let _ = rt.eprintln(format_args!("{fault}"));
        match fault {
            CompareFault::Command(command_fault) => say_more(rt, objects, command_fault),
            CompareFault::With(load_fault) => {
                say_more(rt, changed, CommandFault::Objects(load_fault));
            }
            CompareFault::WithUnreadable => say_more(rt, changed, CommandFault::Unreadable),
        }
    }
    ExitCode::from(compare_status(outcome))
}

/// Writes what the change from the object text of one file to that of another does to the notices of the feed on standard input.
fn do_diff(
    rt: &HostRuntime,
    choices: Choices,
    zone: &Zone,
    objects: &str,
    changed: &str,
    form: ChangeForm,
) -> Result<Ending, CompareFault> {
    let Ok(before) = File::open(rt, objects) else {
        return Err(CompareFault::Command(CommandFault::Unreadable));
    };
    let Ok(after) = File::open(rt, changed) else {
        return Err(CompareFault::WithUnreadable);
    };
    let before = AnyReader::new(before);
    let after = AnyReader::new(after);
    let feed = AnyReader::new(rt.stdin());
    let mut writer = AnyWriter::new(rt.stdout());
    compare_files(
        rt.alloc(),
        choices,
        zone,
        before,
        after,
        feed,
        form,
        &mut writer,
    )
}

/// Does it, and gives the exit status.
pub(crate) fn status_of_diff(
    rt: &HostRuntime,
    choices: Choices,
    zone: &Zone,
    objects: &str,
    changed: &str,
    json: bool,
) -> ExitCode {
    let form = match row_form(rt, json) {
        RowForm::Plain => ChangeForm::Plain,
        RowForm::Pretty(coloured) => ChangeForm::Pretty(coloured),
        RowForm::Json => ChangeForm::Json,
    };
    let outcome = do_diff(rt, choices, zone, objects, changed, form);
    status_of_comparison(rt, objects, changed, outcome)
}
