//! The metrics of a run, as text in the format that Prometheus and its node exporter read.
#![tactic(auto)]

ghost use Rattle.std.specs.Prelude.{◌≡◌, ◌++◌, decimal, flat_map, IfOk, OnOk};
ghost use Rattle.metrics_text.specs.Text.{age_text, ages_text, command_sample, commands_text, due_text};
ghost use Rattle.metrics_text.specs.Text.{each_text, escaped, events_text, failures_text, figure_of, head, metrics_text};
ghost use Rattle.metrics_text.specs.Text.{one_text, remark, taken_text, undelivered_text, waiting_text};

use itoa::Buffer;
use std::alloc::{AllocError, Global};

/// What is counted of one command.
#[derive(Drop)]
pub struct CommandMetrics {
    /// Its name, which is UTF-8 where the text is to be.
    pub name: Vec<u8>,
    /// How many notices became due.
    pub due: u64,
    /// How many of them its channels have taken.
    pub taken: u64,
    /// How many were given up.
    pub undelivered: u64,
    /// How many are neither.
    pub waiting: u64,
    /// How many tries failed at its channels.
    pub failures: u64,
}

/// What is counted of a run.
#[derive(Drop)]
pub struct Metrics {
    /// How many events were decided.
    pub events: u64,
    /// What is counted of each command; no two have one name.
    pub commands: Vec<CommandMetrics>,
    /// How many seconds have passed since the last line of the feed, if there was one.
    pub feed_age: Option<u64>,
    /// How many have passed since its last CLOCK line, if there was one.
    pub clock_age: Option<u64>,
}

/// Which number of a command.
#[derive(Clone, Copy)]
enum Figure {
    Due,
    Taken,
    Undelivered,
    Waiting,
    Failures,
}

/// That number of a command.
fn figure_of(figure: Figure, command: &CommandMetrics) -> u64
    ensures { result ≡ figure_of figure command.now }
{
    match figure {
        Figure::Due => command.due,
        Figure::Taken => command.taken,
        Figure::Undelivered => command.undelivered,
        Figure::Waiting => command.waiting,
        Figure::Failures => command.failures,
    }
}

/// Adds a byte of a label's value.
#[tactic(auto, unfolding(crate::specs::Text::escaped))]
fn push_escaped(text: &mut Vec<u8>, byte: u8) -> Result<(), AllocError>
    ensures { OnOk result (text.new.items ≡ text.old.items ++ escaped byte) }
{
    if byte == b'"' || byte == b'\\' {
        return text.extend_from_slice(&[b'\\', byte]);
    }
    if byte == b'\n' {
        return text.extend_from_slice(b"\\n");
    }
    text.extend_from_slice(&[byte])
}

/// Adds a label's value.
fn push_label(text: &mut Vec<u8>, value: &[u8]) -> Result<(), AllocError>
    ensures { OnOk result (text.new.items ≡ text.old.items ++ flat_map escaped value.now) }
{
    for byte in value {
        push_escaped(text, *byte)?;
    }
    Ok(())
}

/// Adds a number.
fn push_decimal(text: &mut Vec<u8>, value: u64) -> Result<(), AllocError>
    ensures { OnOk result (text.new.items ≡ text.old.items ++ decimal value) }
{
    let mut buffer = Buffer::new();
    text.extend_from_slice(buffer.format(value).as_bytes())
}

/// Adds what is said of a metric.
#[tactic(auto, unfolding(crate::specs::Text::remark))]
fn push_remark(text: &mut Vec<u8>, front: &str, name: &str, said: &str) -> Result<(), AllocError>
    ensures { OnOk result (text.new.items ≡ text.old.items ++ remark front.now name.now said.now) }
{
    text.extend_from_slice(front.as_bytes())?;
    text.extend_from_slice(name.as_bytes())?;
    text.extend_from_slice(b" ")?;
    text.extend_from_slice(said.as_bytes())?;
    text.extend_from_slice(b"\n")
}

/// Adds what a metric is, and of which kind.
#[tactic(auto, unfolding(crate::specs::Text::head))]
fn push_head(text: &mut Vec<u8>, name: &str, help: &str, kind: &str) -> Result<(), AllocError>
    ensures { OnOk result (text.new.items ≡ text.old.items ++ head name.now help.now kind.now) }
{
    push_remark(text, "# HELP ", name, help)?;
    push_remark(text, "# TYPE ", name, kind)
}

/// Adds a metric of one value.
#[tactic(auto, unfolding(crate::specs::Text::one_text, crate::specs::Text::sample))]
fn push_one(
    text: &mut Vec<u8>,
    name: &str,
    help: &str,
    kind: &str,
    value: u64,
) -> Result<(), AllocError>
    ensures { OnOk result (text.new.items ≡ text.old.items ++ one_text name.now help.now kind.now value) }
{
    push_head(text, name, help, kind)?;
    text.extend_from_slice(name.as_bytes())?;
    text.extend_from_slice(b" ")?;
    push_decimal(text, value)?;
    text.extend_from_slice(b"\n")
}

/// Adds the value of a command.
#[tactic(auto, unfolding(crate::specs::Text::command_sample))]
fn push_sample(
    text: &mut Vec<u8>,
    name: &str,
    figure: Figure,
    command: &CommandMetrics,
) -> Result<(), AllocError>
    ensures { OnOk result (text.new.items ≡ text.old.items ++ command_sample name.now figure command.now) }
{
    text.extend_from_slice(name.as_bytes())?;
    text.extend_from_slice(b"{command=\"")?;
    push_label(text, command.name.as_slice())?;
    text.extend_from_slice(b"\"} ")?;
    push_decimal(text, figure_of(figure, command))?;
    text.extend_from_slice(b"\n")
}

/// Adds the value of each command.
fn push_samples(
    text: &mut Vec<u8>,
    name: &str,
    figure: Figure,
    commands: &[CommandMetrics],
) -> Result<(), AllocError>
    ensures { OnOk result (text.new.items
        ≡ text.old.items ++ flat_map (command_sample name.now figure) commands.now) }
{
    for command in commands {
        push_sample(text, name, figure, command)?;
    }
    Ok(())
}

/// Adds a metric of a value for each command.
#[tactic(auto, unfolding(crate::specs::Text::commands_text))]
fn push_commands(
    text: &mut Vec<u8>,
    name: &str,
    help: &str,
    kind: &str,
    figure: Figure,
    commands: &[CommandMetrics],
) -> Result<(), AllocError>
    ensures { OnOk result (text.new.items
        ≡ text.old.items ++ commands_text name.now help.now kind.now figure commands.now) }
{
    push_head(text, name, help, kind)?;
    push_samples(text, name, figure, commands)
}

/// Adds a metric of seconds since something, unless that never was.
fn push_age(text: &mut Vec<u8>, name: &str, help: &str, age: Option<u64>) -> Result<(), AllocError>
    ensures { OnOk result (text.new.items ≡ text.old.items ++ age_text name.now help.now age) }
{
    match age {
        Some(age) => push_one(text, name, help, "gauge", age),
        None => Ok(()),
    }
}

/// Adds how many events were decided.
#[tactic(auto, unfolding(crate::specs::Text::events_text))]
fn push_events(text: &mut Vec<u8>, events: u64) -> Result<(), AllocError>
    ensures { OnOk result (text.new.items ≡ text.old.items ++ events_text events) }
{
    push_one(
        text,
        "notify_run_events_total",
        "Events of the feed that were decided.",
        "counter",
        events,
    )
}

/// Adds how many notices became due for each command.
#[tactic(auto, unfolding(crate::specs::Text::due_text))]
fn push_due(text: &mut Vec<u8>, commands: &[CommandMetrics]) -> Result<(), AllocError>
    ensures { OnOk result (text.new.items ≡ text.old.items ++ due_text commands.now) }
{
    push_commands(
        text,
        "notify_run_notices_due_total",
        "Notices that became due for the command.",
        "counter",
        Figure::Due,
        commands,
    )
}

/// Adds how many of them each has taken.
#[tactic(auto, unfolding(crate::specs::Text::taken_text))]
fn push_taken(text: &mut Vec<u8>, commands: &[CommandMetrics]) -> Result<(), AllocError>
    ensures { OnOk result (text.new.items ≡ text.old.items ++ taken_text commands.now) }
{
    push_commands(
        text,
        "notify_run_taken_total",
        "Notices that a channel of the command has taken.",
        "counter",
        Figure::Taken,
        commands,
    )
}

/// Adds how many of each were given up.
#[tactic(auto, unfolding(crate::specs::Text::undelivered_text))]
fn push_undelivered(text: &mut Vec<u8>, commands: &[CommandMetrics]) -> Result<(), AllocError>
    ensures { OnOk result (text.new.items ≡ text.old.items ++ undelivered_text commands.now) }
{
    push_commands(
        text,
        "notify_run_undelivered_total",
        "Notices that were given up.",
        "counter",
        Figure::Undelivered,
        commands,
    )
}

/// Adds how many wait for each.
#[tactic(auto, unfolding(crate::specs::Text::waiting_text))]
fn push_waiting(text: &mut Vec<u8>, commands: &[CommandMetrics]) -> Result<(), AllocError>
    ensures { OnOk result (text.new.items ≡ text.old.items ++ waiting_text commands.now) }
{
    push_commands(
        text,
        "notify_run_waiting",
        "Notices that are due, and neither taken nor given up.",
        "gauge",
        Figure::Waiting,
        commands,
    )
}

/// Adds how often the channels of each have failed.
#[tactic(auto, unfolding(crate::specs::Text::failures_text))]
fn push_failures(text: &mut Vec<u8>, commands: &[CommandMetrics]) -> Result<(), AllocError>
    ensures { OnOk result (text.new.items ≡ text.old.items ++ failures_text commands.now) }
{
    push_commands(
        text,
        "notify_run_channel_failures_total",
        "Tries of a notice that failed at a channel.",
        "counter",
        Figure::Failures,
        commands,
    )
}

/// Adds the metrics of the commands.
#[tactic(auto, unfolding(crate::specs::Text::each_text))]
fn push_each(text: &mut Vec<u8>, commands: &[CommandMetrics]) -> Result<(), AllocError>
    ensures { OnOk result (text.new.items ≡ text.old.items ++ each_text commands.now) }
{
    push_due(text, commands)?;
    push_taken(text, commands)?;
    push_undelivered(text, commands)?;
    push_waiting(text, commands)?;
    push_failures(text, commands)
}

/// Adds those of its feed.
#[tactic(auto, unfolding(crate::specs::Text::ages_text))]
fn push_ages(text: &mut Vec<u8>, metrics: &Metrics) -> Result<(), AllocError>
    ensures { OnOk result (text.new.items ≡ text.old.items ++ ages_text metrics.now) }
{
    push_age(
        text,
        "notify_run_feed_line_age_seconds",
        "Seconds since the last line of the feed.",
        metrics.feed_age,
    )?;
    push_age(
        text,
        "notify_run_clock_line_age_seconds",
        "Seconds since the last CLOCK line of the feed.",
        metrics.clock_age,
    )
}

/// The text of all metrics. A refused growth is the only error.
#[tactic(auto, unfolding(crate::specs::Text::metrics_text))]
pub fn metrics_text(alloc: Global, metrics: &Metrics) -> Result<Vec<u8>, AllocError>
    ensures { IfOk result (λ text. text.items ≡ metrics_text metrics.now) }
{
    let mut text = Vec::new(alloc);
    push_events(&mut text, metrics.events)?;
    push_each(&mut text, metrics.commands.as_slice())?;
    push_ages(&mut text, metrics)?;
    Ok(text)
}
