//! Small configurations as tables, for the worked rows and for those that are generated.

ghost use Rattle.std.specs.Prelude.{◌≡◌, ◌+◌, ◌++◌, []};
ghost use Rattle.std.specs.Prelude.{length, map, replicate, take, IfOk, IsOk};
ghost use Rattle.due_model.specs.Choices.{own};
ghost use Rattle.due_model.specs.claims.Limits.{max_objects};
ghost use Rattle.acceptance_inputs.specs.Tables.{contact_of, escalation_of, host_rights, mail};
ghost use Rattle.acceptance_inputs.specs.Tables.{object_of, rights_of};

use crate::periods::Row;
use due_model::config::{
    Choices, Config, Contact, ContactId, ContactList, Dependency, Escalation, Lane, LaneId, Object,
    ObjectId, Period, PeriodId, Range, Rights,
};
use due_model::dependencies::Dependencies;
use due_model::escalations::Escalations;
use due_model::limits::MAX_OBJECTS;
use due_model::objects::Objects;
use due_model::options::OptionLetters;
use due_model::sequence::Sequence;
use due_model::short_list::Text;
use std::alloc::{AllocError, Global};

/// No letter of the options.
pub const NO_LETTER: OptionLetters = OptionLetters {
    down: false,
    unreachable: false,
    warning: false,
    unknown: false,
    critical: false,
    recovery: false,
    flapping: false,
    downtime: false,
};

/// What a contact is notified of, and on which lanes.
#[derive(Clone, Copy)]
pub struct RightsRow {
    pub enabled: bool,
    pub options: OptionLetters,
    pub period: Option<PeriodId>,
    pub lanes: &'static [LaneId],
}

/// A contact, with what it is notified of, and on which lanes.
#[derive(Clone, Copy)]
pub struct ContactRow {
    pub name: &'static str,
    pub enabled: bool,
    pub options: OptionLetters,
    pub period: Option<PeriodId>,
    pub lanes: &'static [LaneId],
    /// What holds for services; none is the same as for hosts.
    pub services: Option<RightsRow>,
}

impl ContactRow {
    /// Notified of everything at all times, on the first lane.
    pub const FREE: ContactRow = ContactRow {
        name: "free",
        enabled: true,
        options: OptionLetters::ALL,
        period: None,
        lanes: &[LaneId(0)],
        services: None,
    };

    /// What holds for hosts.
    fn hosts(&self) -> RightsRow
        ensures { rights_of result ≡ host_rights self.now }
    {
        RightsRow {
            enabled: self.enabled,
            options: self.options,
            period: self.period,
            lanes: self.lanes,
        }
    }

    /// What holds for services.
    fn services(&self) -> RightsRow
        ensures { rights_of result ≡ (contact_of self.now).services }
    {
        match self.services {
            None => self.hosts(),
            Some(services) => services,
        }
    }
}

/// A host, or a service of a host. Interval and delay are in units of 60 seconds.
#[derive(Clone, Copy)]
pub struct ObjectRow {
    pub name: &'static str,
    pub host: Option<ObjectId>,
    pub enabled: bool,
    pub options: OptionLetters,
    pub period: Option<PeriodId>,
    pub interval: u32,
    pub delay: u32,
    pub volatile: bool,
    pub contacts: &'static [ContactId],
}

impl ObjectRow {
    /// A host that nobody is told of.
    pub const PLAIN: ObjectRow = ObjectRow {
        name: "host",
        host: None,
        enabled: true,
        options: OptionLetters::ALL,
        period: None,
        interval: 60,
        delay: 0,
        volatile: false,
        contacts: &[],
    };
}

/// A period with one range, the same on all seven days.
#[derive(Clone, Copy)]
pub struct PeriodRow {
    pub range: Range,
    pub excludes: &'static [PeriodId],
}

/// An escalation of one object.
#[derive(Clone, Copy)]
pub struct EscalationRow {
    pub object: ObjectId,
    pub first: u32,
    pub last: u32,
    pub interval: u32,
    pub period: Option<PeriodId>,
    pub options: OptionLetters,
    pub contacts: &'static [ContactId],
}

/// A configuration.
#[derive(Clone, Copy)]
pub struct Rows<'a> {
    /// How many commands there are.
    pub lanes: u8,
    pub contacts: &'a [ContactRow],
    pub objects: &'a [ObjectRow],
    pub periods: &'a [PeriodRow],
    pub escalations: &'a [EscalationRow],
    pub dependencies: &'a [Dependency],
}

impl Rows<'static> {
    /// Nothing.
    pub const NONE: Rows<'static> = Rows {
        lanes: 0,
        contacts: &[],
        objects: &[],
        periods: &[],
        escalations: &[],
        dependencies: &[],
    };
}

/// What a configuration is made of.
#[derive(Drop)]
struct Parts {
    objects: Vec<Object>,
    contacts: Vec<Contact>,
    lanes: Vec<Lane>,
    periods: Vec<Period>,
    escalations: Vec<Escalation>,
    dependencies: Vec<Dependency>,
}

fn rights(alloc: Global, row: RightsRow) -> Result<Rights, AllocError>
    ensures { IfOk result (λ made. made ≡ rights_of row) }
{
    Ok(Rights {
        enabled: row.enabled,
        options: row.options,
        period: row.period,
        lanes: Sequence::new(Vec::from_slice(alloc, row.lanes)?),
    })
}

fn contact(alloc: Global, row: &ContactRow) -> Result<Contact, AllocError>
    ensures { IfOk result (λ made. made ≡ contact_of row.now) }
{
    let name = Text::new(alloc, row.name.as_bytes())?;
    let hosts = rights(alloc, row.hosts())?;
    let services = rights(alloc, row.services())?;
    Ok(Contact {
        name,
        hosts,
        services,
    })
}

fn add_contacts(
    alloc: Global,
    made: &mut Vec<Contact>,
    rows: &[ContactRow],
) -> Result<(), AllocError>
    ensures { IsOk result → made.new.items ≡ made.old.items ++ map contact_of rows.now }
{
    for row in rows {
        made.push(contact(alloc, row)?)?;
    }
    Ok(())
}

fn object(alloc: Global, row: &ObjectRow) -> Result<Object, AllocError>
    ensures { IfOk result (λ made. made ≡ object_of row.now) }
{
    let name = Text::new(alloc, row.name.as_bytes())?;
    Ok(Object {
        name,
        host: row.host,
        enabled: row.enabled,
        options: row.options,
        period: row.period,
        interval: row.interval,
        delay: row.delay,
        volatile: row.volatile,
        contacts: ContactList::new(alloc, row.contacts)?,
    })
}

fn add_objects(alloc: Global, made: &mut Vec<Object>, rows: &[ObjectRow]) -> Result<(), AllocError>
    ensures { IsOk result → made.new.items ≡ made.old.items ++ map object_of rows.now }
{
    for row in rows {
        made.push(object(alloc, row)?)?;
    }
    Ok(())
}

/// A week without ranges.
fn no_days(alloc: Global) -> [Sequence<Range>; 7] {
    [
        Sequence::new(Vec::new(alloc)),
        Sequence::new(Vec::new(alloc)),
        Sequence::new(Vec::new(alloc)),
        Sequence::new(Vec::new(alloc)),
        Sequence::new(Vec::new(alloc)),
        Sequence::new(Vec::new(alloc)),
        Sequence::new(Vec::new(alloc)),
    ]
}

/// Gives the weekdays from one to another their ranges.
fn set_days(
    alloc: Global,
    days: &mut [Sequence<Range>; 7],
    first: u8,
    last: u8,
    ranges: &[Range],
) -> Result<(), AllocError> {
    for weekday in 0..7u8 {
        if first <= weekday && weekday <= last {
            days[usize::from(weekday)] = Sequence::new(Vec::from_slice(alloc, ranges)?);
        }
    }
    Ok(())
}

/// A period with these ranges on the weekdays from one to another.
fn period(
    alloc: Global,
    first: u8,
    last: u8,
    ranges: &[Range],
    excludes: &[PeriodId],
) -> Result<Period, AllocError> {
    let mut period = Period {
        name: Text::new(alloc, b"work")?,
        days: no_days(alloc),
        dated: Sequence::new(Vec::new(alloc)),
        excludes: Sequence::new(Vec::from_slice(alloc, excludes)?),
    };
    set_days(alloc, &mut period.days, first, last, ranges)?;
    Ok(period)
}

fn add_periods(alloc: Global, made: &mut Vec<Period>, rows: &[PeriodRow]) -> Result<(), AllocError>
    ensures { IsOk result → length made.new.items ≡ length made.old.items + length rows.now }
{
    for row in rows {
        made.push(period(alloc, 0, 6, &[row.range], row.excludes)?)?;
    }
    Ok(())
}

/// The same of rows with weekdays.
fn add_week_periods(alloc: Global, made: &mut Vec<Period>, rows: &[Row]) -> Result<(), AllocError>
    ensures { IsOk result → length made.new.items ≡ length made.old.items + length rows.now }
{
    for row in rows {
        made.push(period(alloc, row.first, row.last, row.ranges, row.excludes)?)?;
    }
    Ok(())
}

fn escalation(alloc: Global, row: &EscalationRow) -> Result<Escalation, AllocError>
    ensures { IfOk result (λ made. made ≡ escalation_of row.now) }
{
    Ok(Escalation {
        object: row.object,
        first: row.first,
        last: row.last,
        interval: row.interval,
        period: row.period,
        options: row.options,
        contacts: ContactList::new(alloc, row.contacts)?,
    })
}

fn add_escalations(
    alloc: Global,
    made: &mut Vec<Escalation>,
    rows: &[EscalationRow],
) -> Result<(), AllocError>
    ensures { IsOk result → made.new.items ≡ made.old.items ++ map escalation_of rows.now }
{
    for row in rows {
        made.push(escalation(alloc, row)?)?;
    }
    Ok(())
}

fn add_lanes(alloc: Global, made: &mut Vec<Lane>, count: u8) -> Result<(), AllocError>
    ensures { IsOk result → made.new.items ≡ made.old.items ++ replicate count mail }
{
    for _lane in 0..count {
        let name = Text::new(alloc, b"mail")?;
        made.push(Lane { name })?;
    }
    Ok(())
}

/// Adds what the rows say.
fn fill(alloc: Global, parts: &mut Parts, rows: &Rows<'_>) -> Result<(), AllocError>
    ensures objects { IsOk result → parts.new.objects.items
        ≡ parts.old.objects.items ++ map object_of rows.now.objects.now }
    ensures contacts { IsOk result → parts.new.contacts.items
        ≡ parts.old.contacts.items ++ map contact_of rows.now.contacts.now }
    ensures lanes { IsOk result → parts.new.lanes.items
        ≡ parts.old.lanes.items ++ replicate rows.now.lanes mail }
    ensures periods { IsOk result → length parts.new.periods.items
        ≡ length parts.old.periods.items + length rows.now.periods.now }
    ensures escalations { IsOk result → parts.new.escalations.items
        ≡ parts.old.escalations.items ++ map escalation_of rows.now.escalations.now }
    ensures dependencies { IsOk result → parts.new.dependencies.items
        ≡ parts.old.dependencies.items ++ rows.now.dependencies.now }
{
    add_objects(alloc, &mut parts.objects, rows.objects)?;
    add_contacts(alloc, &mut parts.contacts, rows.contacts)?;
    add_lanes(alloc, &mut parts.lanes, rows.lanes)?;
    add_periods(alloc, &mut parts.periods, rows.periods)?;
    add_escalations(alloc, &mut parts.escalations, rows.escalations)?;
    parts.dependencies.extend_from_slice(rows.dependencies)
}

/// These objects, the first 65,535 of them, with an index of their names.
pub fn objects_of(alloc: Global, rows: &[ObjectRow]) -> Result<Objects, AllocError>
    ensures { IfOk result (λ objects. objects ≡ take max_objects (map object_of rows.now)) }
{
    let mut made = Vec::new(alloc);
    add_objects(alloc, &mut made, rows)?;
    made.truncate(MAX_OBJECTS);
    Objects::new(alloc, made)
}

/// The configuration of these parts.
fn of_parts(alloc: Global, parts: Parts) -> Result<Config, AllocError>
    ensures { IfOk result (λ config. config ≡ record {
      choices = own;
      objects = take max_objects parts.objects.items;
      contacts = parts.contacts.items;
      lanes = parts.lanes.items;
      periods = parts.periods.items;
      escalations = parts.escalations.items;
      dependencies = parts.dependencies.items;
    }) }
{
    let mut objects = parts.objects;
    objects.truncate(MAX_OBJECTS);
    Ok(Config {
        choices: Choices::own(),
        objects: Objects::new(alloc, objects)?,
        contacts: Sequence::new(parts.contacts),
        lanes: Sequence::new(parts.lanes),
        periods: Sequence::new(parts.periods),
        escalations: Escalations::new(alloc, parts.escalations)?,
        dependencies: Dependencies::new(alloc, parts.dependencies)?,
    })
}

/// No parts.
fn no_parts(alloc: Global) -> Parts
    ensures objects { result.objects.items ≡ [] }
    ensures contacts { result.contacts.items ≡ [] }
    ensures lanes { result.lanes.items ≡ [] }
    ensures periods { result.periods.items ≡ [] }
    ensures escalations { result.escalations.items ≡ [] }
    ensures dependencies { result.dependencies.items ≡ [] }
{
    Parts {
        objects: Vec::new(alloc),
        contacts: Vec::new(alloc),
        lanes: Vec::new(alloc),
        periods: Vec::new(alloc),
        escalations: Vec::new(alloc),
        dependencies: Vec::new(alloc),
    }
}

/// The configuration of these rows, of the first 65,535 objects. It need not be accepted: `is_accepted` tells.
pub fn config_of(alloc: Global, rows: Rows<'_>) -> Result<Config, AllocError>
    ensures objects { IfOk result (λ config.
        config.objects ≡ take max_objects (map object_of rows.entry.objects.now)) }
    ensures contacts { IfOk result (λ config.
        config.contacts ≡ map contact_of rows.entry.contacts.now) }
    ensures choices { IfOk result (λ config. config.choices ≡ own) }
    ensures lanes { IfOk result (λ config. config.lanes ≡ replicate rows.entry.lanes mail) }
    ensures periods { IfOk result (λ config.
        length config.periods ≡ length rows.entry.periods.now) }
    ensures escalations { IfOk result (λ config.
        config.escalations ≡ map escalation_of rows.entry.escalations.now) }
    ensures dependencies { IfOk result (λ config.
        config.dependencies ≡ rows.entry.dependencies.now) }
{
    let mut parts = no_parts(alloc);
    fill(alloc, &mut parts, &rows)?;
    of_parts(alloc, parts)
}

/// The configuration of these periods alone. It need not be accepted.
pub(crate) fn config_of_periods(alloc: Global, rows: &[Row]) -> Result<Config, AllocError>
    ensures { IfOk result (λ config. length config.periods ≡ length rows.now) }
{
    let mut parts = no_parts(alloc);
    add_week_periods(alloc, &mut parts.periods, rows)?;
    of_parts(alloc, parts)
}
