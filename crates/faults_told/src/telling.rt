//! A fault as it is told.

ghost use Rattle.std.specs.Prelude.{◌≡◌, ◌==◌};
ghost use Rattle.faults_told.specs.Faults.{row_fault};
ghost use Rattle.faults_told.specs.Words.{kind_word};
ghost use Rattle.object_check.specs.declared.rows.Must.TheVariants.{Be};
ghost use Rattle.object_inheritance.specs.claims.Templates.{kind_number};

use object_check::rows::Must;
use object_faults::column::Check;
use object_faults::load_fault::BlockFault;
use object_inheritance::kinds::kind_number;
use object_names::named::NamedKind;
use object_reader::block::BlockKind;

/// What is wrong with a time range.
#[derive(Clone, Copy, Debug, PartialEq, Eq)]
pub enum RangeFault {
    /// It isn't two times with a `-` between them.
    NoRange,
    /// It ends after 24:00.
    EndsLate,
    /// It ends before it begins.
    EndsEarly,
}

/// What is wrong.
#[derive(Clone, Copy)]
pub enum Detail {
    /// The directive isn't given.
    NotGiven,
    /// No host is listed: neither by this directive nor by groups.
    NoHosts,
    /// No service is listed.
    NoServices,
    /// The value isn't a number of 0 to 1,000,000.
    NoNumber,
    /// The word is no option.
    NoOption,
    /// The word is no state.
    NoState,
    /// The range isn't one.
    Range(RangeFault),
    /// The line has no word with a colon, or names no day.
    NoDay,
    /// The number isn't 0.
    NotZero,
    /// The entry leaves a name out.
    LeavesOut,
    /// The line of dates says something other than a day.
    OtherDay,
    /// No object of the type has the name.
    NoObject(NamedKind),
    /// No template of the type has the name.
    NoTemplate,
    /// From the template a chain of templates leads back to the block.
    LeadsBack,
    /// An earlier block, of which this is the line, has the name.
    Doubled(u64),
    /// Nothing is said but the fault.
    Unsaid,
}

/// A fault as it is told: what it is about, and which blocks have it.
#[derive(Clone, Copy)]
pub struct Telling<'a> {
    /// The place of the block that holds the value.
    pub holder: usize,
    pub fault: BlockFault,
    /// The name of the directive; empty where the fault is of none.
    pub directive: &'a [u8],
    /// The value, or the entry of the list, that is wrong; empty where there is none.
    pub value: &'a [u8],
    pub detail: Detail,
    /// A name that is there and like the value, if there is one.
    pub near: Option<&'a [u8]>,
    /// The place of the first block that has the fault: the holder, or one that takes the value from it.
    pub user: usize,
    /// How many other blocks have it from there.
    pub others: usize,
}

/// The word for blocks of the type, as a `define` has it.
pub fn kind_word(kind: BlockKind) -> &'static str
    ensures { result.now ≡ kind_word kind }
{
    match kind {
        BlockKind::Host => "host",
        BlockKind::HostGroup => "hostgroup",
        BlockKind::Service => "service",
        BlockKind::ServiceGroup => "servicegroup",
        BlockKind::Contact => "contact",
        BlockKind::ContactGroup => "contactgroup",
        BlockKind::TimePeriod => "timeperiod",
        BlockKind::Command => "command",
        BlockKind::HostEscalation => "hostescalation",
        BlockKind::ServiceEscalation => "serviceescalation",
        BlockKind::HostDependency => "hostdependency",
        BlockKind::ServiceDependency => "servicedependency",
        BlockKind::HostExtInfo => "hostextinfo",
        BlockKind::ServiceExtInfo => "serviceextinfo",
    }
}

/// Whether two types of block are one.
pub fn is_same_kind(one: BlockKind, other: BlockKind) -> bool
    ensures { result ≡ (kind_number one == kind_number other) }
{
    kind_number(one) == kind_number(other)
}

/// The fault of a value that isn't what it must be.
fn value_fault(check: Check) -> BlockFault
    ensures { result ≡ row_fault (Be check) }
{
    match check {
        Check::Given => BlockFault::MissingDirective,
        Check::Number => BlockFault::BadNumber,
        Check::Options(_) | Check::Criteria(_) => BlockFault::BadOption,
        Check::Ranges => BlockFault::BadRange,
        Check::Zero => BlockFault::Volatile,
        Check::Names => BlockFault::Exclusion,
    }
}

/// The fault of a block that isn't what it must be.
pub fn row_fault(must: Must) -> BlockFault
    ensures { result ≡ row_fault must }
{
    match must {
        Must::Be(check) => value_fault(check),
        Must::Name(_, _) => BlockFault::UnknownName,
        Must::List(_) => BlockFault::MissingDirective,
        Must::HaveWholeLines => BlockFault::BadRange,
        Must::HaveDayLines => BlockFault::DatedException,
    }
}
