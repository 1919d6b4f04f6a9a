//! What object text consists of: blocks, and the directives in them.

use due_model::sequence::Sequence;
use due_model::short_list::Text;

/// The types of block (chapter "Object Definitions").
#[derive(Clone, Copy, Debug, PartialEq, Eq)]
pub enum BlockKind {
    /// `define host`.
    Host,
    /// `define hostgroup`.
    HostGroup,
    /// `define service`.
    Service,
    /// `define servicegroup`.
    ServiceGroup,
    /// `define contact`.
    Contact,
    /// `define contactgroup`.
    ContactGroup,
    /// `define timeperiod`.
    TimePeriod,
    /// `define command`.
    Command,
    /// `define hostescalation`.
    HostEscalation,
    /// `define serviceescalation`.
    ServiceEscalation,
    /// `define hostdependency`.
    HostDependency,
    /// `define servicedependency`.
    ServiceDependency,
    /// `define hostextinfo`, which says nothing of notifications.
    HostExtInfo,
    /// `define serviceextinfo`, which says nothing of notifications.
    ServiceExtInfo,
}

/// A line of a block: a name, and the value that stands after it (chapter "Object Configuration
/// Overview"). Both are UTF-8 and not empty. The value doesn't begin with a space or a tab, and the
/// name has none, but for a day line of a time period: its name is words with one space between each
/// two, and its value has no space and no tab.
#[derive(Drop)]
pub struct Directive {
    /// The name as it is written, upper and lower case kept apart.
    pub name: Text,
    /// The value, with the blanks inside it as they are written.
    pub value: Text,
}

/// A `define` block (chapter "Object Configuration Overview").
#[derive(Drop)]
pub struct Block {
    pub kind: BlockKind,
    /// The number of the line with the block's `define`, from 1; the first where lines are joined.
    pub line: u64,
    /// The directives in the order of the text. One that is given twice stands here twice, and it
    /// is for the reader of the block to let the last count.
    pub directives: Sequence<Directive>,
}
