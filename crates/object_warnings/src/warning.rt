//! The names of warnings.

ghost use Rattle.std.specs.Prelude.{◌≡◌};
ghost use Rattle.object_warnings.specs.Warning.{warning_name};

/// What a warning is about.
#[derive(Clone, Copy, Debug, PartialEq, Eq)]
pub enum Warning {
    /// No type of Nagios has the directive here, and it isn't `_NAME`.
    UnknownDirective,
    /// Nagios reads the directive, and this program doesn't.
    WithoutEffect,
    /// An object that can notify has no contact with a command for its kind.
    NobodyTold,
    /// There is a time of a week at which an object's period holds, and no contact's does.
    NoHours,
    /// A period never holds within 400 days.
    NeverHours,
    /// An escalation matches no number that can come.
    DeadEscalation,
    /// A dependency holds nothing back.
    NoCriteria,
    /// Nothing names an object or a template.
    Unused,
    /// A directive is given twice in a block, by other values.
    Overridden,
    /// A period isn't always, and no zone is given.
    NoZone,
    /// The options of an object lack the letters of its problems.
    MissingOption,
}

impl Warning {
    /// The name by which it is left out.
    pub fn name(self) -> &'static str
        ensures { result.now ≡ warning_name self }
    {
        match self {
            Warning::UnknownDirective => "UnknownDirective",
            Warning::WithoutEffect => "WithoutEffect",
            Warning::NobodyTold => "NobodyTold",
            Warning::NoHours => "NoHours",
            Warning::NeverHours => "NeverHours",
            Warning::DeadEscalation => "DeadEscalation",
            Warning::NoCriteria => "NoCriteria",
            Warning::Unused => "Unused",
            Warning::Overridden => "Overridden",
            Warning::NoZone => "NoZone",
            Warning::MissingOption => "MissingOption",
        }
    }
}

/// All of them.
pub const ALL: [Warning; 11] = [
    Warning::UnknownDirective,
    Warning::WithoutEffect,
    Warning::NobodyTold,
    Warning::NoHours,
    Warning::NeverHours,
    Warning::DeadEscalation,
    Warning::NoCriteria,
    Warning::Unused,
    Warning::Overridden,
    Warning::NoZone,
    Warning::MissingOption,
];
