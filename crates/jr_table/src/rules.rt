//! The rules of a sound program.
ghost use Rattle.std.specs.Prelude.{◌≡◌, ◌<◌};
ghost use Rattle.jr_table.specs.Errors.{rule_rank};
ghost use Rattle.jr_table.specs.Names.{rule_name};

/// A rule that a program may break. At one place the first ones are told before the later ones.
#[derive(Clone, Copy, PartialEq, Eq, Debug, Drop)]
pub enum Rule {
    NoVariable,
    NoType,
    NoMethod,
    Ambiguous,
    Private,
    StaticContext,
    StaticThroughValue,
    InstanceThroughType,
    TypeMismatch,
    Operands,
    BadCast,
    FinalAssigned,
    Redeclared,
    Forward,
    VoidValue,
    ReturnForm,
    MissingReturn,
    Unreachable,
    ConstantCondition,
    Override,
    SuperCtor,
    FinalClass,
    ObjectMethod,
    Deep,
}

impl Rule {
    /// The name of the rule, as it is told.
    pub fn name(&self) -> &'static str
        ensures { result.now ≡ rule_name self.now }
    {
        match self {
            Rule::NoVariable => "NoVariable",
            Rule::NoType => "NoType",
            Rule::NoMethod => "NoMethod",
            Rule::Ambiguous => "Ambiguous",
            Rule::Private => "Private",
            Rule::StaticContext => "StaticContext",
            Rule::StaticThroughValue => "StaticThroughValue",
            Rule::InstanceThroughType => "InstanceThroughType",
            Rule::TypeMismatch => "TypeMismatch",
            Rule::Operands => "Operands",
            Rule::BadCast => "BadCast",
            Rule::FinalAssigned => "FinalAssigned",
            Rule::Redeclared => "Redeclared",
            Rule::Forward => "Forward",
            Rule::VoidValue => "VoidValue",
            Rule::ReturnForm => "ReturnForm",
            Rule::MissingReturn => "MissingReturn",
            Rule::Unreachable => "Unreachable",
            Rule::ConstantCondition => "ConstantCondition",
            Rule::Override => "Override",
            Rule::SuperCtor => "SuperCtor",
            Rule::FinalClass => "FinalClass",
            Rule::ObjectMethod => "ObjectMethod",
            Rule::Deep => "Deep",
        }
    }

    /// Where the rule stands among those at one place.
    pub fn rank(self) -> u64
        ensures is { result ≡ rule_rank self }
        ensures small { result < 32 }
    {
        match self {
            Rule::NoVariable => 1,
            Rule::NoType => 2,
            Rule::NoMethod => 3,
            Rule::Ambiguous => 4,
            Rule::Private => 5,
            Rule::StaticContext => 6,
            Rule::StaticThroughValue => 7,
            Rule::InstanceThroughType => 8,
            Rule::TypeMismatch => 9,
            Rule::Operands => 10,
            Rule::BadCast => 11,
            Rule::FinalAssigned => 12,
            Rule::Redeclared => 13,
            Rule::Forward => 14,
            Rule::VoidValue => 15,
            Rule::ReturnForm => 16,
            Rule::MissingReturn => 17,
            Rule::Unreachable => 18,
            Rule::ConstantCondition => 19,
            Rule::Override => 20,
            Rule::SuperCtor => 21,
            Rule::FinalClass => 22,
            Rule::ObjectMethod => 23,
            Rule::Deep => 24,
        }
    }
}
