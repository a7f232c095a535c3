//! Why a step is refused.
ghost use Rattle.std.specs.Prelude.{◌≡◌};
ghost use Rattle.jr_names.specs.RefusalNames.{refusal_number, refusal_name};
ghost use Rattle.jr_names.specs.RefusalView.{refusal_of};

use crate::sites::SiteAt;
use jr_ast::Name;
use jr_sync::DepKind;
use jr_table::{ClassKey, Decl, Found, LocalKey, MemberKey, MethodKey};
use jr_text::Place;

/// Why a step is refused. The first that applies is the answer, in this order.
#[derive(Drop)]
pub enum Refusal {
    /// The session has no file of the name.
    NoSuchFile {
        name: Name,
    },
    /// The offset is past the end of the file or inside a character, or is behind that of the end.
    BadPlace {
        file: Name,
        at: u32,
    },
    /// The new name is no identifier (JLS 3.8).
    BadName {
        name: Name,
    },
    /// The sources have a fault: the first, by its place and the name of its kind.
    SourceError {
        file: Name,
        at: u32,
        kind: Name,
    },
    /// At the place there isn't what the refactoring needs. `need` is the name of a
    /// [`Need`](crate::Need).
    BadTarget {
        at: Place,
        need: Name,
    },
    /// A method of the prelude would change: its text, or the name that is one of Object's (JLS
    /// 4.3.2).
    PreludeMethod {
        method: Name,
    },
    /// The code runs only where a condition says so: the `if`, `while`, `&&` or `||` at the place.
    Conditional {
        at: Place,
    },
    /// A `return` stands in the way.
    HasReturn {
        at: Place,
    },
    /// The statements have two results.
    TwoResults {
        first: LocalKey,
        second: LocalKey,
    },
    /// The call may reach another method (JLS 15.12.4).
    ManyTargets {
        call: Place,
        method: MethodKey,
    },
    /// The receiver may be null.
    MayBeNull {
        at: Place,
    },
    /// The method calls itself.
    Recursive {
        call: Place,
    },
    /// The local is assigned.
    Assigned {
        local: LocalKey,
        at: Place,
    },
    /// The new declaration collides with this one.
    Clash {
        with: Decl,
    },
    /// For the class the method would be dispatched elsewhere (JLS 15.12.4.4).
    OverrideChanged {
        class: ClassKey,
        method: MethodKey,
    },
    /// A reference to the declaration has no spelling that is still bound to it. As it is spelled,
    /// it would be bound to what is found.
    LostBinding {
        reference: Place,
        declaration: Decl,
        found: Found,
    },
    /// The new sources break a rule, at a place of the new text.
    WouldNotCompile {
        at: Place,
        rule: Name,
    },
    /// A dependence between two sites would be lost (JLS 17.4).
    LostDependence {
        kind: DepKind,
        first: SiteAt,
        second: SiteAt,
    },
    /// The span can't be cut out of the file.
    BadSpan {
        from: u32,
        to: u32,
    },
    /// A file, or all files together, would have `len` bytes, which are too many.
    TooLong {
        len: u64,
    },
    NothingToUndo,
    NothingToRedo,
    /// All that was shown comes to `len` bytes, which are too many.
    ReportFull {
        len: u64,
    },
    /// The member has `count` sites, which are too many.
    TooManySites {
        member: MemberKey,
        count: u32,
    },
}

impl Refusal {
    /// Its number, in the order in which refusals are checked.
    pub fn number(&self) -> u32
        ensures { result ≡ refusal_number (refusal_of self.now) }
    {
        match self {
            Refusal::NoSuchFile { .. } => 1,
            Refusal::BadPlace { .. } => 2,
            Refusal::BadName { .. } => 3,
            Refusal::SourceError { .. } => 4,
            Refusal::BadTarget { .. } => 5,
            Refusal::PreludeMethod { .. } => 6,
            Refusal::Conditional { .. } => 7,
            Refusal::HasReturn { .. } => 8,
            Refusal::TwoResults { .. } => 9,
            Refusal::ManyTargets { .. } => 10,
            Refusal::MayBeNull { .. } => 11,
            Refusal::Recursive { .. } => 12,
            Refusal::Assigned { .. } => 13,
            Refusal::Clash { .. } => 14,
            Refusal::OverrideChanged { .. } => 15,
            Refusal::LostBinding { .. } => 16,
            Refusal::WouldNotCompile { .. } => 17,
            Refusal::LostDependence { .. } => 18,
            Refusal::BadSpan { .. } => 19,
            Refusal::TooLong { .. } => 20,
            Refusal::NothingToUndo => 21,
            Refusal::NothingToRedo => 22,
            Refusal::ReportFull { .. } => 23,
            Refusal::TooManySites { .. } => 24,
        }
    }

    /// Its name.
    pub fn name(&self) -> &'static str
        ensures { result.now ≡ refusal_name (refusal_of self.now) }
    {
        match self {
            Refusal::NoSuchFile { .. } => "NoSuchFile",
            Refusal::BadPlace { .. } => "BadPlace",
            Refusal::BadName { .. } => "BadName",
            Refusal::SourceError { .. } => "SourceError",
            Refusal::BadTarget { .. } => "BadTarget",
            Refusal::PreludeMethod { .. } => "PreludeMethod",
            Refusal::Conditional { .. } => "Conditional",
            Refusal::HasReturn { .. } => "HasReturn",
            Refusal::TwoResults { .. } => "TwoResults",
            Refusal::ManyTargets { .. } => "ManyTargets",
            Refusal::MayBeNull { .. } => "MayBeNull",
            Refusal::Recursive { .. } => "Recursive",
            Refusal::Assigned { .. } => "Assigned",
            Refusal::Clash { .. } => "Clash",
            Refusal::OverrideChanged { .. } => "OverrideChanged",
            Refusal::LostBinding { .. } => "LostBinding",
            Refusal::WouldNotCompile { .. } => "WouldNotCompile",
            Refusal::LostDependence { .. } => "LostDependence",
            Refusal::BadSpan { .. } => "BadSpan",
            Refusal::TooLong { .. } => "TooLong",
            Refusal::NothingToUndo => "NothingToUndo",
            Refusal::NothingToRedo => "NothingToRedo",
            Refusal::ReportFull { .. } => "ReportFull",
            Refusal::TooManySites { .. } => "TooManySites",
        }
    }
}
