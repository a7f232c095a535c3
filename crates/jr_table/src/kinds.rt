//! The kinds of declaration faults.
ghost use Rattle.std.specs.Prelude.{◌≡◌};
ghost use Rattle.jr_table.specs.Names.{kind_name};

/// What may be wrong with a declaration. The first kinds are told before the later ones.
#[derive(Clone, Copy, PartialEq, Eq, Debug, Drop)]
pub enum DeclKind {
    PackageDiffers,
    PreludeName,
    TwiceClass,
    NoSuperclass,
    Cycle,
    NoTy,
    TwiceMember,
    MemberTypeName,
    BadModifiers,
    StaticInit,
}

impl DeclKind {
    /// The name of the kind, as it is told.
    pub fn name(&self) -> &'static str
        ensures { result.now ≡ kind_name self.now }
    {
        match self {
            DeclKind::PackageDiffers => "PackageDiffers",
            DeclKind::PreludeName => "PreludeName",
            DeclKind::TwiceClass => "TwiceClass",
            DeclKind::NoSuperclass => "NoSuperclass",
            DeclKind::Cycle => "Cycle",
            DeclKind::NoTy => "NoTy",
            DeclKind::TwiceMember => "TwiceMember",
            DeclKind::MemberTypeName => "MemberTypeName",
            DeclKind::BadModifiers => "BadModifiers",
            DeclKind::StaticInit => "StaticInit",
        }
    }
}
