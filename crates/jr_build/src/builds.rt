//! The table of a program is made, or the first fault of its declarations is told.
ghost use Rattle.std.specs.Prelude.{◌≡◌, ◌<◌, ◌+◌, ◌++◌, ◌^◌, List, Option, length, map};
ghost use Rattle.std.specs.Prelude.{option_map, IfOk, IfErr, IfSome, OnOk};
ghost use Rattle.jr_ast.specs.View.{unit_of};
ghost use Rattle.jr_table.specs.Conditions.{AreRows};
ghost use Rattle.jr_table.specs.Faults.{PackageLine, HasFault, IsClean, rank_of};
ghost use Rattle.jr_table.specs.Prelude.{prelude_rows};
ghost use Rattle.jr_table.specs.ProgramRows.{AreProgramRows};
ghost use Rattle.jr_table.specs.RowView.{row_of};
ghost use Rattle.jr_table.specs.Rows as pure_rows;
ghost use Rattle.jr_table.specs.DeclaredItems as pure;
ghost use Rattle.jr_build.specs.declared.faults.BuildFault.TheVariants as fault;
ghost use Rattle.jr_build.specs.Builds.{IsFoundFault, IsCleanBelow};
ghost use Rattle.jr_build_rows.specs.ExactRows.{rows_of_declarations};
ghost use Rattle.jr_build_declared.specs.Fitting.{begins_by, UnitsFit};
ghost use Rattle.jr_build_rows.specs.Heads.{UnitsHeads, AreHeaded};
ghost use Rattle.jr_build_hierarchy.specs.HierarchyView.{hierarchy_of};
ghost use Rattle.jr_build_declared.specs.Packages.{lines_of};
ghost use Rattle.jr_build_places.specs.Places.{place_of, IsEarliest};
ghost use Rattle.jr_build_declared.specs.DeclaredView.{declaration_of};
ghost use Rattle.jr_build_hierarchy.specs.Superclasses.{IsHierarchy};

use crate::faults::BuildFault;
use jr_ast::Unit;
use jr_build_declared::declaration_faults::{bad_modifiers, prelude_name, static_init};
use jr_build_declared::declarations::DeclaredItem;
use jr_build_declared::gathering::program_declarations;
use jr_build_declared::packages::package_differs;
use jr_build_declared::twice_classes::{member_type_name, twice_class};
use jr_build_hierarchy::class_faults::{cycle, no_superclass};
use jr_build_hierarchy::hierarchies::Hierarchy;
use jr_build_hierarchy::superclasses::hierarchy;
use jr_build_rows::build_laws::{clean_rows_are_sound, declarations_are_headed};
use jr_build_rows::laws::hierarchies_are_exact;
use jr_build_rows::program_rows::program_rows;
use jr_build_rows::twice_members::twice_member;
use jr_build_rows::type_faults::no_type;
use jr_table::{DeclKind, Row, Table};
use jr_text::{Mark, Place};
use std::alloc::{AllocError, Global};

/// There is no fault of the kind, or this is its earliest place.
fn none_of(kind: DeclKind, place: Option<Place>) -> Result<(), BuildFault>
    ensures clean { (packages : List (Option PackageLine)) (declarations : List pure.DeclaredItem)
        → IsCleanBelow packages declarations (rank_of packages declarations kind)
        → IsEarliest (HasFault packages declarations kind) (option_map place_of place)
        → OnOk result (IsCleanBelow packages declarations (rank_of packages declarations kind + 1)) }
    ensures fault { (packages : List (Option PackageLine)) (declarations : List pure.DeclaredItem)
        → IsCleanBelow packages declarations (rank_of packages declarations kind)
        → IsEarliest (HasFault packages declarations kind) (option_map place_of place)
        → IfErr result (IsFoundFault packages declarations) }
{
    match place {
        None => Ok(()),
        Some(place) => Err(BuildFault::At {
            file: place.file,
            at: place.at,
            kind,
        }),
    }
}

/// There is no fault of names of packages and classes, or this is the first.
fn no_name_fault<A>(
    alloc: Global,
    units: &[Unit<A>],
    words: &[u32],
    declarations: &[DeclaredItem<'_>],
) -> Result<(), BuildFault>
    requires units { length units.now < 2 ^ 32 }
    requires words { length words.now ≡ length units.now }
    requires few { length declarations.now < 2 ^ 32 }
    ensures clean { OnOk result (IsCleanBelow (lines_of words.now (map unit_of units.now))
        (map declaration_of declarations.now) 4) }
    ensures fault { IfErr result (IsFoundFault (lines_of words.now (map unit_of units.now))
        (map declaration_of declarations.now)) }
{
    none_of(DeclKind::PackageDiffers, package_differs(units, words))?;
    none_of(DeclKind::PreludeName, prelude_name(declarations))?;
    none_of(DeclKind::TwiceClass, twice_class(alloc, declarations)?)
}

/// There is no fault of superclasses and of types, or this is the first.
fn no_type_fault<'a>(
    alloc: Global,
    declarations: &[DeclaredItem<'a>],
    h: &Hierarchy<'a>,
) -> Result<(), BuildFault>
    requires few { length declarations.now + 4 < 2 ^ 32 }
    requires known { IsHierarchy (map declaration_of declarations.now) (hierarchy_of h.now) }
    ensures clean { (packages : List (Option PackageLine))
        → IsCleanBelow packages (map declaration_of declarations.now) 4
        → OnOk result (IsCleanBelow packages (map declaration_of declarations.now) 8) }
    ensures fault { (packages : List (Option PackageLine))
        → IsCleanBelow packages (map declaration_of declarations.now) 4
        → IfErr result (IsFoundFault packages (map declaration_of declarations.now)) }
{
    hierarchies_are_exact();
    none_of(DeclKind::NoSuperclass, no_superclass(declarations, h))?;
    none_of(DeclKind::Cycle, cycle(alloc, declarations, h)?)?;
    none_of(DeclKind::NoTy, no_type(declarations, h))?;
    none_of(DeclKind::TwiceMember, twice_member(alloc, declarations, h)?)
}

/// There is no fault of member types' names, of modifiers and of initializers, or this is the
/// first.
fn no_declaration_fault(alloc: Global, declarations: &[DeclaredItem<'_>]) -> Result<(), BuildFault>
    requires few { length declarations.now < 2 ^ 32 }
    ensures clean { (packages : List (Option PackageLine))
        → IsCleanBelow packages (map declaration_of declarations.now) 8
        → OnOk result (IsCleanBelow packages (map declaration_of declarations.now) 11) }
    ensures fault { (packages : List (Option PackageLine))
        → IsCleanBelow packages (map declaration_of declarations.now) 8
        → IfErr result (IsFoundFault packages (map declaration_of declarations.now)) }
{
    none_of(
        DeclKind::MemberTypeName,
        member_type_name(alloc, declarations)?,
    )?;
    none_of(DeclKind::BadModifiers, bad_modifiers(declarations))?;
    none_of(DeclKind::StaticInit, static_init(declarations))
}

/// The table that is known, where it has exactly these rows.
fn take_known(known: &mut Option<Table>, rows: &[Row]) -> Option<Table>
    ensures { IfSome result (λ table. table ≡ map row_of rows.now) }
{
    let table = known.take()?;
    if table.has_rows(rows) {
        Some(table)
    } else {
        None
    }
}

/// The table of these rows: the one that is known, where it has them, or else a new one.
fn known_or_new(
    alloc: Global,
    rows: Vec<Row>,
    known: &mut Option<Table>,
) -> Result<Table, AllocError>
    requires { AreRows (map row_of rows.items) }
    ensures { IfOk result (λ table. table ≡ map row_of rows.items) }
{
    match take_known(known, &rows) {
        Some(table) => Ok(table),
        None => Table::of_rows(alloc, rows),
    }
}

/// The table of a program without faults.
///
/// Rows have numbers of 32 bits, and more of them are more than memory holds.
fn table_of<'a>(
    alloc: Global,
    declarations: &[DeclaredItem<'a>],
    h: &Hierarchy<'a>,
    known: &mut Option<Table>,
) -> Result<Table, BuildFault>
    requires { length (prelude_rows ++ rows_of_declarations (hierarchy_of h.now) (map declaration_of declarations.now))
        < 2 ^ 32
        → AreRows (prelude_rows ++ rows_of_declarations (hierarchy_of h.now) (map declaration_of declarations.now)) }
    ensures ok { IfOk result (λ table. table
        ≡ prelude_rows ++ rows_of_declarations (hierarchy_of h.now) (map declaration_of declarations.now)) }
    ensures memory { IfErr result (λ e. e ≡ fault.Memory) }
{
    let rows = program_rows(alloc, declarations, h)?;
    if rows.len() > u32::MAX as usize {
        return Err(BuildFault::Memory);
    }
    Ok(known_or_new(alloc, rows, known)?)
}

/// How many declarations have numbers, so that the prelude's classes have numbers behind them.
const MOST_SITES: usize = 4_294_967_291;

/// The table of a program of these declarations, or its first fault.
fn clean_table<A>(
    alloc: Global,
    units: &[Unit<A>],
    words: &[u32],
    declarations: &[DeclaredItem<'_>],
    known: &mut Option<Table>,
) -> Result<Table, BuildFault>
    requires units { length units.now < 2 ^ 32 }
    requires words { length words.now ≡ length units.now }
    requires headed { AreHeaded (map declaration_of declarations.now) }
    ensures clean { OnOk result (IsClean (lines_of words.now (map unit_of units.now))
        (map declaration_of declarations.now)) }
    ensures rows { IfOk result (λ table. AreProgramRows (map declaration_of declarations.now) table) }
    ensures only { IfOk result (λ table. (rows : List pure_rows.Row)
        → AreProgramRows (map declaration_of declarations.now) rows → rows ≡ table) }
    ensures fault { IfErr result (IsFoundFault (lines_of words.now (map unit_of units.now))
        (map declaration_of declarations.now)) }
{
    if declarations.len() > MOST_SITES {
        return Err(BuildFault::Memory);
    }
    no_name_fault(alloc, units, words, declarations)?;
    let h = hierarchy(alloc, declarations)?;
    no_type_fault(alloc, declarations, &h)?;
    no_declaration_fault(alloc, declarations)?;
    clean_rows_are_sound();
    table_of(alloc, declarations, &h, known)
}

/// The table of a program: its rows, the prelude's in front.
///
/// `words` has the place of each file's first token, which is the word `package` where the file has
/// a package line. Where there is a fault, the first is told: of the lowest kind that occurs, at
/// its first place in file and text order.
///
/// `known` may have a table that was made of the same program before: it is taken where it has
/// exactly the program's rows, and no other is made. Behind a call that answers a table `known` is
/// empty; where a fault of the program is told, it has what it had.
pub fn build<A: Mark>(
    alloc: Global,
    units: &[Unit<A>],
    words: &[u32],
    known: &mut Option<Table>,
) -> Result<Table, BuildFault>
    requires few { length units.now < 2 ^ 32 }
    requires words { length words.now ≡ length units.now }
    requires fits { UnitsFit (begins_by A.span_from) A.fits_at (map unit_of units.now) }
    requires heads { UnitsHeads (map unit_of units.now) }
    ensures clean { OnOk result (IsClean (lines_of words.now (map unit_of units.now))
        (pure.declarations_of (begins_by A.span_from) (map unit_of units.now))) }
    ensures rows { IfOk result (λ table.
        AreProgramRows (pure.declarations_of (begins_by A.span_from) (map unit_of units.now)) table) }
    // No other list is the rows of the program.
    ensures only { IfOk result (λ table. (rows : List pure_rows.Row)
        → AreProgramRows (pure.declarations_of (begins_by A.span_from) (map unit_of units.now)) rows
        → rows ≡ table) }
    ensures fault { IfErr result (IsFoundFault (lines_of words.now (map unit_of units.now))
        (pure.declarations_of (begins_by A.span_from) (map unit_of units.now))) }
{
    declarations_are_headed::<A>();
    let declarations = program_declarations(alloc, units)?;
    clean_table(alloc, units, words, &declarations, known)
}
