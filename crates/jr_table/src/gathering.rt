//! The member methods of a name, gathered class by class upwards.
ghost use Rattle.std.specs.Prelude.{◌≡◌, ◌++◌, ◌∷◌, [], ℕ, List, IfOk, OnOk, if◌then◌else◌};
ghost use Rattle.jr_table.specs.declared.entries.Sort.TheVariants as variant;
ghost use Rattle.jr_table.specs.Looking.{is_sort};

use crate::entries::{Kind, Sort};
use crate::signatures::Signatures;
use crate::tables::Table;
use std::alloc::{AllocError, Global};

/// What is gathered of the member methods of a name.
#[derive(Drop)]
struct Gathering<'a> {
    /// The parameter types of all methods that were come across.
    met: Signatures<'a>,
    /// The rows of the member methods among those.
    numbers: Vec<u32>,
}

impl<'a> Gathering<'a> {
    ghost use Rattle.std.specs.Prelude.{◌≡◌, ◌||◌, ◌++◌, ◌∷◌, [], List, OnOk, false};
    ghost use Rattle.std.specs.Prelude.{if◌then◌else◌};
    ghost use Rattle.jr_table.specs.declared.entries.Kind.{Kind};
    ghost use Rattle.jr_table.specs.Looking.{same_kinds};
    ghost use Rattle.jr_table.specs.Gathering.{is_met};

    fn new(alloc: Global) -> Gathering<'a>
        ensures met { (params : List Kind) → is_met result.met params ≡ false }
        ensures numbers { result.numbers.items ≡ [] }
    {
        Gathering {
            met: Signatures::new(alloc),
            numbers: Vec::new(alloc),
        }
    }

    /// Notes a method's parameter types, and its number if it is a member.
    fn add(&mut self, params: &'a [Kind], number: u32, is_member: bool) -> Result<(), AllocError>
        ensures met { OnOk result ((list : List Kind) → is_met self.new.met list
            ≡ (same_kinds list params.now || is_met self.old.met list)) }
        ensures numbers { OnOk result (self.new.numbers.items
            ≡ self.old.numbers.items ++ (if is_member then number ∷ [] else [])) }
    {
        self.met.add(params)?;
        push_if(&mut self.numbers, number, is_member)
    }

    fn into_numbers(self) -> Vec<u32>
        ensures { result ≡ self.entry.numbers }
    {
        self.numbers
    }
}

/// Puts a number behind the others, if it passes.
pub(crate) fn push_if(numbers: &mut Vec<u32>, number: u32, passes: bool) -> Result<(), AllocError>
    ensures { OnOk result (numbers.new.items
        ≡ numbers.old.items ++ (if passes then number ∷ [] else [])) }
{
    if passes {
        numbers.push(number)?;
    }
    Ok(())
}

fn is_method(sort: Sort) -> bool
    ensures { result ≡ is_sort sort variant.Method }
{
    match sort {
        Sort::Method => true,
        _ => false,
    }
}

impl Table {
    ghost use Rattle.jr_table.specs.Entries.{entries_of};
    ghost use Rattle.jr_table.specs.Gathering.{is_met, AreNamed, Gathers, TakesRow, TakesClass};

    /// Takes one row of class `at`, on the way up from `class`: a method counts unless one with its
    /// parameter types was met, and then it is a member unless it is private in a superclass.
    fn gather_row<'a>(
        &'a self,
        class: u32,
        at: u32,
        number: u32,
        gathering: &mut Gathering<'a>,
    ) -> Result<(), AllocError>
        ensures { OnOk result ((name : List ℕ) → TakesRow (entries_of self.now) name class at number
            (is_met gathering.old.met) gathering.old.numbers.items
            (is_met gathering.new.met) gathering.new.numbers.items) }
    {
        self.keeps_rows();
        let Some(entry) = self.entry(number) else {
            return Ok(());
        };
        if !is_method(entry.sort) {
            return Ok(());
        }
        if gathering.met.has(entry.params.as_slice()) {
            return Ok(());
        }
        let is_member = (class == at) | !self.is_private(number);
        gathering.add(entry.params.as_slice(), number, is_member)?;
        Ok(())
    }

    /// Takes the rows of the name that class `at` declares.
    fn gather_class<'a>(
        &'a self,
        class: u32,
        at: u32,
        name: &str,
        gathering: &mut Gathering<'a>,
    ) -> Result<(), AllocError>
        ensures { OnOk result (TakesClass (entries_of self.now) name.now class at
            (is_met gathering.old.met) gathering.old.numbers.items
            (is_met gathering.new.met) gathering.new.numbers.items) }
    {
        self.keeps_rows();
        let mut next = self.members().first(at, name);
        loop {
            let Some(number) = next else {
                return Ok(());
            };
            self.gather_row(class, at, number, gathering)?;
            next = self.members().next(number);
        }
    }

    /// The rows of the class's member methods of the name, in some order.
    pub(crate) fn gather_methods(
        &self,
        alloc: Global,
        class: u32,
        name: &str,
    ) -> Result<Vec<u32>, AllocError>
        ensures { IfOk result (λ v. AreNamed (entries_of self.now) name.now class v.items) }
    {
        self.keeps_rows();
        let mut gathering = Gathering::new(alloc);
        let mut at = class;
        loop {
            self.gather_class(class, at, name, &mut gathering)?;
            let Some(parent) = self.parent_of(at) else {
                return Ok(gathering.into_numbers());
            };
            at = parent;
        }
    }
}
