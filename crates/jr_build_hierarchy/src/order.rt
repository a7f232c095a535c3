//! In which order superclasses of member classes are found: that of a class behind those that it
//! waits for.
use crate::hierarchies::Hierarchy;
use jr_build_declared::declarations::{DeclaredItem, DeclaredKind, Written};
use std::alloc::{AllocError, Global};

impl<'a> Hierarchy<'a> {
    ghost use Rattle.std.specs.Prelude.{◌+◌, ◌<◌, ◌^◌, length, map};
    ghost use Rattle.jr_build_declared.specs.DeclaredView.{declaration_of};
    ghost use Rattle.jr_build_hierarchy.specs.HierarchyView.{hierarchy_of};
    ghost use Rattle.jr_build_hierarchy.specs.Superclasses.{KnowsTops};

    /// The first class upwards whose superclass isn't known, before one that declares the name.
    fn awaited_from(&self, class: u32, name: &'a str) -> Option<u32> {
        let mut class = class;
        for _turn in 0..self.keys.len() {
            if self.own_at(class, name).is_some() {
                return None;
            }
            match self.parent_at(class) {
                None => return Some(class),
                Some(parent) => class = parent,
            }
        }
        None
    }

    /// The class that a superclass waits for which a member class of `around` writes so.
    fn awaited_by(&self, around: &'a str, written: &Written<'a>) -> Option<u32> {
        match written {
            Written::Int | Written::Boolean => None,
            Written::Named { at: _, outer, name } => match outer {
                None => None,
                Some(left) => match self.found_in_top(around, left) {
                    None => None,
                    Some(class) => self.awaited_from(class, name),
                },
            },
        }
    }

    /// The class that the superclass of an item's class waits for.
    fn awaits(&self, item: &DeclaredKind<'a>) -> Option<u32> {
        match item {
            DeclaredKind::Class(class) => match class.key.outer {
                None => None,
                Some(around) => match &class.parent {
                    None => None,
                    Some(written) => self.awaited_by(around, written),
                },
            },
            DeclaredKind::Field(_) | DeclaredKind::Method(_) | DeclaredKind::Ctor(_) => None,
        }
    }

    /// The class that a number's waits for, where it isn't marked.
    fn next_awaited(
        &self,
        number: u32,
        declarations: &[DeclaredItem<'a>],
        marks: &[bool],
    ) -> Option<u32> {
        let Some(declaration) = declarations.get(number as usize) else {
            return None;
        };
        let Some(class) = self.awaits(&declaration.item) else {
            return None;
        };
        match marks.get(class as usize) {
            Some(false) => Some(class),
            _ => None,
        }
    }

    /// Keeps what is told of a number's superclass.
    fn tell_at(&mut self, number: u32, declarations: &[DeclaredItem<'a>])
        requires { KnowsTops (map declaration_of declarations.now) (hierarchy_of self.old) }
        ensures { KnowsTops (map declaration_of declarations.now) (hierarchy_of self.new) }
    {
        match declarations.get(number as usize) {
            None => (),
            Some(declaration) => {
                let _told = self.tell(number, &declaration.item);
            }
        }
    }

    /// Goes on from the last class of the stack to what it waits for; where it waits for nothing,
    /// or for what is waited for already, its superclass is told. Each class is marked once.
    fn follow(
        &mut self,
        declarations: &[DeclaredItem<'a>],
        marks: &mut [bool],
        stack: &mut Vec<u32>,
    ) -> Result<(), AllocError>
        requires { KnowsTops (map declaration_of declarations.now) (hierarchy_of self.old) }
        ensures { KnowsTops (map declaration_of declarations.now) (hierarchy_of self.new) }
    {
        for _turn in 0..marks.len().saturating_mul(2) {
            let Some(last) = stack.last().copied() else {
                return Ok(());
            };
            match self.next_awaited(last, declarations, marks) {
                None => {
                    self.tell_at(last, declarations);
                    let _last = stack.pop();
                }
                Some(class) => {
                    if let Some(mark) = marks.get_mut(class as usize) {
                        *mark = true;
                    }
                    stack.push(class)?;
                }
            }
        }
        Ok(())
    }

    /// Tells the superclass of each member class that has one, what it waits for before it.
    pub fn tell_in_order(
        &mut self,
        alloc: Global,
        declarations: &[DeclaredItem<'a>],
    ) -> Result<(), AllocError>
        requires few { length declarations.now + 4 < 2 ^ 32 }
        requires knows { KnowsTops (map declaration_of declarations.now) (hierarchy_of self.old) }
        ensures { KnowsTops (map declaration_of declarations.now) (hierarchy_of self.new) }
    {
        let mut marks = vec![in alloc; false; self.keys.len()]?;
        let mut stack = Vec::new(alloc);
        for number in 0..declarations.len() {
            stack.push(number as u32)?;
            self.follow(declarations, &mut marks, &mut stack)?;
        }
        Ok(())
    }
}
