//! Types by path.
ghost use Rattle.std.specs.Prelude.{◌≡◌, ◌<◌, ◌≤◌, ◌+◌, ◌++◌, ◌∷◌, ◌↔◌, [], ℕ, length, slice_get};
ghost use Rattle.std.specs.Prelude.{IfOk, IfSome, IsTrue, None, OnErr, Some, map, option_map};
ghost use Rattle.std.specs.Prelude.{option_and_then};
ghost use Rattle.jr_table.specs.TypeView.{ty_of};
ghost use Rattle.jr_expr_types.specs.PartEnds.{AreListed, Keeps, skips};
ghost use Rattle.jr_expr_types.specs.SlotView.{AreTyped, Grows, shape_of, slot_of};
ghost use Rattle.jr_expr_types.specs.Slots as pure;

use jr_ast::Path;
use jr_table::Ty;
use std::alloc::{AllocError, Global};
use std::marker::Model;

/// A node: how many slots it takes with all that stands in it, how many parts it has, and the
/// number of its type among those that are kept, from 1, or 0 if it has none. If it has many parts,
/// their ends stand in a list, from this place on.
#[derive(Drop)]
struct Slot {
    size: u32,
    count: u32,
    ty: u32,
    listed: u32,
}

/// Trees of types, each node behind its parts. Contracts see the slots. The ends of the parts of
/// nodes with many parts are listed, of each node from its last part on: passing over so many parts
/// at each path would be quadratic in the length of a list of statements. Types are kept apart from
/// the nodes, as a member has many nodes and few types.
#[derive(Drop)]
pub struct Types {
    slots: Vec<Slot>,
    ends: Vec<usize>,
    types: Vec<Ty>,
}

impl Model for Types {
    ghost use Rattle.std.specs.Prelude.{List, map};
    ghost use Rattle.jr_expr_types.specs.PartEnds.{AreListed};
    ghost use Rattle.jr_expr_types.specs.SlotView.{AreTyped, slot_of};
    ghost use Rattle.jr_expr_types.specs.Slots as pure;

    ghost Value = { List pure.Slot };

    ghost view = { λ t. map (slot_of t.types.items) t.slots.items };

    ghost invariant = { λ t. AreListed t.slots.items t.ends.items
        × AreTyped t.types.items t.slots.items };
}

/// The item of a number.
fn item_at<T>(items: &[T], number: usize) -> Option<&T>
    ensures { option_map (λ s. s.now) result ≡ slice_get items.now number }
{
    items.get(number)
}

/// The item in front of the end, if there is one.
fn last<T>(items: &[T], end: usize) -> Option<&T>
    ensures { option_map (λ s. s.now) result ≡ pure.last_slot items.now end }
{
    if end == 0 {
        return None;
    }
    item_at(items, end - 1)
}

/// How many slots the tree in front of the end takes.
fn last_size(slots: &[Slot], end: usize) -> usize
    ensures { result ≡ pure.size_of (pure.last_slot (map shape_of slots.now) end) }
{
    match last(slots, end) {
        None => 0,
        Some(slot) => slot.size as usize,
    }
}

/// The end in front of so many trees.
fn skip(slots: &[Slot], count: usize, end: usize) -> usize
    ensures { result ≡ pure.skip (map shape_of slots.now) count end }
{
    let mut left = end;
    for _skipped in 0..count {
        left = left.saturating_sub(last_size(slots, left));
    }
    left
}

/// The number at a place of a list.
fn number_at(list: &[usize], at: usize) -> Option<usize>
    ensures { result ≡ slice_get list.now at }
{
    list.get(at).copied()
}

/// Of nodes with more parts, the ends of the parts are listed.
const FEW_PARTS: usize = 16;

/// The end in front of so many of the last parts of a node, which stands at this number.
fn passed(slots: &[Slot], ends: &[usize], node: &Slot, count: usize, number: usize) -> Option<usize>
    requires listed { AreListed slots.now ends.now }
    requires there { slice_get slots.now number ≡ Some node.now }
    requires within { count < node.now.count }
    ensures { result ≡ Some (pure.skip (map shape_of slots.now) count number) }
{
    if node.count as usize > FEW_PARTS {
        let (_, own) = ends.split_at(node.listed as usize);
        return number_at(own, count);
    }
    Some(skip(slots, count, number))
}

/// The end of the part of the number, of the node in front of the end.
fn part_end(slots: &[Slot], ends: &[usize], end: usize, step: u32) -> Option<usize>
    requires listed { AreListed slots.now ends.now }
    ensures { result ≡ pure.part_end (map shape_of slots.now)
        (pure.last_slot (map shape_of slots.now) end) step end }
{
    match last(slots, end) {
        None => None,
        Some(node) => {
            let step = step as usize;
            let count = node.count as usize;
            if step < count {
                return passed(slots, ends, node, count - 1 - step, end - 1);
            }
            None
        }
    }
}

/// Lists the ends of so many trees in front of the end, from the last on.
fn list_ends(
    slots: &[Slot],
    count: usize,
    end: usize,
    ends: &mut Vec<usize>,
) -> Result<(), AllocError>
    ensures kept { Keeps ends.old.items ends.new.items }
    ensures listed { IfOk result (λ _. ends.new.items
        ≡ ends.old.items ++ skips (map shape_of slots.now) count end) }
{
    let mut left = end;
    for _listed in 0..count {
        ends.push(left)?;
        left = left.saturating_sub(last_size(slots, left));
    }
    Ok(())
}

/// Lists the ends of the parts of a node that is to stand behind all slots, if it has many.
fn list_parts(slots: &[Slot], parts: usize, ends: &mut Vec<usize>) -> Result<(), AllocError>
    ensures kept { Keeps ends.old.items ends.new.items }
    ensures listed { IfOk result (λ _. 16 < parts → ends.new.items
        ≡ ends.old.items ++ skips (map shape_of slots.now) parts (length slots.now)) }
{
    if parts > FEW_PARTS {
        return list_ends(slots, parts, slots.len(), ends);
    }
    Ok(())
}

/// The type of the node in front of the end.
fn last_type<'a>(types: &'a [Ty], slots: &[Slot], end: usize) -> Option<&'a Ty>
    ensures { option_map (λ t. ty_of t.now) result
        ≡ option_and_then (λ s. s.type) (pure.last_slot (map (slot_of types.now) slots.now) end) }
{
    match last(slots, end) {
        None => None,
        Some(slot) => last(types, slot.ty as usize),
    }
}

/// The type of the node to which the steps lead from the one in front of the end.
fn find<'a>(
    types: &'a [Ty],
    slots: &[Slot],
    ends: &[usize],
    end: usize,
    steps: &[u32],
) -> Option<&'a Ty>
    requires listed { AreListed slots.now ends.now }
    ensures { option_map (λ t. ty_of t.now) result
        ≡ pure.find (map (slot_of types.now) slots.now) end steps.now }
{
    let mut here = end;
    for step in steps {
        let Some(below) = part_end(slots, ends, here, *step) else {
            return None;
        };
        here = below;
    }
    last_type(types, slots, here)
}

/// A number in four bytes. Trees with more slots don't fit any memory.
fn narrow(number: usize) -> Result<u32, AllocError>
    ensures { IfOk result (λ n. n ≡ number) }
{
    match u32::try_from(number) {
        Ok(number) => Ok(number),
        Err(_) => Err(AllocError),
    }
}

/// Whether this type has the number.
fn is_at(types: &[Ty], number: usize, ty: &Ty) -> bool
    ensures { IsTrue result ↔ (option_map ty_of (slice_get types.now number)
        ≡ Some (ty_of ty.now)) }
{
    match item_at(types, number) {
        None => false,
        Some(other) => *other == *ty,
    }
}

/// A type is looked for among so many of the last ones. What isn't found there is kept once more:
/// among all of them the search would be quadratic in the number of a member's types.
const RECENT_TYPES: usize = 8;

/// The place of a type, if it is one of the last ones.
fn find_recent(types: &[Ty], ty: &Ty) -> Option<usize>
    ensures found { IfSome result (λ n. option_map ty_of (slice_get types.now n)
        ≡ Some (ty_of ty.now)) }
    ensures missed { result ≡ None → (n : ℕ) → n < length types.now
        → length types.now ≤ n + 8
        → option_map ty_of (slice_get types.now n) ≡ Some (ty_of ty.now) → ⊥ }
{
    let first = types.len().saturating_sub(RECENT_TYPES);
    for number in first..types.len() {
        if is_at(types, number, ty) {
            return Some(number);
        }
    }
    None
}

/// Keeps one more type, and answers its number, from 1.
fn keep_type(types: &mut Vec<Ty>, ty: Ty) -> Result<u32, AllocError>
    ensures grows { Grows types.old.items types.new.items }
    ensures there { IfOk result (λ n. option_map ty_of (pure.last_slot types.new.items n)
        ≡ Some (ty_of ty)) }
{
    let number = narrow(types.len() + 1)?;
    types.push(ty)?;
    Ok(number)
}

/// The number of a type, from 1, which is kept unless it is one of the last ones.
fn number_of_type(types: &mut Vec<Ty>, ty: Ty) -> Result<u32, AllocError>
    ensures grows { Grows types.old.items types.new.items }
    ensures there { IfOk result (λ n. option_map ty_of (pure.last_slot types.new.items n)
        ≡ Some (ty_of ty)) }
{
    match find_recent(types.as_slice(), &ty) {
        None => keep_type(types, ty),
        Some(place) => {
            drop(ty);
            narrow(place + 1)
        }
    }
}

/// The number of a node's type: 0 if it has none.
fn number_of(types: &mut Vec<Ty>, ty: Option<Ty>) -> Result<u32, AllocError>
    ensures grows { Grows types.old.items types.new.items }
    ensures there { IfOk result (λ n. option_map ty_of (pure.last_slot types.new.items n)
        ≡ option_map ty_of ty) }
    ensures within { IfOk result (λ n. n ≤ length types.new.items) }
{
    match ty {
        None => Ok(0),
        Some(ty) => number_of_type(types, ty),
    }
}

/// Most members have no more slots.
const FEW_SLOTS: usize = 8;

/// Makes room for the slots of most members, where there are none yet.
fn make_room(slots: &mut Vec<Slot>) -> Result<(), AllocError>
    ensures { slots.new.items ≡ slots.old.items }
{
    if slots.is_empty() {
        slots.reserve(FEW_SLOTS)?;
    }
    Ok(())
}

/// A node of so many slots and parts.
fn node(size: usize, count: usize, ty: u32, listed: usize) -> Result<Slot, AllocError>
    ensures { IfOk result (λ s. s ≡ record {
      size = size;
      count = count;
      ty = ty;
      listed = listed;
    }) }
{
    let size = narrow(size)?;
    let count = narrow(count)?;
    let listed = narrow(listed)?;
    Ok(Slot {
        size,
        count,
        ty,
        listed,
    })
}

/// Puts a node behind the others.
fn put(
    slots: &mut Vec<Slot>,
    size: usize,
    count: usize,
    ty: u32,
    listed: usize,
) -> Result<(), AllocError>
    ensures put { IfOk result (λ _. slots.new.items ≡ slots.old.items ++ record {
      size = size;
      count = count;
      ty = ty;
      listed = listed;
    } ∷ []) }
    ensures unless { OnErr result (slots.new.items ≡ slots.old.items) }
{
    let slot = node(size, count, ty, listed)?;
    make_room(slots)?;
    slots.push(slot)?;
    Ok(())
}

impl Types {
    ghost use Rattle.std.specs.Prelude.{◌≡◌, ◌≤◌, ◌-◌, ◌++◌, ◌∷◌, [], suc, length, IfOk};

    /// No trees.
    pub fn new(alloc: Global) -> Types
        ensures { result ≡ [] }
    {
        Types {
            slots: Vec::new(alloc),
            ends: Vec::new(alloc),
            types: Vec::new(alloc),
        }
    }

    /// How many slots there are.
    pub fn count(&self) -> usize
        ensures { result ≡ length self.now }
    {
        self.slots.len()
    }

    /// Makes one tree of the last ones: those behind the first `before` slots, of which there are
    /// `parts`, become the parts of a node of this type.
    pub fn close(&mut self, before: usize, parts: usize, ty: Option<Ty>) -> Result<(), AllocError>
        requires { before ≤ length self.old }
        ensures { IfOk result (λ _. self.new ≡ self.old ++ record {
          size = suc (length self.old - before);
          count = parts;
          type = option_map ty_of ty;
        } ∷ []) }
    {
        let size = self.slots.len() - before + 1;
        let listed = self.ends.len();
        let number = number_of(&mut self.types, ty)?;
        list_parts(self.slots.as_slice(), parts, &mut self.ends)?;
        put(&mut self.slots, size, parts, number, listed)?;
        Ok(())
    }

    /// Lets go of the room that is left, once all trees are made.
    pub fn fit(&mut self)
        ensures { self.new ≡ self.old }
    {
        self.slots.shrink_to_fit();
        self.ends.shrink_to_fit();
        self.types.shrink_to_fit();
    }

    /// The type of the node to which the path leads from the root of the last tree.
    #[tactic(auto, unfolding(crate::specs::Slots::find_type))]
    pub fn ty(&self, path: &Path) -> Option<&Ty>
        ensures { option_map (λ t. ty_of t.now) result
            ≡ pure.find_type self.now path.now.steps.items }
    {
        find(
            self.types.as_slice(),
            self.slots.as_slice(),
            self.ends.as_slice(),
            self.slots.len(),
            path.steps.as_slice(),
        )
    }
}
