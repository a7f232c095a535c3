//! Shapes are gone through with a stack of pieces.
ghost use Rattle.std.specs.Prelude.{◌≡◌, ◌↔◌, ◌<◌, ◌+◌, ℕ, Contains, IfOk, OnOk, length};
ghost use Rattle.jr_cover.specs.Ways.{Edge, Way, size};
ghost use Rattle.jr_flow.specs.Edges.{AreBelow};
ghost use Rattle.jr_way_graph.specs.PieceView.{machine_view, piece_view};
ghost use Rattle.jr_way_graph.specs.Pieces as pure;
ghost use Rattle.jr_way_graph.specs.Shapes.{shapes_of};

use crate::loops::{again, ends, turns_edges, turns_piece};
use crate::pieces::{
    Piece, fork_piece, inside_edges, inside_piece, leave_piece, pass_piece, row_edges, row_piece,
    site_piece,
};
use crate::shapes::Shape;
use std::alloc::{AllocError, Global};

/// The edges of a way, and how many sites it has.
#[derive(Drop)]
pub struct Edges {
    pub count: u32,
    pub edges: Vec<(u32, u32)>,
}

/// How many sites were met, the pieces that are whole, the last at the end, and the edges in them.
#[derive(Drop)]
pub(crate) struct Machine {
    pub count: u32,
    pub pieces: Vec<Piece>,
    pub edges: Vec<(u32, u32)>,
}

impl Machine {
    fn push(&mut self, more: u32, piece: Piece) -> Result<(), AllocError>
        requires { self.old.count + more < 4294967296 }
        ensures { OnOk result (machine_view self.new
            ≡ pure.pushed more (piece_view piece) (machine_view self.old)) }
    {
        self.pieces.push(piece)?;
        self.count += more;
        Ok(())
    }

    fn row(&mut self) -> Result<(), AllocError>
        ensures { OnOk result (machine_view self.new ≡ pure.joined pure.row_piece pure.row_edges
            (machine_view self.old) (machine_view self.old).stack) }
    {
        let (Some(second), Some(first)) = (self.pieces.pop(), self.pieces.pop()) else {
            return Ok(());
        };
        row_edges(&first, &second, &mut self.edges)?;
        let piece = row_piece(first, second)?;
        self.pieces.push(piece)?;
        Ok(())
    }

    fn fork(&mut self) -> Result<(), AllocError>
        ensures { OnOk result (machine_view self.new ≡ pure.joined pure.fork_piece pure.no_edges
            (machine_view self.old) (machine_view self.old).stack) }
    {
        let (Some(second), Some(first)) = (self.pieces.pop(), self.pieces.pop()) else {
            return Ok(());
        };
        let piece = fork_piece(first, second)?;
        self.pieces.push(piece)?;
        Ok(())
    }

    fn turns(&mut self, alloc: Global) -> Result<(), AllocError>
        ensures { OnOk result (machine_view self.new ≡ pure.joined pure.loop_piece pure.loop_edges
            (machine_view self.old) (machine_view self.old).stack) }
    {
        let (Some(body), Some(condition)) = (self.pieces.pop(), self.pieces.pop()) else {
            return Ok(());
        };
        let is_bare = body.begin == condition.begin;
        let number = condition.begin.saturating_sub(1);
        let ends = ends(alloc, is_bare, number, &condition, &body)?;
        let again = again(alloc, is_bare, number, &condition)?;
        turns_edges(
            number,
            ends.as_slice(),
            again.as_slice(),
            &condition,
            &body,
            &mut self.edges,
        )?;
        let piece = turns_piece(alloc, number, ends, body)?;
        self.pieces.push(piece)?;
        Ok(())
    }

    fn close(&mut self, alloc: Global) -> Result<(), AllocError>
        requires { self.old.count + 1 < 4294967296 }
        ensures { OnOk result (machine_view self.new
            ≡ pure.closed (machine_view self.old) (machine_view self.old).stack) }
    {
        let exit = self.count;
        self.count += 1;
        let Some(block) = self.pieces.pop() else {
            return Ok(());
        };
        let entry = block.begin.saturating_sub(1);
        inside_edges(entry, exit, &block, &mut self.edges)?;
        let piece = inside_piece(alloc, entry, exit, &block)?;
        self.pieces.push(piece)?;
        Ok(())
    }

    fn step(&mut self, alloc: Global, shape: Shape) -> Result<(), AllocError>
        requires { self.old.count + 1 < 4294967296 }
        ensures { OnOk result (machine_view self.new ≡ pure.step shape (machine_view self.old)) }
    {
        match shape {
            Shape::Pass => self.push(0, pass_piece(alloc, self.count)),
            Shape::Site => {
                let piece = site_piece(alloc, self.count)?;
                self.push(1, piece)
            }
            Shape::Opens => {
                self.count += 1;
                Ok(())
            }
            Shape::Row => self.row(),
            Shape::Fork => self.fork(),
            Shape::Leave => self.push(0, leave_piece(alloc, self.count)),
            Shape::Turns => self.turns(alloc),
            Shape::Closes => self.close(alloc),
        }
    }
}

// Goes through all shapes.
fn go(alloc: Global, shapes: &[Shape]) -> Result<Machine, AllocError>
    requires { length shapes.now < 4294967295 }
    ensures { IfOk result (λ m. machine_view m ≡ pure.run shapes.now pure.none) }
{
    let mut machine = Machine {
        count: 0,
        pieces: Vec::new(alloc),
        edges: Vec::new(alloc),
    };
    for number in 0..shapes.len() {
        machine.step(alloc, shapes[number])?;
    }
    Ok(machine)
}

/// How many sites the way that has these shapes has, and its edges, exactly.
pub fn graph<S>(alloc: Global, shapes: &[Shape]) -> Result<Edges, AllocError>
    requires few { length shapes.now < 4294967295 }
    ensures count { (w : Way S) → shapes.now ≡ shapes_of w
        → IfOk result (λ g. g.count ≡ size w) }
    ensures edges { (w : Way S) → shapes.now ≡ shapes_of w → IfOk result (λ g. (i j : ℕ)
        → Contains g.edges.items (i, j) ↔ Edge 0 w i j) }
    ensures below { (w : Way S) → shapes.now ≡ shapes_of w
        → IfOk result (λ g. AreBelow g.count g.edges.items) }
{
    let machine = go(alloc, shapes)?;
    let Machine {
        count,
        pieces: _,
        edges,
    } = machine;
    Ok(Edges { count, edges })
}
