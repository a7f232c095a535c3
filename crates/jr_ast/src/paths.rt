/// A way down a tree: each step is the number of a child. The empty path stays where it begins.
#[derive(Drop)]
pub struct Path {
    pub steps: Vec<u32>,
}
