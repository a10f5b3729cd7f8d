//! A row that keeps its place, and whether what is at it was made since its node was.
ghost use Rattle.std.specs.Prelude.{◌≡◌, ◌<◌, ◌≤◌, length, unwrap_or};
ghost use Rattle.dt_live.specs.Placed.Rows.{is_made, made_at, place_at};

/// What a node has under a name, at its place: a child, a property or a label.
#[derive(Clone, Copy)]
pub struct Place<'d, X> {
    /// The node that has it; 0 is the root.
    pub owner: usize,
    pub name: &'d [u8],
    /// None where it never had one.
    pub value: Option<X>,
    /// The tick of the clock at which it was made last, 0 where it never was.
    pub made: usize,
    pub removed: bool,
    /// An earlier row is of the same name: nothing stands there any more, and this one can't be made again.
    pub again: bool,
}

/// No text has it.
const NOWHERE: u32 = 0;

impl<'d> Place<'d, u32> {
    /// Where the text has what is at the place, in bytes; 0 where it never was there.
    pub fn at(&self) -> u32
        ensures { result ≡ unwrap_or self.now.value 0 }
    {
        self.value.unwrap_or(NOWHERE)
    }
}

/// When a node was made last; the root is there from the first tick on.
pub(crate) fn made_at(nodes: &[Place<'_, u32>], node: usize) -> usize
    requires { node ≤ length nodes.now }
    ensures { result ≡ made_at nodes.now node }
{
    if node == 0 {
        return 1;
    }
    nodes[node - 1].made
}

/// Whether what is at a place was made since its node was made last, and wasn't removed.
pub(crate) fn is_made<X: Copy>(nodes: &[Place<'_, u32>], place: &Place<'_, X>) -> bool
    requires { place.now.owner ≤ length nodes.now }
    ensures { result ≡ is_made nodes.now place.now }
{
    !place.removed && made_at(nodes, place.owner) <= place.made
}

/// The same of the row of a node.
pub(crate) fn is_row_made(nodes: &[Place<'_, u32>], row: usize) -> bool
    requires known { row < length nodes.now }
    requires owner { (place_at nodes.now row).owner ≤ length nodes.now }
    ensures { result ≡ is_made nodes.now (place_at nodes.now row) }
{
    is_made(nodes, &nodes[row])
}
