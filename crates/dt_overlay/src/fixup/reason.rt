//! What is wrong where an overlay is refused.

/// Why an entry of fixups can't be used.
#[derive(Debug, Clone, Copy, PartialEq, Eq, Drop)]
pub enum EntryFault {
    /// The value has no zero byte at its end.
    NoTexts,
    /// The value isn't made of cells.
    NoCells,
    /// The text isn't a path, a property and an offset.
    NoSite,
    /// The overlay has no such node.
    NoNode,
    /// The node has no such property.
    NoProperty,
    /// Four bytes from the offset on don't lie inside the value.
    Outside,
    /// The node is a reserved one.
    Reserved,
    /// The property is `phandle`.
    Phandle,
    /// Another entry has one of the bytes.
    Taken,
}

/// Why a symbol names no phandle.
#[derive(Debug, Clone, Copy, PartialEq, Eq, Drop)]
pub enum SymbolFault {
    /// The base has no `__symbols__`.
    NoSymbols,
    /// The base has no symbol of this name.
    NoSymbol,
    /// The symbol is no path with a zero byte.
    NoPath,
    /// The symbol leads to no node.
    NoNode,
    /// The symbol's node has no phandle.
    NoPhandle,
}

/// Why a fragment has no target.
#[derive(Debug, Clone, Copy, PartialEq, Eq, Drop)]
pub enum TargetFault {
    /// It has neither `target` nor `target-path`.
    NoProperty,
    /// Its `target` hasn't four bytes.
    NoCell,
    /// No node of the base has the phandle of its `target`, as that is after the fixups.
    NoPhandle(u32),
    /// Its `target-path` is no path with a zero byte.
    NoPath,
    /// The base has no node at its `target-path`.
    NoNode,
}

/// Two phandles that can't be. Nodes are counted in the order in which their tree is read, the root as 0.
#[derive(Debug, Clone, Copy, PartialEq, Eq, Drop)]
pub enum Clash {
    /// Two properties of the overlay give one phandle.
    Same { property: usize, other: usize },
    /// A property of the overlay would stand over one that is there, below this node of the base.
    Second { property: usize, target: usize },
}
