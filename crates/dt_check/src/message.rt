//! What is wrong, as data: what was found and what was wanted.

/// What a finding says. Lengths are in bytes, counts of cells in cells of 4 bytes; a node is named by its place in the survey.
#[derive(Clone, Copy)]
pub enum Message {
    /// A prerequisite of the check didn't pass: the check at this place of the table.
    Prerequisite(usize),
    /// The check that always fails.
    Always,
    NotAString,
    NotAStringList,
    NotACell,
    /// The byte can't stand in the name of a node.
    BadNodeByte(u8),
    /// The byte isn't recommended there.
    OddNodeByte(u8),
    /// The name has a second `@`.
    SecondAt,
    /// The node above has a property of the node's name.
    NameTwice,
    /// The property `name` isn't the base of the node's name.
    WrongName,
    /// The byte can't stand in the name of a property.
    BadPropertyByte(u8),
    /// The byte isn't recommended there.
    OddPropertyByte(u8),
    /// The root has a property `reg`.
    RootHasReg,
    /// The value has no bytes.
    IsEmpty,
    /// `reg` isn't made of addresses and sizes of so many cells.
    RegLength {
        bytes: usize,
        address_cells: u32,
        size_cells: u32,
    },
    /// The root has the property.
    RootHas,
    /// An empty map between addresses of this many cells, and of this many above.
    EmptyAddress(u32, u32),
    /// An empty map between sizes of this many cells, and of this many above.
    EmptySize(u32, u32),
    /// A map isn't made of addresses of the node, addresses above and sizes of so many cells.
    RangesLength {
        bytes: usize,
        above_cells: u32,
        address_cells: u32,
        size_cells: u32,
    },
    /// `reg` or `ranges` without a unit address.
    NoUnit,
    /// A unit address without `reg` or `ranges`.
    NoReg,
    /// The unit address begins with `0x`.
    LeadingHex,
    /// The unit address begins with a zero that a digit follows.
    LeadingZero,
    /// A bridge of this bus isn't named as one.
    BridgeName(Bus),
    /// A PCI bridge without `ranges`.
    NoBridgeRanges,
    /// A bridge whose addresses haven't as many cells as the bus has.
    BridgeAddress(Bus),
    /// A bridge whose sizes haven't.
    BridgeSize(Bus),
    /// `bus-range` isn't two cells.
    NotTwoCells,
    /// The first bus is behind the last.
    RangeOrder,
    /// The last bus is over 255.
    RangeEnd,
    /// The second and third cell of a PCI address aren't 0.
    PciCells,
    /// A PCI address that isn't of the configuration space.
    PciSpace,
    /// A PCI address of a register other than 0.
    PciRegister,
    /// The unit address isn't this device and function.
    PciUnit(u32, u32),
    /// A bus number that isn't in this range.
    PciBus {
        number: u32,
        first: u32,
        last: u32,
    },
    /// Neither `reg` nor `ranges` says where the node is on its bus.
    NoAddress(Bus),
    /// The unit address isn't this address.
    Unit(Bus, u64),
    /// An address of more than 10 bits.
    TenBits(u32),
    /// An address of more than 7 bits.
    SevenBits(u32),
    /// `reg` or `ranges` by an `#address-cells` that isn't there.
    DefaultAddress,
    /// The same of `#size-cells`.
    DefaultSize,
    /// `#address-cells` and `#size-cells` of a node that needs neither.
    Unnecessary,
    /// The unit address is that of this node, too.
    SameUnit(usize),
    /// `/chosen` has `interrupt-controller`.
    ObsoleteController,
    /// `chosen` isn't below the root.
    ChosenPlace,
    /// `linux,stdout-path` stands in place of `stdout-path`.
    OldStdout,
    /// The length isn't made of cells.
    NotCells(usize),
    /// This cell, which wants a phandle, is no reference in the source.
    NotAReference(usize),
    /// No node has the phandle in this cell.
    NoNode(usize),
    /// The node at this place, which this cell refers to, lacks the property that says how many cells follow.
    NoCells {
        node: usize,
        cell: usize,
    },
    /// The value is too short for so many cells behind a phandle.
    TooShort {
        bytes: usize,
        cells: u32,
    },
    /// `gpio` in place of `gpios`.
    DeprecatedGpio,
    /// A parent of interrupts without `#interrupt-cells`.
    NoInterruptCells,
    /// A parent of interrupts without `#address-cells`.
    NoInterruptAddress,
    /// No node takes the interrupts.
    NoInterruptParent,
    /// What `interrupt-parent` holds is no phandle.
    BadParent,
    /// No node has the phandle in `interrupt-parent`.
    NoParent,
    /// The node takes no interrupts, though the `interrupt-parent` of the node at this place leads to it.
    NotAProvider(usize),
    /// `interrupts` isn't made of specifiers of so many bytes.
    InterruptLength {
        bytes: usize,
        wanted: usize,
    },
    /// The path that the alias holds leads to no node.
    NoAliasNode,
    /// The name of an alias has other bytes than lower case letters, digits and `-`.
    AliasName,
    /// The length of a phandle.
    PhandleLength(usize),
    /// A number that is no phandle.
    PhandleValue(u32),
    /// `phandle` and `linux,phandle` differ.
    PhandlesDiffer,
    /// The node at this place has the phandle already.
    PhandleTwice {
        phandle: u32,
        node: usize,
    },
    /// A node of a graph with a single child, which needs no addresses.
    SingleChild,
    /// A port or endpoint that isn't named as one.
    GraphName(Graph),
    /// `reg` isn't one cell.
    GraphReg,
    /// The unit address isn't this one.
    GraphUnit(u32),
    /// The node above has addresses of so many cells, and not of one: none where it doesn't say.
    GraphAddress(Option<u32>),
    /// The node above has sizes of so many cells, and not of none.
    GraphSize(Option<u32>),
    /// A bus without `ranges`, whose devices none above it can reach.
    LostRanges,
    /// The property that is at this place of the reference set is near.
    Unknown(usize),
    /// No node has the phandle in `remote-endpoint`.
    NoRemote,
    /// The node at this place doesn't lead back.
    OneWay(usize),
}

/// A bus.
#[derive(Clone, Copy, Debug, PartialEq, Eq)]
pub enum Bus {
    Pci,
    Simple,
    I2c,
    Spi,
}

/// A node of a graph.
#[derive(Clone, Copy, Debug, PartialEq, Eq)]
pub enum Graph {
    Port,
    Endpoint,
}
