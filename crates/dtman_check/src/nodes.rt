//! What is wrong with one node, in words.
use crate::words::Above;
use crate::writer::Writer;
use dt_check::Message;
use std::alloc::AllocError;

// Numbers of cells that don't make a length.
fn reg_length(
    writer: &mut Writer,
    bytes: usize,
    address_cells: u32,
    size_cells: u32,
    above: Above<'_>,
) -> Result<(), AllocError> {
    writer.count("has ", bytes)?;
    writer.count(" bytes; #address-cells ", address_cells as usize)?;
    writer.count(" and #size-cells ", size_cells as usize)?;
    writer.put(b" of ")?;
    above.put(writer)?;
    let entry = 4 * (address_cells as usize + size_cells as usize);
    writer.count(" want a multiple of ", entry)
}

fn ranges_length(
    writer: &mut Writer,
    bytes: usize,
    above_cells: u32,
    address_cells: u32,
    size_cells: u32,
    above: Above<'_>,
) -> Result<(), AllocError> {
    writer.count("has ", bytes)?;
    writer.count(" bytes; #address-cells ", address_cells as usize)?;
    writer.count(" and #size-cells ", size_cells as usize)?;
    writer.count(" of the node and #address-cells ", above_cells as usize)?;
    writer.put(b" of ")?;
    above.put(writer)?;
    let entry = 4 * (above_cells as usize + address_cells as usize + size_cells as usize);
    writer.count(" want a multiple of ", entry)
}

fn empty_map(
    writer: &mut Writer,
    name: &str,
    own: u32,
    outer: u32,
    above: Above<'_>,
) -> Result<(), AllocError> {
    writer.put(b"is empty, but ")?;
    writer.put(name.as_bytes())?;
    writer.count(" is ", own as usize)?;
    writer.put(b", and of ")?;
    above.put(writer)?;
    writer.count(" ", outer as usize)
}

/// Says what has numbers in it, and answers whether it did.
pub fn say_numbers(
    writer: &mut Writer,
    message: Message,
    above: Above<'_>,
) -> Result<bool, AllocError> {
    match message {
        Message::RegLength {
            bytes,
            address_cells,
            size_cells,
        } => reg_length(writer, bytes, address_cells, size_cells, above)?,
        Message::RangesLength {
            bytes,
            above_cells,
            address_cells,
            size_cells,
        } => ranges_length(writer, bytes, above_cells, address_cells, size_cells, above)?,
        Message::EmptyAddress(own, outer) => {
            empty_map(writer, "#address-cells", own, outer, above)?;
        }
        Message::EmptySize(own, outer) => empty_map(writer, "#size-cells", own, outer, above)?,
        Message::BadNodeByte(byte) => writer.byte("the name of a node can't have", byte)?,
        Message::OddNodeByte(byte) => {
            writer.byte("not recommended in the name of a node:", byte)?;
        }
        Message::BadPropertyByte(byte) => {
            writer.byte("the name of a property can't have", byte)?;
        }
        Message::OddPropertyByte(byte) => {
            writer.byte("not recommended in the name of a property:", byte)?;
        }
        _ => return Ok(false),
    }
    Ok(true)
}

/// What needs no numbers: no words for what does.
pub fn plain_words(message: Message) -> &'static str {
    match message {
        Message::Always => "always fails",
        Message::NotAString => "is no string",
        Message::NotAStringList => "is no list of strings",
        Message::NotACell => "is not one cell",
        Message::SecondAt => "the name has a second '@'",
        Message::NameTwice => "the node above has a property of the same name",
        Message::WrongName => "its property name is not the base of its name",
        Message::RootHasReg => "the root has a property reg",
        Message::IsEmpty => "is empty",
        Message::RootHas => "the root can't have it",
        Message::NoUnit => "has reg or ranges, but no unit address",
        Message::NoReg => "has a unit address, but neither reg nor ranges",
        Message::LeadingHex => "the unit address begins with 0x",
        Message::LeadingZero => "the unit address begins with a zero",
        Message::DefaultAddress =>
            "the node above doesn't say #address-cells, which reg or ranges rests on",
        Message::DefaultSize =>
            "the node above doesn't say #size-cells, which reg or ranges rests on",
        Message::Unnecessary =>
            "#address-cells and #size-cells without ranges and without a child with reg",
        Message::ObsoleteController => "/chosen has it, as nothing reads any more",
        Message::ChosenPlace => "isn't below the root",
        Message::OldStdout => "stdout-path is its name now",
        Message::DeprecatedGpio => "a name that ends in gpio; gpios is the name now",
        Message::NoInterruptCells => "takes interrupts and doesn't say #interrupt-cells",
        Message::NoInterruptAddress => "takes interrupts and doesn't say #address-cells",
        Message::NoInterruptParent => "no node takes its interrupts: no interrupt-parent",
        Message::BadParent => "holds no phandle",
        Message::NoParent => "no node has this phandle",
        Message::AliasName =>
            "the name of an alias has other than lower case letters, digits and -",
        Message::PhandlesDiffer => "phandle and linux,phandle differ",
        Message::SingleChild => "has a single child, which needs no #address-cells and #size-cells",
        Message::LostRanges =>
            "a bus with devices in memory, but no ranges: none of their addresses can be reached",
        Message::GraphReg => "reg is not one cell",
        Message::NoRemote => "no node has this phandle",
        _ => "",
    }
}
