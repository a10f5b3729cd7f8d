//! What is wrong on a bus, in words.
use crate::words::Above;
use crate::writer::Writer;
use dt_check::{Bus, Graph, Message};
use std::alloc::AllocError;

fn bus_name(bus: Bus) -> &'static str {
    match bus {
        Bus::Pci => "PCI",
        Bus::Simple => "a simple bus",
        Bus::I2c => "I2C",
        Bus::Spi => "SPI",
    }
}

fn on_bus(writer: &mut Writer, words: &str, bus: Bus) -> Result<(), AllocError> {
    writer.put(words.as_bytes())?;
    writer.put(bus_name(bus).as_bytes())
}

/// Says what is wrong with a bus, and answers whether it did.
pub fn say_bridge(writer: &mut Writer, message: Message) -> Result<bool, AllocError> {
    match message {
        Message::BridgeName(Bus::Pci) => writer.put(b"a bridge to PCI is named pci or pcie")?,
        Message::BridgeName(bus) => on_bus(writer, "isn't named as the bus that it is: ", bus)?,
        Message::NoBridgeRanges => writer.put(b"a bridge to PCI without ranges")?,
        Message::BridgeAddress(bus) => on_bus(writer, "not the #address-cells of ", bus)?,
        Message::BridgeSize(bus) => on_bus(writer, "not the #size-cells of ", bus)?,
        Message::NotTwoCells => writer.put(b"is not two cells")?,
        Message::RangeOrder => writer.put(b"the first bus is behind the last")?,
        Message::RangeEnd => writer.put(b"the last bus is over 255")?,
        Message::PciCells => writer.put(b"the second and third cell are not 0")?,
        Message::PciSpace => writer.put(b"is no address of the configuration space")?,
        Message::PciRegister => writer.put(b"is the address of a register")?,
        _ => return Ok(false),
    }
    Ok(true)
}

fn pci_unit(writer: &mut Writer, device: u32, function: u32) -> Result<(), AllocError> {
    writer.hex("the unit address wants to be ", u64::from(device))?;
    writer.hex(",", u64::from(function))
}

fn pci_bus(writer: &mut Writer, number: u32, first: u32, last: u32) -> Result<(), AllocError> {
    writer.count("bus ", number as usize)?;
    writer.count(" is not among ", first as usize)?;
    writer.count(" to ", last as usize)
}

/// Says what is wrong with a device on a bus, and answers whether it did.
pub fn say_device(writer: &mut Writer, message: Message) -> Result<bool, AllocError> {
    match message {
        Message::PciUnit(device, function) => pci_unit(writer, device, function)?,
        Message::PciBus {
            number,
            first,
            last,
        } => pci_bus(writer, number, first, last)?,
        Message::NoAddress(Bus::Simple) => {
            writer.put(b"on a simple bus, with neither reg nor entries in ranges")?;
        }
        Message::NoAddress(bus) => on_bus(writer, "without reg on ", bus)?,
        Message::Unit(_, number) => writer.hex("the unit address wants to be ", number)?,
        Message::TenBits(number) => {
            writer.hex("an address of more than 10 bits: 0x", u64::from(number))?;
        }
        Message::SevenBits(number) => {
            writer.hex("an address of more than 7 bits: 0x", u64::from(number))?;
            writer.put(b"; one of 10 bits has bit 31 (I2C_TEN_BIT_ADDRESS) set")?;
        }
        _ => return Ok(false),
    }
    Ok(true)
}

fn cells_above(
    writer: &mut Writer,
    name: &str,
    cells: Option<u32>,
    wanted: usize,
    above: Above<'_>,
) -> Result<(), AllocError> {
    above.put(writer)?;
    match cells {
        None => {
            writer.put(b" doesn't say ")?;
            writer.put(name.as_bytes())?;
        }
        Some(count) => {
            writer.put(b" has ")?;
            writer.put(name.as_bytes())?;
            writer.count(" ", count as usize)?;
        }
    }
    writer.count(", wanted is ", wanted)
}

/// Says what is wrong with a node of a graph, and answers whether it did.
pub fn say_graph(
    writer: &mut Writer,
    message: Message,
    above: Above<'_>,
) -> Result<bool, AllocError> {
    match message {
        Message::GraphName(Graph::Port) => writer.put(b"a port isn't named port")?,
        Message::GraphName(Graph::Endpoint) => writer.put(b"an endpoint isn't named endpoint")?,
        Message::GraphUnit(number) => {
            writer.hex("the unit address wants to be ", u64::from(number))?;
        }
        Message::GraphAddress(cells) => cells_above(writer, "#address-cells", cells, 1, above)?,
        Message::GraphSize(cells) => cells_above(writer, "#size-cells", cells, 0, above)?,
        _ => return Ok(false),
    }
    Ok(true)
}
