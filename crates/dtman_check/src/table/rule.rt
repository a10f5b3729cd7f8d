//! What a check looks for in a node, by the rule's name.
ghost use Rattle.std.specs.Prelude.{◌≡◌};
ghost use Rattle.dtman_check.specs.Table.Rules.{no_interrupt_cells, no_interrupt_address, rule_fault, property_fault, link_fault, here_fault, near_here};

use dt_check::links::{
    LinkFault, cells_fault, different_fault, far_fault, graph_address_fault, graph_name_fault,
    graph_reg_fault, graph_size_fault, graph_unit_fault, length_fault, missing_fault, near_fault,
    one_way_fault, phandle_fault, search_fault, single_child_fault, twice_fault,
};
use dt_check::{
    Bus, Fault, Graph, Here, Message, Survey, bootargs_fault, bridge_address_fault,
    bridge_size_fault, cell_fault, controller_fault, default_fault, end_fault, gpio_fault,
    hex_fault, i2c_bits_fault, i2c_fault, is_parent_without, later_cells_fault, lost_fault,
    name_fault, name_twice_fault, names_fault, no_ranges_fault, node_byte_fault, old_stdout_fault,
    order_fault, pci_bus_fault, pci_name_fault, pci_unit_fault, place_fault, property_byte_fault,
    ranges_fault, ranges_size_fault, reg_fault, register_fault, second_at_fault, simple_fault,
    space_fault, spi_fault, spi_name_fault, stdout_fault, strict_node_fault, strict_property_fault,
    string_fault, string_list_fault, two_cells_fault, unit_fault, unnecessary_fault, zero_fault,
};
use dt_tree::Property;

/// A rule about a node and the one above it.
#[derive(Clone, Copy)]
pub enum Rule {
    IsString(&'static [u8]),
    IsStringList(&'static [u8]),
    IsCell(&'static [u8]),
    NodeByte,
    StrictNodeByte,
    SecondAt,
    NameTwice,
    NameProperty,
    Reg,
    Ranges(&'static [u8]),
    RangesSize(&'static [u8]),
    Unit,
    LeadingHex,
    LeadingZero,
    PciName,
    NoRanges,
    BridgeAddress(Bus),
    BridgeSize(Bus),
    TwoCells,
    RangeOrder,
    RangeEnd,
    LaterCells,
    PciSpace,
    PciRegister,
    PciUnit,
    PciBus,
    SimpleAddress,
    I2cAddress,
    I2cBits,
    SpiName,
    SpiAddress,
    DefaultAddress,
    DefaultSize,
    Unnecessary,
    ObsoleteController,
    ChosenPlace,
    Bootargs,
    OldStdout,
    Stdout,
    NoInterruptCells,
    NoInterruptAddress,
    LostRanges,
    Always,
}

/// A rule about a property.
#[derive(Clone, Copy)]
pub enum PropertyRule {
    Names,
    Byte,
    StrictByte,
    Gpio,
}

/// A rule about a node and those that it leads to.
#[derive(Clone, Copy)]
pub enum LinkRule {
    Phandle(&'static [u8]),
    PhandlesDiffer,
    PhandleTwice,
    InterruptLength,
    InterruptWay,
    NoInterruptParent,
    InterruptCells,
    SingleChild,
    GraphName(Graph),
    GraphReg(Graph),
    GraphUnit(Graph),
    GraphAddress(Graph),
    GraphSize(Graph),
    NearEnd,
    FarEnd,
    OneWay,
}

fn no_interrupt_cells(here: &Here<'_>) -> Option<Fault<'static>>
    ensures { result ≡ no_interrupt_cells here.now }
{
    is_parent_without(here, b"#interrupt-cells", Message::NoInterruptCells)
}

fn no_interrupt_address(here: &Here<'_>) -> Option<Fault<'static>>
    ensures { result ≡ no_interrupt_address here.now }
{
    is_parent_without(here, b"#address-cells", Message::NoInterruptAddress)
}

impl Rule {
    /// What it finds.
    pub fn fault(self, here: &Here<'_>) -> Option<Fault<'static>>
        ensures { result ≡ rule_fault self here.now }
    {
        match self {
            Rule::IsString(name) => string_fault(here, name),
            Rule::IsStringList(name) => string_list_fault(here, name),
            Rule::IsCell(name) => cell_fault(here, name),
            Rule::NodeByte => node_byte_fault(here),
            Rule::StrictNodeByte => strict_node_fault(here),
            Rule::SecondAt => second_at_fault(here),
            Rule::NameTwice => name_twice_fault(here),
            Rule::NameProperty => name_fault(here),
            Rule::Reg => reg_fault(here),
            Rule::Ranges(name) => ranges_fault(here, name),
            Rule::RangesSize(name) => ranges_size_fault(here, name),
            Rule::Unit => unit_fault(here),
            Rule::LeadingHex => hex_fault(here),
            Rule::LeadingZero => zero_fault(here),
            Rule::PciName => pci_name_fault(here),
            Rule::NoRanges => no_ranges_fault(here),
            Rule::BridgeAddress(bus) => bridge_address_fault(here, bus),
            Rule::BridgeSize(bus) => bridge_size_fault(here, bus),
            Rule::TwoCells => two_cells_fault(here),
            Rule::RangeOrder => order_fault(here),
            Rule::RangeEnd => end_fault(here),
            Rule::LaterCells => later_cells_fault(here),
            Rule::PciSpace => space_fault(here),
            Rule::PciRegister => register_fault(here),
            Rule::PciUnit => pci_unit_fault(here),
            Rule::PciBus => pci_bus_fault(here),
            Rule::SimpleAddress => simple_fault(here),
            Rule::I2cAddress => i2c_fault(here),
            Rule::I2cBits => i2c_bits_fault(here),
            Rule::SpiName => spi_name_fault(here),
            Rule::SpiAddress => spi_fault(here),
            Rule::DefaultAddress => default_fault(here, b"#address-cells", Message::DefaultAddress),
            Rule::DefaultSize => default_fault(here, b"#size-cells", Message::DefaultSize),
            Rule::Unnecessary => unnecessary_fault(here),
            Rule::ObsoleteController => controller_fault(here),
            Rule::ChosenPlace => place_fault(here),
            Rule::Bootargs => bootargs_fault(here),
            Rule::OldStdout => old_stdout_fault(here),
            Rule::Stdout => stdout_fault(here),
            Rule::NoInterruptCells => no_interrupt_cells(here),
            Rule::NoInterruptAddress => no_interrupt_address(here),
            Rule::LostRanges => lost_fault(here),
            Rule::Always => Some(Fault::of_node(Message::Always)),
        }
    }
}

impl PropertyRule {
    /// What it finds.
    pub fn fault(self, property: &Property) -> Option<Fault<'_>>
        ensures { result ≡ property_fault self property.now }
    {
        match self {
            PropertyRule::Names => names_fault(property),
            PropertyRule::Byte => property_byte_fault(property),
            PropertyRule::StrictByte => strict_property_fault(property),
            PropertyRule::Gpio => gpio_fault(property),
        }
    }
}

// A fault of the node itself.
fn near_here<'t>(place: usize, fault: Option<Fault<'t>>) -> Option<LinkFault<'t>>
    ensures { result ≡ near_here place fault.entry }
{
    match fault {
        None => None,
        Some(fault) => Some(LinkFault::at(place, fault)),
    }
}

impl LinkRule {
    // What it finds in the node itself.
    fn here_fault<'t>(self, survey: &Survey<'_>, here: &Here<'t>, place: usize) -> Option<Fault<'t>>
        ensures { result ≡ here_fault self survey.now here.now place }
    {
        match self {
            LinkRule::Phandle(name) => phandle_fault(here, name),
            LinkRule::PhandlesDiffer => different_fault(here),
            LinkRule::PhandleTwice => twice_fault(survey, here, place),
            LinkRule::SingleChild => single_child_fault(here),
            LinkRule::GraphName(kind) => graph_name_fault(here, kind),
            LinkRule::GraphReg(kind) => graph_reg_fault(here, kind),
            LinkRule::GraphUnit(kind) => graph_unit_fault(here, kind),
            LinkRule::GraphAddress(kind) => graph_address_fault(here, kind),
            LinkRule::GraphSize(kind) => graph_size_fault(here, kind),
            LinkRule::InterruptLength
            | LinkRule::InterruptWay
            | LinkRule::NoInterruptParent
            | LinkRule::InterruptCells
            | LinkRule::NearEnd
            | LinkRule::FarEnd
            | LinkRule::OneWay => None,
        }
    }

    /// What it finds.
    pub fn fault<'t>(
        self,
        survey: &Survey<'_>,
        here: &Here<'t>,
        place: usize,
    ) -> Option<LinkFault<'t>>
        ensures { result ≡ link_fault self survey.now here.now place }
    {
        match self {
            LinkRule::InterruptLength => length_fault(survey, place),
            LinkRule::InterruptWay => search_fault(survey, place),
            LinkRule::NoInterruptParent => missing_fault(survey, place),
            LinkRule::InterruptCells => cells_fault(survey, place),
            LinkRule::NearEnd => near_fault(survey, here, place),
            LinkRule::FarEnd => far_fault(survey, here, place),
            LinkRule::OneWay => one_way_fault(survey, here, place),
            LinkRule::Phandle(_)
            | LinkRule::PhandlesDiffer
            | LinkRule::PhandleTwice
            | LinkRule::SingleChild
            | LinkRule::GraphName(_)
            | LinkRule::GraphReg(_)
            | LinkRule::GraphUnit(_)
            | LinkRule::GraphAddress(_)
            | LinkRule::GraphSize(_) => near_here(place, self.here_fault(survey, here, place)),
        }
    }
}
