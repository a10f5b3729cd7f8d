//! The first half of the table: names, texts, addresses, buses.

ghost use Rattle.std.specs.Prelude.{◌≡◌, map, take, drop};
ghost use Rattle.dtman_check.specs.Table.Checks.{checks};
ghost use Rattle.dtman_check.specs.Table.CheckView.{check_data};

use crate::table::check::{Among, Check, Finds, Severity};
use crate::table::rule::{LinkRule, PropertyRule, Rule};
use crate::table::table::PART;
use crate::table::units::Counted;
use dt_check::Bus;

static PART_0: [Check; PART] = [
    Check {
        name: "duplicate_node_names",
        severity: Severity::Error,
        prerequisites: &[],
        made_before: &[],
        finds: Finds::Nothing,
    },
    Check {
        name: "duplicate_property_names",
        severity: Severity::Error,
        prerequisites: &[],
        made_before: &[],
        finds: Finds::Nothing,
    },
    Check {
        name: "node_name_chars",
        severity: Severity::Error,
        prerequisites: &[],
        made_before: &[],
        finds: Finds::Node(Among::All, &[Rule::NodeByte]),
    },
    Check {
        name: "node_name_format",
        severity: Severity::Error,
        prerequisites: &[2],
        made_before: &[2],
        finds: Finds::Node(Among::WithUnit, &[Rule::SecondAt]),
    },
    Check {
        name: "property_name_chars",
        severity: Severity::Error,
        prerequisites: &[],
        made_before: &[],
        finds: Finds::Properties(PropertyRule::Byte),
    },
    Check {
        name: "name_is_string",
        severity: Severity::Error,
        prerequisites: &[],
        made_before: &[],
        finds: Finds::Node(Among::With(b"name"), &[Rule::IsString(b"name")]),
    },
    Check {
        name: "name_properties",
        severity: Severity::Error,
        prerequisites: &[5],
        made_before: &[5],
        finds: Finds::Node(Among::With(b"name"), &[Rule::NameProperty]),
    },
    Check {
        name: "node_name_vs_property_name",
        severity: Severity::Warning,
        prerequisites: &[2],
        made_before: &[2],
        finds: Finds::Node(Among::All, &[Rule::NameTwice]),
    },
    Check {
        name: "duplicate_label",
        severity: Severity::Error,
        prerequisites: &[],
        made_before: &[],
        finds: Finds::Nothing,
    },
    Check {
        name: "explicit_phandles",
        severity: Severity::Error,
        prerequisites: &[],
        made_before: &[],
        finds: Finds::Links(
            Among::WithEither(b"phandle", b"linux,phandle"),
            &[
                LinkRule::Phandle(b"phandle"),
                LinkRule::Phandle(b"linux,phandle"),
                LinkRule::PhandlesDiffer,
                LinkRule::PhandleTwice,
            ],
        ),
    },
    Check {
        name: "phandle_references",
        severity: Severity::Error,
        prerequisites: &[0, 9],
        made_before: &[0, 9],
        finds: Finds::Nothing,
    },
];

static PART_1: [Check; PART] = [
    Check {
        name: "path_references",
        severity: Severity::Error,
        prerequisites: &[0],
        made_before: &[0],
        finds: Finds::Nothing,
    },
    Check {
        name: "omit_unused_nodes",
        severity: Severity::Error,
        prerequisites: &[10, 11],
        made_before: &[0, 9, 10, 11],
        finds: Finds::Nothing,
    },
    Check {
        name: "address_cells_is_cell",
        severity: Severity::Warning,
        prerequisites: &[],
        made_before: &[],
        finds: Finds::Node(
            Among::With(b"#address-cells"),
            &[Rule::IsCell(b"#address-cells")],
        ),
    },
    Check {
        name: "size_cells_is_cell",
        severity: Severity::Warning,
        prerequisites: &[],
        made_before: &[],
        finds: Finds::Node(Among::With(b"#size-cells"), &[Rule::IsCell(b"#size-cells")]),
    },
    Check {
        name: "device_type_is_string",
        severity: Severity::Warning,
        prerequisites: &[],
        made_before: &[],
        finds: Finds::Node(
            Among::With(b"device_type"),
            &[Rule::IsString(b"device_type")],
        ),
    },
    Check {
        name: "model_is_string",
        severity: Severity::Warning,
        prerequisites: &[],
        made_before: &[],
        finds: Finds::Node(Among::With(b"model"), &[Rule::IsString(b"model")]),
    },
    Check {
        name: "status_is_string",
        severity: Severity::Warning,
        prerequisites: &[],
        made_before: &[],
        finds: Finds::Node(Among::With(b"status"), &[Rule::IsString(b"status")]),
    },
    Check {
        name: "label_is_string",
        severity: Severity::Warning,
        prerequisites: &[],
        made_before: &[],
        finds: Finds::Node(Among::With(b"label"), &[Rule::IsString(b"label")]),
    },
    Check {
        name: "compatible_is_string_list",
        severity: Severity::Warning,
        prerequisites: &[],
        made_before: &[],
        finds: Finds::Node(
            Among::With(b"compatible"),
            &[Rule::IsStringList(b"compatible")],
        ),
    },
    Check {
        name: "names_is_string_list",
        severity: Severity::Warning,
        prerequisites: &[],
        made_before: &[],
        finds: Finds::Properties(PropertyRule::Names),
    },
    Check {
        name: "property_name_chars_strict",
        severity: Severity::Off,
        prerequisites: &[],
        made_before: &[],
        finds: Finds::Properties(PropertyRule::StrictByte),
    },
];

static PART_2: [Check; PART] = [
    Check {
        name: "node_name_chars_strict",
        severity: Severity::Off,
        prerequisites: &[],
        made_before: &[],
        finds: Finds::Node(Among::All, &[Rule::StrictNodeByte]),
    },
    Check {
        name: "addr_size_cells",
        severity: Severity::Warning,
        prerequisites: &[13, 14],
        made_before: &[13, 14],
        finds: Finds::Nothing,
    },
    Check {
        name: "reg_format",
        severity: Severity::Warning,
        prerequisites: &[23],
        made_before: &[13, 14, 23],
        finds: Finds::Node(Among::With(b"reg"), &[Rule::Reg]),
    },
    Check {
        name: "ranges_format",
        severity: Severity::Warning,
        prerequisites: &[23],
        made_before: &[13, 14, 23],
        finds: Finds::Node(
            Among::With(b"ranges"),
            &[Rule::Ranges(b"ranges"), Rule::RangesSize(b"ranges")],
        ),
    },
    Check {
        name: "dma_ranges_format",
        severity: Severity::Warning,
        prerequisites: &[23],
        made_before: &[13, 14, 23],
        finds: Finds::Node(
            Among::With(b"dma-ranges"),
            &[Rule::Ranges(b"dma-ranges"), Rule::RangesSize(b"dma-ranges")],
        ),
    },
    Check {
        name: "unit_address_vs_reg",
        severity: Severity::Warning,
        prerequisites: &[],
        made_before: &[],
        finds: Finds::Node(Among::All, &[Rule::Unit]),
    },
    Check {
        name: "pci_bridge",
        severity: Severity::Warning,
        prerequisites: &[15, 23],
        made_before: &[15, 13, 14, 23],
        finds: Finds::Node(
            Among::With(b"device_type"),
            &[
                Rule::PciName,
                Rule::NoRanges,
                Rule::BridgeAddress(Bus::Pci),
                Rule::BridgeSize(Bus::Pci),
                Rule::TwoCells,
                Rule::RangeOrder,
                Rule::RangeEnd,
            ],
        ),
    },
    Check {
        name: "simple_bus_bridge",
        severity: Severity::Warning,
        prerequisites: &[23, 19],
        made_before: &[13, 14, 23, 19],
        finds: Finds::Nothing,
    },
    Check {
        name: "unit_address_format",
        severity: Severity::Warning,
        prerequisites: &[3, 28, 29],
        made_before: &[2, 3, 15, 13, 14, 23, 28, 19, 29],
        finds: Finds::Node(Among::WithUnit, &[Rule::LeadingHex, Rule::LeadingZero]),
    },
    Check {
        name: "pci_device_reg",
        severity: Severity::Warning,
        prerequisites: &[24, 28],
        made_before: &[13, 14, 23, 24, 15, 28],
        finds: Finds::Node(
            Among::Below(Bus::Pci),
            &[
                Rule::LaterCells,
                Rule::PciSpace,
                Rule::PciRegister,
                Rule::PciUnit,
            ],
        ),
    },
    Check {
        name: "pci_device_bus_num",
        severity: Severity::Warning,
        prerequisites: &[24, 28],
        made_before: &[13, 14, 23, 24, 15, 28],
        finds: Finds::Node(Among::Below(Bus::Pci), &[Rule::PciBus]),
    },
];

static PART_3: [Check; PART] = [
    Check {
        name: "simple_bus_reg",
        severity: Severity::Warning,
        prerequisites: &[24, 29],
        made_before: &[13, 14, 23, 24, 19, 29],
        finds: Finds::Node(Among::Below(Bus::Simple), &[Rule::SimpleAddress]),
    },
    Check {
        name: "i2c_bus_bridge",
        severity: Severity::Warning,
        prerequisites: &[23],
        made_before: &[13, 14, 23],
        finds: Finds::Node(
            Among::Parents,
            &[Rule::BridgeAddress(Bus::I2c), Rule::BridgeSize(Bus::I2c)],
        ),
    },
    Check {
        name: "i2c_bus_reg",
        severity: Severity::Warning,
        prerequisites: &[24, 34],
        made_before: &[13, 14, 23, 24, 34],
        finds: Finds::Node(Among::Below(Bus::I2c), &[Rule::I2cAddress, Rule::I2cBits]),
    },
    Check {
        name: "spi_bus_bridge",
        severity: Severity::Warning,
        prerequisites: &[23],
        made_before: &[13, 14, 23],
        finds: Finds::Node(
            Among::Parents,
            &[
                Rule::SpiName,
                Rule::BridgeAddress(Bus::Spi),
                Rule::BridgeSize(Bus::Spi),
            ],
        ),
    },
    Check {
        name: "spi_bus_reg",
        severity: Severity::Warning,
        prerequisites: &[24, 36],
        made_before: &[13, 14, 23, 24, 36],
        finds: Finds::Node(Among::Below(Bus::Spi), &[Rule::SpiAddress]),
    },
    Check {
        name: "avoid_default_addr_size",
        severity: Severity::Warning,
        prerequisites: &[23],
        made_before: &[13, 14, 23],
        finds: Finds::Node(
            Among::WithEither(b"reg", b"ranges"),
            &[Rule::DefaultAddress, Rule::DefaultSize],
        ),
    },
    Check {
        name: "avoid_unnecessary_addr_size",
        severity: Severity::Warning,
        prerequisites: &[38],
        made_before: &[13, 14, 23, 38],
        finds: Finds::Node(Among::With(b"#address-cells"), &[Rule::Unnecessary]),
    },
    Check {
        name: "unique_unit_address",
        severity: Severity::Warning,
        prerequisites: &[38],
        made_before: &[13, 14, 23, 38],
        finds: Finds::Units(Counted::All),
    },
    Check {
        name: "unique_unit_address_if_enabled",
        severity: Severity::Off,
        prerequisites: &[38],
        made_before: &[13, 14, 23, 38],
        finds: Finds::Units(Counted::Enabled),
    },
    Check {
        name: "obsolete_chosen_interrupt_controller",
        severity: Severity::Warning,
        prerequisites: &[],
        made_before: &[],
        finds: Finds::Node(Among::Named(b""), &[Rule::ObsoleteController]),
    },
    Check {
        name: "chosen_node_is_root",
        severity: Severity::Warning,
        prerequisites: &[],
        made_before: &[],
        finds: Finds::Node(Among::Named(b"chosen"), &[Rule::ChosenPlace]),
    },
];

pub fn part_0() -> &'static [Check]
    ensures { map check_data result.now ≡ take 11 (drop 0 checks) }
{
    &PART_0
}

pub fn part_1() -> &'static [Check]
    ensures { map check_data result.now ≡ take 11 (drop 11 checks) }
{
    &PART_1
}

pub fn part_2() -> &'static [Check]
    ensures { map check_data result.now ≡ take 11 (drop 22 checks) }
{
    &PART_2
}

pub fn part_3() -> &'static [Check]
    ensures { map check_data result.now ≡ take 11 (drop 33 checks) }
{
    &PART_3
}
