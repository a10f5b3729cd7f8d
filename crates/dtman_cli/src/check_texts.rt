//! What each check of `check` means, and what mends what it finds.

/// What is said of a check.
#[derive(Clone, Copy)]
pub struct CheckText {
    /// Its name, or the end of the names of several.
    name: &'static str,
    /// What it finds.
    pub meaning: &'static str,
    /// What to do about it.
    pub remedy: &'static str,
}

/// Checks with a text of their own.
const TEXTS: &[CheckText] = &[
    CheckText {
        name: "name_is_string",
        meaning: "`name` is no string",
        remedy: "leave `name` away: the node's name says it",
    },
    CheckText {
        name: "name_properties",
        meaning: "`name` is another one than the node has in front of its unit address",
        remedy: "leave `name` away: the node's name says it",
    },
    CheckText {
        name: "names_is_string_list",
        meaning: "a property that ends in `-names` is no list of strings",
        remedy: "write strings, in the order of the entries that they name",
    },
    CheckText {
        name: "compatible_is_string_list",
        meaning: "`compatible` is no list of strings",
        remedy: "write strings, the most specific one first",
    },
    CheckText {
        name: "node_name_chars",
        meaning: "a node's name has a character that can't stand in one",
        remedy: "use letters, digits and , . _ + - in front of one @ and the unit address",
    },
    CheckText {
        name: "node_name_chars_strict",
        meaning: "a node's name has a character that isn't recommended",
        remedy: "use letters, digits and -",
    },
    CheckText {
        name: "node_name_format",
        meaning: "a node's name has more than one @",
        remedy: "keep the @ in front of the unit address alone",
    },
    CheckText {
        name: "node_name_vs_property_name",
        meaning: "a node has the name of a property beside it",
        remedy: "give one of them another name",
    },
    CheckText {
        name: "property_name_chars",
        meaning: "a property's name has a character that can't stand in one",
        remedy: "use letters, digits and , . _ + ? # -",
    },
    CheckText {
        name: "property_name_chars_strict",
        meaning: "a property's name has a character that isn't recommended",
        remedy: "use letters, digits, , and -, and # in front",
    },
    CheckText {
        name: "reg_format",
        meaning: "`reg` isn't whole entries of as many cells as the node above says",
        remedy: "give each entry the #address-cells and #size-cells of the node above (2 and 1 where it has none)",
    },
    CheckText {
        name: "dma_ranges_format",
        meaning: "`dma-ranges` isn't whole entries of an address here, one above and a size",
        remedy: "give each entry the #address-cells of this node and of the one above, and the #size-cells of this one",
    },
    CheckText {
        name: "ranges_format",
        meaning: "`ranges` isn't whole entries of an address here, one above and a size",
        remedy: "give each entry the #address-cells of this node and of the one above, and the #size-cells of this one",
    },
    CheckText {
        name: "unit_address_vs_reg",
        meaning: "a node has a unit address and no `reg` or `ranges`, or one of these and no unit address",
        remedy: "name the node NAME@ADDRESS by its first address exactly where it has one",
    },
    CheckText {
        name: "unit_address_format",
        meaning: "a unit address begins with 0x or with zeros",
        remedy: "write the address in hex, without 0x and without zeros in front",
    },
    CheckText {
        name: "pci_bridge",
        meaning: "a bridge of PCI lacks what the binding wants: its name, ranges, bus-range, 3 and 2 cells",
        remedy: "name it pci or pcie, with #address-cells = <3>, #size-cells = <2> and its ranges",
    },
    CheckText {
        name: "pci_device_reg",
        meaning: "the first address of a device of PCI is none of its configuration space",
        remedy: "begin `reg` with the device's bus, device and function, and the unit address with the same",
    },
    CheckText {
        name: "pci_device_bus_num",
        meaning: "a device of PCI is on a bus that its bridge's bus-range hasn't",
        remedy: "mend `reg`, or the bridge's bus-range",
    },
    CheckText {
        name: "simple_bus_reg",
        meaning: "the unit address of a device on a simple bus isn't its first address",
        remedy: "name the node by the first address of `reg` or `ranges`, in hex",
    },
    CheckText {
        name: "i2c_bus_bridge",
        meaning: "an I2C bus has other cells than the binding wants",
        remedy: "give it #address-cells = <1> and #size-cells = <0>",
    },
    CheckText {
        name: "i2c_bus_reg",
        meaning: "the address of a device on an I2C bus has more than 7 bits (10 with its flag), or isn't its unit address",
        remedy: "write the address without the bit for reading, and name the node by it",
    },
    CheckText {
        name: "spi_bus_bridge",
        meaning: "an SPI bus has other cells than the binding wants, or another name than spi",
        remedy: "give it #address-cells = <1> and #size-cells = <0>, or 0 and 0 with `spi-slave`, and name it spi",
    },
    CheckText {
        name: "spi_bus_reg",
        meaning: "the unit address of a device on an SPI bus isn't the number of its chip select",
        remedy: "name the node by the first cell of `reg`, in hex",
    },
    CheckText {
        name: "avoid_default_addr_size",
        meaning: "a node's addresses go by numbers of cells that the node above doesn't say",
        remedy: "write #address-cells and #size-cells into the node above",
    },
    CheckText {
        name: "avoid_unnecessary_addr_size",
        meaning: "a node says numbers of cells for nodes that have no addresses",
        remedy: "leave #address-cells and #size-cells away",
    },
    CheckText {
        name: "unique_unit_address",
        meaning: "two nodes side by side have one unit address",
        remedy: "mend the address of one, or make one node of them",
    },
    CheckText {
        name: "unique_unit_address_if_enabled",
        meaning: "two nodes side by side that are both in use have one unit address",
        remedy: "disable one of them (status = \"disabled\"), or mend its address",
    },
    CheckText {
        name: "obsolete_chosen_interrupt_controller",
        meaning: "/chosen has `interrupt-controller`, which is no longer used",
        remedy: "leave it away: `interrupt-parent` says it",
    },
    CheckText {
        name: "chosen_node_is_root",
        meaning: "a node `chosen` stands elsewhere than below the root",
        remedy: "move it below the root",
    },
    CheckText {
        name: "chosen_node_bootargs",
        meaning: "`bootargs` of /chosen is no string",
        remedy: "write one string",
    },
    CheckText {
        name: "chosen_node_stdout_path",
        meaning: "`stdout-path` of /chosen is no string, or `linux,stdout-path` stands there",
        remedy: "write stdout-path = \"ALIAS-OR-PATH:OPTIONS\"",
    },
    CheckText {
        name: "explicit_phandles",
        meaning: "a `phandle` is no number of a node, or two nodes have one",
        remedy: "leave it away: the compiler gives each node that is referred to its own",
    },
    CheckText {
        name: "interrupts_property",
        meaning: "`interrupts` isn't whole specifiers of the controller that the way up leads to, or there is none",
        remedy: "name the controller by `interrupt-parent`, and give each interrupt its #interrupt-cells",
    },
    CheckText {
        name: "interrupt_provider",
        meaning: "a node that others name as their interrupts' parent isn't one",
        remedy: "give it #interrupt-cells and #address-cells, and `interrupt-controller` or `interrupt-map`",
    },
    CheckText {
        name: "gpios_property",
        meaning: "a list of GPIO lines names a node that is no controller, or has other cells than that wants",
        remedy: "write &CONTROLLER and as many cells as its #gpio-cells says",
    },
    CheckText {
        name: "deprecated_gpio_property",
        meaning: "a property ends in `-gpio`, the old form of `-gpios`",
        remedy: "name it `-gpios`",
    },
    CheckText {
        name: "alias_paths",
        meaning: "an alias is no path of a node that is there, or its name has other characters than a-z, 0-9 and -",
        remedy: "write NAME = &LABEL, the name in small letters",
    },
    CheckText {
        name: "graph_child_address",
        meaning: "a graph's node with one child, at 0, says numbers of cells that it needn't",
        remedy: "leave #address-cells, #size-cells and the unit address away",
    },
    CheckText {
        name: "graph_port",
        meaning: "a port of a graph has another name than `port`, or its unit address isn't its `reg`",
        remedy: "name it port or port@N with reg = <N>",
    },
    CheckText {
        name: "graph_endpoint",
        meaning: "an endpoint has another name, no `remote-endpoint`, or the other end doesn't lead back",
        remedy: "name it endpoint or endpoint@N, and have both ends name each other",
    },
    CheckText {
        name: "lost_ranges",
        meaning: "a bus has no `ranges`, so that none of its devices has an address for the processor",
        remedy: "write `ranges;`, or the entries that translate its addresses",
    },
    CheckText {
        name: "unknown_property",
        meaning: "a property is spelled nearly as one that boards have at such a node (`--known FILE`)",
        remedy: "spell it as told, or add the board to the set (`--learn`)",
    },
    CheckText {
        name: "always_fail",
        meaning: "it finds each node: a check of checks themselves",
        remedy: "leave it off",
    },
];

/// Checks of which what they find can't be: who made the tree refused it, or others rest on them.
const NEVER: &[&str] = &[
    "duplicate_node_names",
    "duplicate_property_names",
    "duplicate_label",
    "phandle_references",
    "path_references",
    "omit_unused_nodes",
    "addr_size_cells",
    "simple_bus_bridge",
    "graph_nodes",
];

const NOTHING: CheckText = CheckText {
    name: "",
    meaning: "it finds nothing by itself: what it is about is refused when the source is read, or other checks tell it",
    remedy: "nothing",
};

/// Checks of one form, by the end of their names.
const FORMS: &[CheckText] = &[
    CheckText {
        name: "_is_string",
        meaning: "the property isn't one string with a zero byte at its end",
        remedy: "write one string in quotes",
    },
    CheckText {
        name: "_is_cell",
        meaning: "the number of cells (`#..-cells`) isn't one cell",
        remedy: "write one number in < >",
    },
    CheckText {
        name: "_property",
        meaning: "a list names a node that is no such supplier, or has other cells than that wants",
        remedy: "write &SUPPLIER and as many cells as its #..-cells says",
    },
];

fn own_text(name: &str) -> Option<CheckText> {
    for text in TEXTS {
        if text.name == name {
            return Some(*text);
        }
    }
    None
}

fn form_text(name: &str) -> Option<CheckText> {
    for text in FORMS {
        if name.ends_with(text.name) {
            return Some(*text);
        }
    }
    None
}

/// What is said of the check of this name.
pub fn check_text(name: &str) -> CheckText {
    match own_text(name) {
        Some(text) => text,
        None if NEVER.iter().any(|other| *other == name) => NOTHING,
        None => form_text(name).unwrap_or(NOTHING),
    }
}
