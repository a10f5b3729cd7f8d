//! The properties whose values hold phandles, as a table: plans, the links of Linux and whoever looks at a value read this one.
ghost use Rattle.std.specs.Prelude.{◌≡◌, map};
ghost use Rattle.std.specs.Option.{option_map};
ghost use Rattle.dt_tree.specs.PhandleProperties.Table.{is_for, is_read, phandle_properties, row_of};
ghost use Rattle.dt_tree.specs.PhandleProperties.View.{asker_data, link_data, listing_data, pattern_data, readers_data, row_data};

/// Which properties a row is for.
#[derive(Clone, Copy, Debug)]
pub enum Pattern {
    /// The one of this name.
    Exactly(&'static [u8]),
    /// Each whose name ends so.
    Ending(&'static [u8]),
    /// Each whose name ends in the first, but not in the second.
    EndingBut(&'static [u8], &'static [u8]),
}

/// What a property's value lists (Devicetree Specification v0.4, sections 2.3.3, 2.4 and 2.5).
#[derive(Clone, Copy, Debug)]
pub enum Listing {
    /// Phandles, each with as many cells behind it as the property of this name of its node says.
    Counted(&'static [u8]),
    /// The same, where entries may be left empty.
    Sparse(&'static [u8]),
    /// Phandles alone.
    Bare,
    /// One phandle.
    Single,
    /// One phandle: the other end of a graph's edge.
    Endpoint,
    /// Entries of four cells, the second of which is a phandle.
    Mapped,
    /// Interrupts that name their controllers.
    Controllers,
    /// Interrupts of the node's interrupt parent.
    Lines,
}

/// Whether Linux makes a link of what a property names.
#[derive(Clone, Copy, Debug)]
pub enum Link {
    /// Never.
    Unlinked,
    /// Always.
    Needed,
    /// Where links are strict (`fw_devlink.strict=1`).
    Optional,
}

/// Who reads a row beside the links of Linux.
#[derive(Clone, Copy, Debug)]
pub enum Readers {
    /// Plans, and whoever looks at values.
    PlansToo,
    /// Whoever looks at values.
    ValuesAlone,
    /// Nobody.
    Nobody,
}

/// Who asks for a property's row.
#[derive(Clone, Copy, Debug)]
pub enum Asker {
    /// A plan, which wants a device's suppliers.
    Plan,
    /// Whoever looks at a value.
    Values,
    /// The links of Linux.
    Links,
}

/// A row of the table.
#[derive(Clone, Copy, Debug)]
pub struct Row {
    pattern: Pattern,
    listing: Listing,
    readers: Readers,
    link: Link,
}

impl Pattern {
    // Whether a row with this pattern is for the property of this name.
    fn is_for(&self, name: &[u8]) -> bool
        ensures { result ≡ is_for name.now (pattern_data self.now) }
    {
        match self {
            Pattern::Exactly(word) => name == *word,
            Pattern::Ending(end) => name.ends_with(*end),
            Pattern::EndingBut(end, other) => name.ends_with(*end) && !name.ends_with(*other),
        }
    }
}

impl Row {
    // Whether the asker reads the row.
    fn is_read(&self, asker: Asker) -> bool
        ensures { result ≡ is_read (asker_data asker) (readers_data self.now.readers) (link_data self.now.link) }
    {
        match asker {
            Asker::Plan => matches!(self.readers, Readers::PlansToo),
            Asker::Values => !matches!(self.readers, Readers::Nobody),
            Asker::Links => !matches!(self.link, Link::Unlinked),
        }
    }

    /// The row of the property of this name that the asker reads, or None where its value holds no phandle for that one.
    pub fn of(asker: Asker, name: &[u8]) -> Option<Row>
        ensures { option_map row_data result ≡ row_of (asker_data asker) name.now }
    {
        for row in phandle_properties() {
            if row.is_read(asker) && row.pattern.is_for(name) {
                return Some(*row);
            }
        }
        None
    }

    /// What the property lists.
    pub fn listing(&self) -> Listing
        ensures { listing_data result ≡ (row_data self.now).listing }
    {
        self.listing
    }

    /// Whether Linux makes a link of it.
    pub fn link(&self) -> Link
        ensures { link_data result ≡ (row_data self.now).link }
    {
        self.link
    }
}

fn phandle_properties() -> &'static [Row]
    ensures { map row_data result.now ≡ phandle_properties }
{
    &PHANDLE_PROPERTIES
}

static PHANDLE_PROPERTIES: [Row; 55] = [
    Row {
        pattern: Pattern::Exactly(b"clocks"),
        listing: Listing::Counted(b"#clock-cells"),
        readers: Readers::PlansToo,
        link: Link::Needed,
    },
    Row {
        pattern: Pattern::Exactly(b"assigned-clocks"),
        listing: Listing::Counted(b"#clock-cells"),
        readers: Readers::ValuesAlone,
        link: Link::Unlinked,
    },
    Row {
        pattern: Pattern::Exactly(b"assigned-clock-parents"),
        listing: Listing::Sparse(b"#clock-cells"),
        readers: Readers::ValuesAlone,
        link: Link::Needed,
    },
    Row {
        pattern: Pattern::Exactly(b"resets"),
        listing: Listing::Counted(b"#reset-cells"),
        readers: Readers::PlansToo,
        link: Link::Needed,
    },
    Row {
        pattern: Pattern::Exactly(b"phys"),
        listing: Listing::Counted(b"#phy-cells"),
        readers: Readers::PlansToo,
        link: Link::Needed,
    },
    Row {
        pattern: Pattern::Exactly(b"dmas"),
        listing: Listing::Counted(b"#dma-cells"),
        readers: Readers::PlansToo,
        link: Link::Optional,
    },
    Row {
        pattern: Pattern::Exactly(b"pwms"),
        listing: Listing::Counted(b"#pwm-cells"),
        readers: Readers::PlansToo,
        link: Link::Needed,
    },
    Row {
        pattern: Pattern::Exactly(b"power-domains"),
        listing: Listing::Counted(b"#power-domain-cells"),
        readers: Readers::PlansToo,
        link: Link::Needed,
    },
    Row {
        pattern: Pattern::Exactly(b"iommus"),
        listing: Listing::Counted(b"#iommu-cells"),
        readers: Readers::PlansToo,
        link: Link::Needed,
    },
    Row {
        pattern: Pattern::Exactly(b"iommu-map"),
        listing: Listing::Mapped,
        readers: Readers::ValuesAlone,
        link: Link::Optional,
    },
    Row {
        pattern: Pattern::Exactly(b"msi-map"),
        listing: Listing::Mapped,
        readers: Readers::ValuesAlone,
        link: Link::Unlinked,
    },
    Row {
        pattern: Pattern::Exactly(b"msi-parent"),
        listing: Listing::Counted(b"#msi-cells"),
        readers: Readers::ValuesAlone,
        link: Link::Unlinked,
    },
    Row {
        pattern: Pattern::Exactly(b"interconnects"),
        listing: Listing::Counted(b"#interconnect-cells"),
        readers: Readers::ValuesAlone,
        link: Link::Needed,
    },
    Row {
        pattern: Pattern::Exactly(b"mboxes"),
        listing: Listing::Counted(b"#mbox-cells"),
        readers: Readers::ValuesAlone,
        link: Link::Needed,
    },
    Row {
        pattern: Pattern::Exactly(b"io-channels"),
        listing: Listing::Counted(b"#io-channel-cells"),
        readers: Readers::ValuesAlone,
        link: Link::Needed,
    },
    Row {
        pattern: Pattern::Exactly(b"hwlocks"),
        listing: Listing::Counted(b"#hwlock-cells"),
        readers: Readers::ValuesAlone,
        link: Link::Needed,
    },
    Row {
        pattern: Pattern::Exactly(b"thermal-sensors"),
        listing: Listing::Counted(b"#thermal-sensor-cells"),
        readers: Readers::ValuesAlone,
        link: Link::Unlinked,
    },
    Row {
        pattern: Pattern::Exactly(b"cooling-device"),
        listing: Listing::Counted(b"#cooling-cells"),
        readers: Readers::ValuesAlone,
        link: Link::Unlinked,
    },
    Row {
        pattern: Pattern::Exactly(b"sound-dai"),
        listing: Listing::Counted(b"#sound-dai-cells"),
        readers: Readers::ValuesAlone,
        link: Link::Unlinked,
    },
    Row {
        pattern: Pattern::Exactly(b"mux-controls"),
        listing: Listing::Counted(b"#mux-control-cells"),
        readers: Readers::ValuesAlone,
        link: Link::Unlinked,
    },
    Row {
        pattern: Pattern::Exactly(b"nvmem-cells"),
        listing: Listing::Counted(b"#nvmem-cell-cells"),
        readers: Readers::ValuesAlone,
        link: Link::Unlinked,
    },
    Row {
        pattern: Pattern::Exactly(b"nvmem-cells"),
        listing: Listing::Bare,
        readers: Readers::Nobody,
        link: Link::Needed,
    },
    Row {
        pattern: Pattern::Exactly(b"interrupts-extended"),
        listing: Listing::Controllers,
        readers: Readers::PlansToo,
        link: Link::Needed,
    },
    Row {
        pattern: Pattern::Exactly(b"interrupt-parent"),
        listing: Listing::Single,
        readers: Readers::PlansToo,
        link: Link::Needed,
    },
    Row {
        pattern: Pattern::Exactly(b"interrupts"),
        listing: Listing::Lines,
        readers: Readers::Nobody,
        link: Link::Needed,
    },
    Row {
        pattern: Pattern::Exactly(b"gpios"),
        listing: Listing::Counted(b"#gpio-cells"),
        readers: Readers::ValuesAlone,
        link: Link::Needed,
    },
    Row {
        pattern: Pattern::Exactly(b"gpio"),
        listing: Listing::Counted(b"#gpio-cells"),
        readers: Readers::ValuesAlone,
        link: Link::Needed,
    },
    Row {
        pattern: Pattern::Ending(b"-gpio"),
        listing: Listing::Counted(b"#gpio-cells"),
        readers: Readers::PlansToo,
        link: Link::Needed,
    },
    Row {
        pattern: Pattern::EndingBut(b"-gpios", b"nr-gpios"),
        listing: Listing::Counted(b"#gpio-cells"),
        readers: Readers::PlansToo,
        link: Link::Unlinked,
    },
    Row {
        pattern: Pattern::EndingBut(b"-gpios", b",nr-gpios"),
        listing: Listing::Counted(b"#gpio-cells"),
        readers: Readers::Nobody,
        link: Link::Needed,
    },
    Row {
        pattern: Pattern::Ending(b"-supply"),
        listing: Listing::Single,
        readers: Readers::PlansToo,
        link: Link::Needed,
    },
    Row {
        pattern: Pattern::Exactly(b"pinctrl-0"),
        listing: Listing::Bare,
        readers: Readers::PlansToo,
        link: Link::Needed,
    },
    Row {
        pattern: Pattern::Exactly(b"pinctrl-1"),
        listing: Listing::Bare,
        readers: Readers::PlansToo,
        link: Link::Needed,
    },
    Row {
        pattern: Pattern::Exactly(b"pinctrl-2"),
        listing: Listing::Bare,
        readers: Readers::PlansToo,
        link: Link::Needed,
    },
    Row {
        pattern: Pattern::Exactly(b"pinctrl-3"),
        listing: Listing::Bare,
        readers: Readers::PlansToo,
        link: Link::Needed,
    },
    Row {
        pattern: Pattern::Exactly(b"pinctrl-4"),
        listing: Listing::Bare,
        readers: Readers::PlansToo,
        link: Link::Needed,
    },
    Row {
        pattern: Pattern::Exactly(b"pinctrl-5"),
        listing: Listing::Bare,
        readers: Readers::PlansToo,
        link: Link::Needed,
    },
    Row {
        pattern: Pattern::Exactly(b"pinctrl-6"),
        listing: Listing::Bare,
        readers: Readers::PlansToo,
        link: Link::Needed,
    },
    Row {
        pattern: Pattern::Exactly(b"pinctrl-7"),
        listing: Listing::Bare,
        readers: Readers::PlansToo,
        link: Link::Needed,
    },
    Row {
        pattern: Pattern::Exactly(b"pinctrl-8"),
        listing: Listing::Bare,
        readers: Readers::PlansToo,
        link: Link::Needed,
    },
    Row {
        pattern: Pattern::Exactly(b"pinctrl-9"),
        listing: Listing::Bare,
        readers: Readers::PlansToo,
        link: Link::Unlinked,
    },
    Row {
        pattern: Pattern::Exactly(b"remote-endpoint"),
        listing: Listing::Endpoint,
        readers: Readers::ValuesAlone,
        link: Link::Unlinked,
    },
    Row {
        pattern: Pattern::Exactly(b"extcon"),
        listing: Listing::Bare,
        readers: Readers::ValuesAlone,
        link: Link::Needed,
    },
    Row {
        pattern: Pattern::Exactly(b"wakeup-parent"),
        listing: Listing::Bare,
        readers: Readers::ValuesAlone,
        link: Link::Needed,
    },
    Row {
        pattern: Pattern::Exactly(b"leds"),
        listing: Listing::Bare,
        readers: Readers::ValuesAlone,
        link: Link::Needed,
    },
    Row {
        pattern: Pattern::Exactly(b"backlight"),
        listing: Listing::Bare,
        readers: Readers::ValuesAlone,
        link: Link::Needed,
    },
    Row {
        pattern: Pattern::Exactly(b"panel"),
        listing: Listing::Bare,
        readers: Readers::ValuesAlone,
        link: Link::Needed,
    },
    Row {
        pattern: Pattern::Exactly(b"memory-region"),
        listing: Listing::Bare,
        readers: Readers::ValuesAlone,
        link: Link::Unlinked,
    },
    Row {
        pattern: Pattern::Exactly(b"phy-handle"),
        listing: Listing::Bare,
        readers: Readers::ValuesAlone,
        link: Link::Unlinked,
    },
    Row {
        pattern: Pattern::Exactly(b"cpu"),
        listing: Listing::Bare,
        readers: Readers::ValuesAlone,
        link: Link::Unlinked,
    },
    Row {
        pattern: Pattern::Exactly(b"cpu-idle-states"),
        listing: Listing::Bare,
        readers: Readers::ValuesAlone,
        link: Link::Unlinked,
    },
    Row {
        pattern: Pattern::Exactly(b"next-level-cache"),
        listing: Listing::Bare,
        readers: Readers::ValuesAlone,
        link: Link::Unlinked,
    },
    Row {
        pattern: Pattern::Exactly(b"operating-points-v2"),
        listing: Listing::Bare,
        readers: Readers::ValuesAlone,
        link: Link::Unlinked,
    },
    Row {
        pattern: Pattern::Exactly(b"interrupt-affinity"),
        listing: Listing::Bare,
        readers: Readers::ValuesAlone,
        link: Link::Unlinked,
    },
    Row {
        pattern: Pattern::Exactly(b"trip"),
        listing: Listing::Bare,
        readers: Readers::ValuesAlone,
        link: Link::Unlinked,
    },
];
