//! The second half but for its end: `/chosen` and the lists of phandles.

ghost use Rattle.std.specs.Prelude.{◌≡◌, map, take, drop};
ghost use Rattle.dtman_check.specs.Table.Checks.{checks};
ghost use Rattle.dtman_check.specs.Table.CheckView.{check_data};

use crate::table::check::{Among, Check, Finds, Listed, Severity};
use crate::table::rule::Rule;
use crate::table::table::PART;
use dt_check::links::Listing;

static PART_4: [Check; PART] = [
    Check {
        name: "chosen_node_bootargs",
        severity: Severity::Warning,
        prerequisites: &[],
        made_before: &[],
        finds: Finds::Node(Among::Named(b"chosen"), &[Rule::Bootargs]),
    },
    Check {
        name: "chosen_node_stdout_path",
        severity: Severity::Warning,
        prerequisites: &[],
        made_before: &[],
        finds: Finds::Node(Among::Named(b"chosen"), &[Rule::OldStdout, Rule::Stdout]),
    },
    Check {
        name: "clocks_is_cell",
        severity: Severity::Warning,
        prerequisites: &[],
        made_before: &[],
        finds: Finds::Node(
            Among::With(b"#clock-cells"),
            &[Rule::IsCell(b"#clock-cells")],
        ),
    },
    Check {
        name: "clocks_property",
        severity: Severity::Warning,
        prerequisites: &[46, 10],
        made_before: &[46, 0, 9, 10],
        finds: Finds::Lists(
            Listed::Named(b"clocks"),
            Listing {
                cells: b"#clock-cells",
                optional: false,
            },
        ),
    },
    Check {
        name: "cooling_device_is_cell",
        severity: Severity::Warning,
        prerequisites: &[],
        made_before: &[],
        finds: Finds::Node(
            Among::With(b"#cooling-cells"),
            &[Rule::IsCell(b"#cooling-cells")],
        ),
    },
    Check {
        name: "cooling_device_property",
        severity: Severity::Warning,
        prerequisites: &[48, 10],
        made_before: &[48, 0, 9, 10],
        finds: Finds::Lists(
            Listed::Named(b"cooling-device"),
            Listing {
                cells: b"#cooling-cells",
                optional: false,
            },
        ),
    },
    Check {
        name: "dmas_is_cell",
        severity: Severity::Warning,
        prerequisites: &[],
        made_before: &[],
        finds: Finds::Node(Among::With(b"#dma-cells"), &[Rule::IsCell(b"#dma-cells")]),
    },
    Check {
        name: "dmas_property",
        severity: Severity::Warning,
        prerequisites: &[50, 10],
        made_before: &[50, 0, 9, 10],
        finds: Finds::Lists(
            Listed::Named(b"dmas"),
            Listing {
                cells: b"#dma-cells",
                optional: false,
            },
        ),
    },
    Check {
        name: "hwlocks_is_cell",
        severity: Severity::Warning,
        prerequisites: &[],
        made_before: &[],
        finds: Finds::Node(
            Among::With(b"#hwlock-cells"),
            &[Rule::IsCell(b"#hwlock-cells")],
        ),
    },
    Check {
        name: "hwlocks_property",
        severity: Severity::Warning,
        prerequisites: &[52, 10],
        made_before: &[52, 0, 9, 10],
        finds: Finds::Lists(
            Listed::Named(b"hwlocks"),
            Listing {
                cells: b"#hwlock-cells",
                optional: false,
            },
        ),
    },
    Check {
        name: "interrupts_extended_is_cell",
        severity: Severity::Warning,
        prerequisites: &[],
        made_before: &[],
        finds: Finds::Node(
            Among::With(b"#interrupt-cells"),
            &[Rule::IsCell(b"#interrupt-cells")],
        ),
    },
];

static PART_5: [Check; PART] = [
    Check {
        name: "interrupts_extended_property",
        severity: Severity::Warning,
        prerequisites: &[54, 10],
        made_before: &[54, 0, 9, 10],
        finds: Finds::Lists(
            Listed::Named(b"interrupts-extended"),
            Listing {
                cells: b"#interrupt-cells",
                optional: false,
            },
        ),
    },
    Check {
        name: "io_channels_is_cell",
        severity: Severity::Warning,
        prerequisites: &[],
        made_before: &[],
        finds: Finds::Node(
            Among::With(b"#io-channel-cells"),
            &[Rule::IsCell(b"#io-channel-cells")],
        ),
    },
    Check {
        name: "io_channels_property",
        severity: Severity::Warning,
        prerequisites: &[56, 10],
        made_before: &[56, 0, 9, 10],
        finds: Finds::Lists(
            Listed::Named(b"io-channels"),
            Listing {
                cells: b"#io-channel-cells",
                optional: false,
            },
        ),
    },
    Check {
        name: "iommus_is_cell",
        severity: Severity::Warning,
        prerequisites: &[],
        made_before: &[],
        finds: Finds::Node(
            Among::With(b"#iommu-cells"),
            &[Rule::IsCell(b"#iommu-cells")],
        ),
    },
    Check {
        name: "iommus_property",
        severity: Severity::Warning,
        prerequisites: &[58, 10],
        made_before: &[58, 0, 9, 10],
        finds: Finds::Lists(
            Listed::Named(b"iommus"),
            Listing {
                cells: b"#iommu-cells",
                optional: false,
            },
        ),
    },
    Check {
        name: "mboxes_is_cell",
        severity: Severity::Warning,
        prerequisites: &[],
        made_before: &[],
        finds: Finds::Node(Among::With(b"#mbox-cells"), &[Rule::IsCell(b"#mbox-cells")]),
    },
    Check {
        name: "mboxes_property",
        severity: Severity::Warning,
        prerequisites: &[60, 10],
        made_before: &[60, 0, 9, 10],
        finds: Finds::Lists(
            Listed::Named(b"mboxes"),
            Listing {
                cells: b"#mbox-cells",
                optional: false,
            },
        ),
    },
    Check {
        name: "msi_parent_is_cell",
        severity: Severity::Warning,
        prerequisites: &[],
        made_before: &[],
        finds: Finds::Node(Among::With(b"#msi-cells"), &[Rule::IsCell(b"#msi-cells")]),
    },
    Check {
        name: "msi_parent_property",
        severity: Severity::Warning,
        prerequisites: &[62, 10],
        made_before: &[62, 0, 9, 10],
        finds: Finds::Lists(
            Listed::Named(b"msi-parent"),
            Listing {
                cells: b"#msi-cells",
                optional: true,
            },
        ),
    },
    Check {
        name: "mux_controls_is_cell",
        severity: Severity::Warning,
        prerequisites: &[],
        made_before: &[],
        finds: Finds::Node(
            Among::With(b"#mux-control-cells"),
            &[Rule::IsCell(b"#mux-control-cells")],
        ),
    },
    Check {
        name: "mux_controls_property",
        severity: Severity::Warning,
        prerequisites: &[64, 10],
        made_before: &[64, 0, 9, 10],
        finds: Finds::Lists(
            Listed::Named(b"mux-controls"),
            Listing {
                cells: b"#mux-control-cells",
                optional: false,
            },
        ),
    },
];

static PART_6: [Check; PART] = [
    Check {
        name: "phys_is_cell",
        severity: Severity::Warning,
        prerequisites: &[],
        made_before: &[],
        finds: Finds::Node(Among::With(b"#phy-cells"), &[Rule::IsCell(b"#phy-cells")]),
    },
    Check {
        name: "phys_property",
        severity: Severity::Warning,
        prerequisites: &[66, 10],
        made_before: &[66, 0, 9, 10],
        finds: Finds::Lists(
            Listed::Named(b"phys"),
            Listing {
                cells: b"#phy-cells",
                optional: false,
            },
        ),
    },
    Check {
        name: "power_domains_is_cell",
        severity: Severity::Warning,
        prerequisites: &[],
        made_before: &[],
        finds: Finds::Node(
            Among::With(b"#power-domain-cells"),
            &[Rule::IsCell(b"#power-domain-cells")],
        ),
    },
    Check {
        name: "power_domains_property",
        severity: Severity::Warning,
        prerequisites: &[68, 10],
        made_before: &[68, 0, 9, 10],
        finds: Finds::Lists(
            Listed::Named(b"power-domains"),
            Listing {
                cells: b"#power-domain-cells",
                optional: false,
            },
        ),
    },
    Check {
        name: "pwms_is_cell",
        severity: Severity::Warning,
        prerequisites: &[],
        made_before: &[],
        finds: Finds::Node(Among::With(b"#pwm-cells"), &[Rule::IsCell(b"#pwm-cells")]),
    },
    Check {
        name: "pwms_property",
        severity: Severity::Warning,
        prerequisites: &[70, 10],
        made_before: &[70, 0, 9, 10],
        finds: Finds::Lists(
            Listed::Named(b"pwms"),
            Listing {
                cells: b"#pwm-cells",
                optional: false,
            },
        ),
    },
    Check {
        name: "resets_is_cell",
        severity: Severity::Warning,
        prerequisites: &[],
        made_before: &[],
        finds: Finds::Node(
            Among::With(b"#reset-cells"),
            &[Rule::IsCell(b"#reset-cells")],
        ),
    },
    Check {
        name: "resets_property",
        severity: Severity::Warning,
        prerequisites: &[72, 10],
        made_before: &[72, 0, 9, 10],
        finds: Finds::Lists(
            Listed::Named(b"resets"),
            Listing {
                cells: b"#reset-cells",
                optional: false,
            },
        ),
    },
    Check {
        name: "sound_dai_is_cell",
        severity: Severity::Warning,
        prerequisites: &[],
        made_before: &[],
        finds: Finds::Node(
            Among::With(b"#sound-dai-cells"),
            &[Rule::IsCell(b"#sound-dai-cells")],
        ),
    },
    Check {
        name: "sound_dai_property",
        severity: Severity::Warning,
        prerequisites: &[74, 10],
        made_before: &[74, 0, 9, 10],
        finds: Finds::Lists(
            Listed::Named(b"sound-dai"),
            Listing {
                cells: b"#sound-dai-cells",
                optional: false,
            },
        ),
    },
    Check {
        name: "thermal_sensors_is_cell",
        severity: Severity::Warning,
        prerequisites: &[],
        made_before: &[],
        finds: Finds::Node(
            Among::With(b"#thermal-sensor-cells"),
            &[Rule::IsCell(b"#thermal-sensor-cells")],
        ),
    },
];

pub fn part_4() -> &'static [Check]
    ensures { map check_data result.now ≡ take 11 (drop 44 checks) }
{
    &PART_4
}

pub fn part_5() -> &'static [Check]
    ensures { map check_data result.now ≡ take 11 (drop 55 checks) }
{
    &PART_5
}

pub fn part_6() -> &'static [Check]
    ensures { map check_data result.now ≡ take 11 (drop 66 checks) }
{
    &PART_6
}
