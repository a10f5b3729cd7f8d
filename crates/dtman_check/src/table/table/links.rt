//! The rest of dtc's: lines of GPIO controllers, interrupts, aliases, graphs.

ghost use Rattle.std.specs.Prelude.{◌≡◌, map, take, drop};
ghost use Rattle.dtman_check.specs.Table.Checks.{checks};
ghost use Rattle.dtman_check.specs.Table.CheckView.{check_data};

use crate::table::check::{Among, Check, Finds, Listed, Severity};
use crate::table::rule::{LinkRule, PropertyRule, Rule};
use crate::table::table::PART;
use dt_check::Graph;
use dt_check::links::Listing;

static PART_7: [Check; PART] = [
    Check {
        name: "thermal_sensors_property",
        severity: Severity::Warning,
        prerequisites: &[76, 10],
        made_before: &[76, 0, 9, 10],
        finds: Finds::Lists(
            Listed::Named(b"thermal-sensors"),
            Listing {
                cells: b"#thermal-sensor-cells",
                optional: false,
            },
        ),
    },
    Check {
        name: "deprecated_gpio_property",
        severity: Severity::Off,
        prerequisites: &[],
        made_before: &[],
        finds: Finds::Properties(PropertyRule::Gpio),
    },
    Check {
        name: "gpios_property",
        severity: Severity::Warning,
        prerequisites: &[10],
        made_before: &[0, 9, 10],
        finds: Finds::Lists(
            Listed::Lines,
            Listing {
                cells: b"#gpio-cells",
                optional: false,
            },
        ),
    },
    Check {
        name: "interrupts_property",
        severity: Severity::Warning,
        prerequisites: &[],
        made_before: &[],
        finds: Finds::Links(
            Among::With(b"interrupts"),
            &[
                LinkRule::InterruptLength,
                LinkRule::InterruptWay,
                LinkRule::NoInterruptParent,
                LinkRule::InterruptCells,
            ],
        ),
    },
    Check {
        name: "interrupt_provider",
        severity: Severity::Warning,
        prerequisites: &[],
        made_before: &[],
        finds: Finds::Node(
            Among::WithEither(b"interrupt-controller", b"interrupt-map"),
            &[Rule::NoInterruptCells, Rule::NoInterruptAddress],
        ),
    },
    Check {
        name: "alias_paths",
        severity: Severity::Warning,
        prerequisites: &[],
        made_before: &[],
        finds: Finds::Aliases,
    },
    Check {
        name: "graph_nodes",
        severity: Severity::Warning,
        prerequisites: &[],
        made_before: &[],
        finds: Finds::Nothing,
    },
    Check {
        name: "graph_child_address",
        severity: Severity::Warning,
        prerequisites: &[83],
        made_before: &[83],
        finds: Finds::Links(Among::Parents, &[LinkRule::SingleChild]),
    },
    Check {
        name: "graph_port",
        severity: Severity::Warning,
        prerequisites: &[83],
        made_before: &[83],
        finds: Finds::Links(
            Among::Part(Graph::Port),
            &[
                LinkRule::GraphName(Graph::Port),
                LinkRule::GraphReg(Graph::Port),
                LinkRule::GraphUnit(Graph::Port),
                LinkRule::GraphAddress(Graph::Port),
                LinkRule::GraphSize(Graph::Port),
            ],
        ),
    },
    Check {
        name: "graph_endpoint",
        severity: Severity::Warning,
        prerequisites: &[83],
        made_before: &[83],
        finds: Finds::Links(
            Among::Part(Graph::Endpoint),
            &[
                LinkRule::GraphName(Graph::Endpoint),
                LinkRule::GraphReg(Graph::Endpoint),
                LinkRule::GraphUnit(Graph::Endpoint),
                LinkRule::GraphAddress(Graph::Endpoint),
                LinkRule::GraphSize(Graph::Endpoint),
                LinkRule::NearEnd,
                LinkRule::FarEnd,
                LinkRule::OneWay,
            ],
        ),
    },
    Check {
        name: "always_fail",
        severity: Severity::Off,
        prerequisites: &[],
        made_before: &[],
        finds: Finds::Node(Among::All, &[Rule::Always]),
    },
];

pub fn part_7() -> &'static [Check]
    ensures { map check_data result.now ≡ take 11 (drop 77 checks) }
{
    &PART_7
}
