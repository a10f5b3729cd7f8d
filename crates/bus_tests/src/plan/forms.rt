//! What the properties that name suppliers hold.

use bus_drivers::Form;
use std::process::Abort;

/// A property's name, whether the table has it, the name of the property that counts its cells, and the lengths that its value may
/// have among 0, 4, 6 and 8.
struct Row {
    name: &'static str,
    is_supplier: bool,
    cells: Option<&'static str>,
    lengths: &'static [usize],
}

const CELLS: &[usize] = &[0, 4, 8];

const ROWS: &[Row] = &[
    Row {
        name: "clocks",
        is_supplier: true,
        cells: Some("#clock-cells"),
        lengths: CELLS,
    },
    Row {
        name: "interrupts-extended",
        is_supplier: true,
        cells: Some("#interrupt-cells"),
        lengths: CELLS,
    },
    Row {
        name: "cs-gpios",
        is_supplier: true,
        cells: Some("#gpio-cells"),
        lengths: CELLS,
    },
    Row {
        name: "pinctrl-3",
        is_supplier: true,
        cells: None,
        lengths: CELLS,
    },
    Row {
        name: "vdd-supply",
        is_supplier: true,
        cells: None,
        lengths: &[4],
    },
    Row {
        name: "snps,nr-gpios",
        is_supplier: false,
        cells: None,
        lengths: &[],
    },
    Row {
        name: "clock",
        is_supplier: false,
        cells: None,
        lengths: &[],
    },
];

fn cells_of(form: Form) -> Option<&'static [u8]> {
    match form {
        Form::Counted(cells) => Some(cells),
        Form::Bare => None,
        Form::Single => None,
    }
}

fn has_lengths(rt: &impl Abort, row: &Row, form: Form) {
    for length in [0, 4, 6, 8] {
        let wanted = row.lengths.contains(&length);
        assert_eq!(rt; form.is_length(length), wanted, "{}", row.name);
    }
}

fn is_formed(rt: &impl Abort, row: &Row) {
    let Some(form) = Form::of(row.name.as_bytes()) else {
        assert!(rt; !row.is_supplier, "{}", row.name);
        return;
    };
    assert!(rt; row.is_supplier, "{}", row.name);
    has_lengths(rt, row, form);
    match (cells_of(form), row.cells) {
        (Some(cells), Some(wanted)) => assert_eq!(rt; cells, wanted.as_bytes()),
        (None, None) => {}
        _ => panic!(rt; "other cells"),
    }
}

#[test]
fn supplier_forms(rt: HostRuntime) {
    for row in ROWS {
        is_formed(&rt, row);
    }
}
