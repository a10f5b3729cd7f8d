//! Driver files out of what Linux says of its modules.

use bus_drivers::modules::{Kernel, Origin, Unsaid, lacks_builtin, module_drivers};
use std::alloc::Global;
use std::hash::RandomState;
use std::process::Abort;

// Two files of an installation, the driver file, and the aliases that it leaves out.
struct Row {
    name: &'static str,
    aliases: &'static str,
    builtin: &'static str,
    drivers: &'static str,
    unsaid: &'static str,
}

const ROWS: &[Row] = &[
    Row {
        name: "nothing",
        aliases: "",
        builtin: "",
        drivers: "",
        unsaid: "",
    },
    // Each string twice in the file, once with what follows it; another bus's alias is passed over.
    Row {
        name: "one-module",
        aliases: "# Aliases extracted from modules themselves.\nalias of:N*T*Cti,tmp75C* lm75\nalias of:N*T*Cti,tmp75 lm75\nalias i2c:tmp75 lm75\nalias of:N*T*Cnational,lm75* lm75\n",
        builtin: "",
        drivers: "driver lm75 ti,tmp75 national,lm75\n",
        unsaid: "",
    },
    Row {
        name: "order-of-first-sight",
        aliases: "alias of:N*T*Ca,one b\nalias of:N*T*Ca,two a\nalias of:N*T*Ca,three b\n",
        builtin: "c.alias=of:N*T*Ca,four\0c.license=GPL\0a.alias=of:N*T*Ca,five\0a.alias=platform:a\0",
        drivers: "driver b a,one a,three\ndriver a a,two a,five\ndriver c a,four\n",
        unsaid: "",
    },
    // A `C` at the end of a string is one.
    Row {
        name: "ends-with-c",
        aliases: "alias of:N*T*Cfoo,BARCC* b\n",
        builtin: "",
        drivers: "driver b foo,BARC\n",
        unsaid: "",
    },
    Row {
        name: "wildcards",
        aliases: "alias of:N*T*Cfoo,*barC* b\nalias of:Nn*T*Cfoo,bar b\nalias of:N*T* b\nalias of:N*T*C - \n",
        builtin: "b.alias=of:N*T*Ca,[0-9]\0",
        drivers: "",
        unsaid: "line 1 of:N*T*Cfoo,*barC*\nline 2 of:Nn*T*Cfoo,bar\nline 3 of:N*T*\nline 4 of:N*T*C\nentry 1 of:N*T*Ca,[0-9]\n",
    },
];

fn add_unsaid(rt: &impl Abort, text: &mut Vec<u8>, alloc: Global, unsaid: &Unsaid<'_>) {
    let word = match unsaid.origin {
        Origin::Aliases => "line",
        Origin::Builtin => "entry",
    };
    let front = format!(in alloc; "{word} {} ", unsaid.number).expect(rt, "room");
    text.extend_from_slice(front.as_bytes()).expect(rt, "room");
    text.extend_from_slice(unsaid.alias).expect(rt, "room");
    text.extend_from_slice(b"\n").expect(rt, "room");
}

fn holds(rt: &impl Abort, alloc: Global, hasher: RandomState, row: &Row) {
    let made = module_drivers(
        alloc,
        hasher,
        row.aliases.as_bytes(),
        row.builtin.as_bytes(),
        Kernel::Tables(&[]),
    );
    let made = made.expect(rt, "a driver file");
    assert!(rt;
        made.text.as_slice() == row.drivers.as_bytes(),
        "{}",
        row.name
    );
    let mut text = Vec::new(alloc);
    for unsaid in &made.unsaid {
        add_unsaid(rt, &mut text, alloc, unsaid);
    }
    assert!(rt; text.as_slice() == row.unsaid.as_bytes(), "{}", row.name);
}

// A table that has a new string is a driver with all of its strings; one that has none is left out, as is a name twice.
#[test]
fn tables(rt: HostRuntime) {
    let hasher = RandomState::new(&rt).expect(&rt, "a seed");
    let strings = [b"a,one".as_slice(), b"a,two", b"a,three"];
    let known = Vec::from_slice(rt.alloc(), &strings[..1]).expect(&rt, "room");
    let first = Vec::from_slice(rt.alloc(), &strings[1..]).expect(&rt, "room");
    let again = Vec::from_slice(rt.alloc(), &strings[..2]).expect(&rt, "room");
    let tables = [known, first, again];
    let made = module_drivers(
        rt.alloc(),
        hasher,
        b"alias of:N*T*Ca,one m\n",
        b"",
        Kernel::Tables(&tables),
    );
    let made = made.expect(&rt, "a driver file");
    assert!(rt; made.text.as_slice() == b"driver m a,one\ndriver a,two a,two a,three\n".as_slice());
}

#[test]
fn no_kernel(rt: HostRuntime) {
    let hasher = RandomState::new(&rt).expect(&rt, "a seed");
    let aliases = b"alias of:N*T*Ca,one m\n";
    let made = module_drivers(rt.alloc(), hasher, aliases, b"", Kernel::NotLookedAt);
    let made = made.expect(&rt, "a driver file");
    assert!(rt; lacks_builtin(made.text.as_slice()));
    let said = b"# drivers that are built into the kernel weren't looked at\ndriver m a,one\n";
    assert!(rt; made.text.as_slice() == said.as_slice());
}

#[test]
fn modules(rt: HostRuntime) {
    let hasher = RandomState::new(&rt).expect(&rt, "a seed");
    for row in ROWS {
        holds(&rt, rt.alloc(), hasher, row);
    }
}
