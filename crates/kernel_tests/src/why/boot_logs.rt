//! Kernel logs as schedules.

use bus_log::{Reason, Unplaced, boot_schedule};
use bus_plan::read_plan;
use std::alloc::Global;
use std::hash::RandomState;
use std::process::Abort;

/// A plan, a log, the schedule, and the names that are left out.
pub struct Row {
    pub name: &'static str,
    pub plan: &'static str,
    pub log: &'static str,
    pub schedule: &'static str,
    pub unplaced: &'static str,
}

const ROWS: &[Row] = &[
    Row {
        name: "nothing",
        plan: "/clk fixed ok\n",
        log: "[    0.000000] Booting Linux on physical CPU 0x0\n",
        schedule: "",
        unplaced: "",
    },
    Row {
        name: "bound-by-path",
        plan: "/soc bus ok\n/soc/clk@0 fixed ok\n",
        log: "[    1.0] bus: 'platform': really_probe: probing driver fixed with device soc:clk@0\n[    1.1] bus: 'platform': really_probe: bound device soc:clk@0 to driver fixed\n",
        schedule: "begin /soc/clk@0\nfinish /soc/clk@0 settled\n",
        unplaced: "",
    },
    // Of two of one name the one whose unit address ends the machine's address.
    Row {
        name: "deferred-by-address",
        plan: "/soc bus ok\n/soc/serial@90000 pl011 ok\n/soc/serial@a0000 pl011 ok\n",
        log: "[    1.0] bus: 'amba': really_probe: probing driver pl011 with device 1c0a0000.serial\n[    1.1] amba 1c0a0000.serial: Driver pl011 requests probe deferral\n",
        schedule: "begin /soc/serial@a0000\nabandon /soc/serial@a0000\n",
        unplaced: "",
    },
    // What a bus makes while it is probed stands behind its end.
    Row {
        name: "within-a-probe",
        plan: "/mfd m ok\n/mfd/gpio@8 g ok\n/mfd/gpio@48 g ok\n",
        log: "really_probe: probing driver m with device mfd\nreally_probe: probing driver g with device g.0.auto\nreally_probe: bound device g.0.auto to driver g\nreally_probe: bound device mfd to driver m\n",
        schedule: "begin /mfd\nfinish /mfd settled\nbegin /mfd/gpio@8\nfinish /mfd/gpio@8 settled\n",
        unplaced: "",
    },
    Row {
        name: "rejected-and-failed",
        plan: "/a x ok\n/b y fail\n",
        log: "really_probe: probing driver x with device a\nx: probe of a rejects match -19\nreally_probe: probing driver y with device b\ny: probe of b failed with error -22\nreally_probe: probing driver z with device alarmtimer.0.auto\n",
        schedule: "begin /a\nabandon /a\nbegin /b\nfinish /b settled\n",
        unplaced: "5 alarmtimer.0.auto\n",
    },
    Row {
        name: "on-i2c-and-spi",
        plan: "/i2c@1 i ok\n/i2c@1/rtc@68 r ok\n/spi@2 s ok\n/spi@2/flash@0 f ok\n",
        log: "really_probe: probing driver r with device 0-0068\nr: probe of 0-0068 failed with error -517\nreally_probe: probing driver f with device spi0.0\nreally_probe: bound device spi0.0 to driver f\n",
        schedule: "begin /i2c@1/rtc@68\nabandon /i2c@1/rtc@68\nbegin /spi@2/flash@0\nfinish /spi@2/flash@0 settled\n",
        unplaced: "",
    },
];

/// Rows of what `initcall_debug` prints, and of drivers that match by more than strings.
const FURTHER: &[Row] = &[
    // A probe's number behind its messages tells nothing new; without them it tells the probe.
    Row {
        name: "returned",
        plan: "/a x ok\n/b y ok\n/c z fail\n/d z ok /c\n",
        log: "really_probe: probing driver x with device a\nreally_probe: bound device a to driver x\nprobe of a returned 0 after 5 usecs\n[    1.2] probe of b returned 517 after 7 usecs\nprobe of b returned 0 after 7 usecs\nprobe of c returned 22 after 1 usecs\nprobe of d returned -517 after 1 usecs\n",
        schedule: "begin /a\nfinish /a settled\nbegin /b\nabandon /b\nbegin /b\nfinish /b settled\nbegin /c\nfinish /c settled\n",
        unplaced: "",
    },
    // The end of a probe that is lost is told by its number.
    Row {
        name: "lost-end",
        plan: "/a x ok\n",
        log: "really_probe: probing driver x with device a\n** 9 printk messages dropped **\nprobe of a returned 19 after 5 usecs\n",
        schedule: "begin /a\nabandon /a\n",
        unplaced: "",
    },
    // A device on a bus returns before the bus whose probe made it.
    Row {
        name: "returned-within",
        plan: "/i2c i ok\n/i2c/rtc@68 r ok /i2c\n/soc - -\n/soc/u u ok\n",
        log: "probe of 0-0068 returned 0 after 5 usecs\nprobe of soc:u returned 0 after 1 usecs\nprobe of i2c returned 0 after 9 usecs\n",
        schedule: "begin /soc/u\nfinish /soc/u settled\nbegin /i2c\nfinish /i2c settled\nbegin /i2c/rtc@68\nfinish /i2c/rtc@68 settled\n",
        unplaced: "",
    },
    // A driver that the plan doesn't know of comes late, for the first string of the device that it probes.
    Row {
        name: "by-a-number-in-a-register",
        plan: "/serial@90000 - -\n/serial@a0000 - -\ncompatible /serial@90000 arm,pl011 arm,primecell\ncompatible /serial@a0000 arm,pl011 arm,primecell\n",
        log: "bus: 'amba': really_probe: probing driver uart-pl011 with device 1c090000.serial\nbus: 'amba': really_probe: bound device 1c090000.serial to driver uart-pl011\nbus: 'amba': really_probe: probing driver uart-pl011 with device 1c0a0000.serial\nbus: 'amba': really_probe: bound device 1c0a0000.serial to driver uart-pl011\n",
        schedule: "driver uart-pl011 arm,pl011\nbegin /serial@90000\nfinish /serial@90000 settled\nbegin /serial@a0000\nfinish /serial@a0000 settled\n",
        unplaced: "",
    },
    // Its name may be taken, have a space, or not be told.
    Row {
        name: "late-names",
        plan: "/a lm75 ok\n/b - -\n/c - -\n/d - -\n/e - -\ncompatible /b ti,lm75b\ncompatible /c x/y z\ncompatible /d z x/y\n",
        log: "probing driver lm75 with device b\nreally_probe: probing driver lm75 with device b\nreally_probe: bound device b to driver lm75\nreally_probe: probing driver My Driver with device c\nprobe of d returned 0 after 1 usecs\nreally_probe: probing driver e with device e\n",
        schedule: "driver lm75-ti,lm75b ti,lm75b\nbegin /b\nfinish /b settled\ndriver My-Driver x/y\nbegin /c\nbegin /d\nfinish /d settled\nbegin /e\n",
        unplaced: "",
    },
    Row {
        name: "late-by-its-string",
        plan: "/a - -\n/b - -\ncompatible /a x/y\ncompatible /b x/y\n",
        log: "probe of a returned 0 after 1 usecs\nprobe of b returned 0 after 1 usecs\n",
        schedule: "driver x-y x/y\nbegin /a\nfinish /a settled\nbegin /b\nfinish /b settled\n",
        unplaced: "",
    },
];

/// Rows of probes that fail, of those that are told of devices that have settled or are switched off, and of those that end before
/// their driver has seen the device.
const ENDS: &[Row] = &[
    // wifi-pwrseq of a raspi3b: its driver answered -5. The bus would take it to be bound.
    Row {
        name: "failed",
        plan: "/wifi-pwrseq pwrseq_simple ok\n",
        log: "[   32.591744] bus: 'platform': really_probe: probing driver pwrseq_simple with device wifi-pwrseq\n[   32.651306] pwrseq_simple: probe of wifi-pwrseq failed with error -5\n[   32.651549] probe of wifi-pwrseq returned 5 after 59819 usecs\n",
        schedule: "begin /wifi-pwrseq\n# fail /wifi-pwrseq\nabandon /wifi-pwrseq\n",
        unplaced: "",
    },
    // The bus has no way back: what is probed again stays bound.
    Row {
        name: "probed-again",
        plan: "/a x ok\n/b y ok\n",
        log: "probe of a returned 0 after 1 usecs\nreally_probe: probing driver x with device a\nreally_probe: bound device a to driver x\nprobe of b returned 22 after 1 usecs\nprobe of b returned 0 after 1 usecs\nprobe of b returned 0 after 1 usecs\n",
        schedule: "begin /a\nfinish /a settled\nbegin /b\n# fail /b\nabandon /b\nbegin /b\nfinish /b settled\n",
        unplaced: "",
    },
    // A zcu102's serial port, whose pins are controlled by what the firmware switched off.
    Row {
        name: "turned-back",
        plan: "/axi simple-pm-bus ok\n/axi/serial@ff000000 xuartps ok\n",
        log: "[    3.785988] bus: 'platform': really_probe: probing driver xuartps with device ff000000.serial\n[    3.786952] probe of ff000000.serial returned -517 after 0 usecs\n[    3.791699] platform ff000000.serial: Added to deferred list\n",
        schedule: "begin /axi/serial@ff000000\nabandon /axi/serial@ff000000\n",
        unplaced: "",
    },
    Row {
        name: "switched-off",
        plan: "/a ! -\n/b x ok\n",
        log: "really_probe: probing driver x with device a\nreally_probe: bound device a to driver x\nprobe of b returned 0 after 1 usecs\n",
        schedule: "begin /b\nfinish /b settled\n",
        unplaced: "1 a is off\n",
    },
];

fn add_unplaced(rt: &impl Abort, alloc: Global, text: &mut Vec<u8>, unplaced: &Unplaced<'_>) {
    let front = format!(in alloc; "{} ", unplaced.line).expect(rt, "room");
    text.extend_from_slice(front.as_bytes()).expect(rt, "room");
    text.extend_from_slice(unplaced.name).expect(rt, "room");
    let back = match unplaced.reason {
        Reason::Unknown => b"\n".as_slice(),
        Reason::SwitchedOff => b" is off\n".as_slice(),
    };
    text.extend_from_slice(back).expect(rt, "room");
}

/// Whether a row gives what it says.
pub fn holds(rt: &impl Abort, alloc: Global, hasher: RandomState, row: &Row) {
    let plan = read_plan(alloc, hasher, row.plan.as_bytes()).expect(rt, "a plan");
    let traced = boot_schedule(alloc, hasher, &plan, row.log.as_bytes()).expect(rt, "room");
    assert!(rt;
        traced.schedule.as_slice() == row.schedule.as_bytes(),
        "{}",
        row.name
    );
    let mut text = Vec::new(alloc);
    for unplaced in &traced.unplaced {
        add_unplaced(rt, alloc, &mut text, unplaced);
    }
    assert!(rt; text.as_slice() == row.unplaced.as_bytes(), "{}", row.name);
}

#[test]
fn boot_logs(rt: HostRuntime) {
    let hasher = RandomState::new(&rt).expect(&rt, "a seed");
    for row in ROWS {
        holds(&rt, rt.alloc(), hasher, row);
    }
}

#[test]
fn further_boot_logs(rt: HostRuntime) {
    let hasher = RandomState::new(&rt).expect(&rt, "a seed");
    for row in FURTHER {
        holds(&rt, rt.alloc(), hasher, row);
    }
}

#[test]
fn ends_of_probes(rt: HostRuntime) {
    let hasher = RandomState::new(&rt).expect(&rt, "a seed");
    for row in ENDS {
        holds(&rt, rt.alloc(), hasher, row);
    }
}
