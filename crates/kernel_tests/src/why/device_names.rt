//! Names of devices in kernel logs: each is of the node that a booted kernel told in /sys (`of_node`), or that the sources that are
//! named say.

use super::boot_logs::{Row, holds};
use std::hash::RandomState;

const NAMES: &[Row] = &[
    // A raspi3b's bus has 7e000000 at 3f000000: what of the address its window leaves is in the unit address.
    Row {
        name: "a-window",
        plan: "/soc simple-bus ok\n/soc/mailbox@7e00b840 vchiq ok\n/soc/mailbox@7e00b880 bcm2835-mbox ok\n/soc/serial@7e201000 pl011 ok\n/soc/serial@7e201400 pl011 ok\n",
        log: "bus: 'platform': really_probe: probing driver bcm2835-mbox with device 3f00b880.mailbox\nbus: 'platform': really_probe: bound device 3f00b880.mailbox to driver bcm2835-mbox\nbus: 'amba': really_probe: probing driver uart-pl011 with device 3f201000.serial\nbus: 'amba': really_probe: bound device 3f201000.serial to driver uart-pl011\n",
        schedule: "begin /soc/mailbox@7e00b880\nfinish /soc/mailbox@7e00b880 settled\nbegin /soc/serial@7e201000\nfinish /soc/serial@7e201000 settled\n",
        unplaced: "",
    },
    // vexpress-a15: a chip select and an offset at 18000000 and behind it.
    Row {
        name: "windows-of-chip-selects",
        plan: "/bus@8000000 b ok\n/bus@8000000/motherboard-bus@8000000 b ok\n/bus@8000000/motherboard-bus@8000000/flash@0 f ok\n/bus@8000000/motherboard-bus@8000000/ethernet@202000000 e ok\n/bus@8000000/motherboard-bus@8000000/usb@203000000 u ok\n",
        log: "bus: 'platform': really_probe: probing driver e with device 1a000000.ethernet\nbus: 'platform': really_probe: bound device 1a000000.ethernet to driver e\nbus: 'platform': really_probe: probing driver u with device 1b000000.usb\nbus: 'platform': really_probe: bound device 1b000000.usb to driver u\nbus: 'platform': really_probe: probing driver f with device 8000000.flash\nbus: 'platform': really_probe: bound device 8000000.flash to driver f\n",
        schedule: "begin /bus@8000000/motherboard-bus@8000000/ethernet@202000000\nfinish /bus@8000000/motherboard-bus@8000000/ethernet@202000000 settled\nbegin /bus@8000000/motherboard-bus@8000000/usb@203000000\nfinish /bus@8000000/motherboard-bus@8000000/usb@203000000 settled\nbegin /bus@8000000/motherboard-bus@8000000/flash@0\nfinish /bus@8000000/motherboard-bus@8000000/flash@0 settled\n",
        unplaced: "",
    },
    // The interconnects of an am335x map 0 to where they stand (am33xx-l4.dtsi).
    Row {
        name: "buses-at-their-own-addresses",
        plan: "/ocp/interconnect@44c00000/segment@200000/target-module@9000/serial@0 omap8250 ok\n/ocp/interconnect@48000000/segment@0/target-module@22000/serial@0 omap8250 ok\n/ocp/interconnect@48000000/segment@0/target-module@24000/serial@0 omap8250 ok\n",
        log: "bus: 'platform': really_probe: probing driver omap8250 with device 48022000.serial\nbus: 'platform': really_probe: bound device 48022000.serial to driver omap8250\nbus: 'platform': really_probe: probing driver omap8250 with device 44e09000.serial\nbus: 'platform': really_probe: bound device 44e09000.serial to driver omap8250\nbus: 'platform': really_probe: probing driver omap8250 with device 48024000.serial\nbus: 'platform': really_probe: bound device 48024000.serial to driver omap8250\n",
        schedule: "begin /ocp/interconnect@48000000/segment@0/target-module@22000/serial@0\nfinish /ocp/interconnect@48000000/segment@0/target-module@22000/serial@0 settled\nbegin /ocp/interconnect@44c00000/segment@200000/target-module@9000/serial@0\nfinish /ocp/interconnect@44c00000/segment@200000/target-module@9000/serial@0 settled\nbegin /ocp/interconnect@48000000/segment@0/target-module@24000/serial@0\nfinish /ocp/interconnect@48000000/segment@0/target-module@24000/serial@0 settled\n",
        unplaced: "",
    },
    // QEMU's own device has the name of one of the board's, and its address of none; and where two would do, none is taken.
    Row {
        name: "not-of-the-plan",
        plan: "/virtio_mmio@a000000 v ok\n/m/timer@1000 t ok\n/n/timer@1000 t ok\n",
        log: "bus: 'platform': really_probe: probing driver virtio-mmio with device a003e00.virtio_mmio\nbus: 'platform': really_probe: bound device a003e00.virtio_mmio to driver virtio-mmio\nbus: 'platform': really_probe: probing driver t with device 80001000.timer\nbus: 'platform': really_probe: bound device 80001000.timer to driver t\n",
        schedule: "",
        unplaced: "1 a003e00.virtio_mmio\n3 80001000.timer\n",
    },
    Row {
        name: "without-a-unit-address",
        plan: "/soc s ok\n/soc/timer t ok\n/soc/anatop@20c8000 a ok\n/soc/anatop@20c8000/regulator-1p1 r ok\n",
        log: "bus: 'platform': really_probe: probing driver t with device 2098000.timer\nbus: 'platform': really_probe: bound device 2098000.timer to driver t\nbus: 'platform': really_probe: probing driver anatop_regulator with device 20c8000.anatop:regulator-1p1\nbus: 'platform': really_probe: bound device 20c8000.anatop:regulator-1p1 to driver anatop_regulator\n",
        schedule: "begin /soc/timer\nfinish /soc/timer settled\nbegin /soc/anatop@20c8000/regulator-1p1\nfinish /soc/anatop@20c8000/regulator-1p1 settled\n",
        unplaced: "",
    },
    // A cubieboard's i2c-1: which of two buses has it is told by the probe that made it.
    Row {
        name: "a-numbered-bus",
        plan: "/soc/i2c@1c2ac00 mv64xxx ok\n/soc/i2c@1c2ac00/pmic@34 - -\n/soc/i2c@1c2b000 mv64xxx ok\n/soc/i2c@1c2b000/pmic@34 - -\ncompatible /soc/i2c@1c2ac00/pmic@34 x-powers,axp209\ncompatible /soc/i2c@1c2b000/pmic@34 x-powers,axp209\n",
        log: "bus: 'platform': really_probe: probing driver mv64xxx_i2c with device 1c2b000.i2c\ndevice: 'i2c-2': device_add\nbus: 'platform': really_probe: bound device 1c2b000.i2c to driver mv64xxx_i2c\nbus: 'platform': really_probe: probing driver mv64xxx_i2c with device 1c2ac00.i2c\ndevice: 'i2c-1': device_add\nbus: 'i2c': add device i2c-1\nbus: 'platform': really_probe: bound device 1c2ac00.i2c to driver mv64xxx_i2c\nbus: 'i2c': really_probe: probing driver axp20x-i2c with device 1-0034\naxp20x-i2c: probe of 1-0034 failed with error -110\n",
        schedule: "begin /soc/i2c@1c2b000\nfinish /soc/i2c@1c2b000 settled\nbegin /soc/i2c@1c2ac00\nfinish /soc/i2c@1c2ac00 settled\ndriver axp20x-i2c x-powers,axp209\nbegin /soc/i2c@1c2ac00/pmic@34\n# fail /soc/i2c@1c2ac00/pmic@34\nabandon /soc/i2c@1c2ac00/pmic@34\n",
        unplaced: "",
    },
    // Without the messages of core.c: a bus probes its devices, and the number of one is that of the next.
    Row {
        name: "within-a-bus",
        plan: "/spi@1 s ok\n/spi@1/flash@0 f ok\n/spi@1/adc@1 a ok\n/spi@2 s ok\n/spi@2/flash@0 f ok\n/spi@2/adc@1 a ok\n",
        log: "bus: 'platform': really_probe: probing driver s with device spi@2\nbus: 'spi': really_probe: probing driver f with device spi0.0\nbus: 'spi': really_probe: bound device spi0.0 to driver f\nbus: 'platform': really_probe: bound device spi@2 to driver s\nbus: 'platform': really_probe: probing driver s with device spi@1\nbus: 'platform': really_probe: bound device spi@1 to driver s\nbus: 'spi': really_probe: probing driver a with device spi0.1\nbus: 'spi': really_probe: bound device spi0.1 to driver a\n",
        schedule: "begin /spi@2\nfinish /spi@2 settled\nbegin /spi@2/flash@0\nfinish /spi@2/flash@0 settled\nbegin /spi@1\nfinish /spi@1 settled\nbegin /spi@2/adc@1\nfinish /spi@2/adc@1 settled\n",
        unplaced: "",
    },
    // Of two at one address of two buses that one for which the driver is.
    Row {
        name: "by-its-driver",
        plan: "/i2c@1 i ok\n/i2c@1/rtc@68 rtc_ds1307 ok\n/i2c@2 i ok\n/i2c@2/imu@68 mpu6050 ok\n",
        log: "bus: 'i2c': really_probe: probing driver rtc-ds1307 with device 5-0068\nbus: 'i2c': really_probe: bound device 5-0068 to driver rtc-ds1307\n",
        schedule: "begin /i2c@1/rtc@68\nfinish /i2c@1/rtc@68 settled\n",
        unplaced: "",
    },
    // The ports of a raspi3b: serial0 is given to the one of the chip, and taken away, before the other port has it.
    Row {
        name: "serial-devices",
        plan: "/soc/serial@7e201000 p ok\n/soc/serial@7e201000/bluetooth hci_uart ok\n/soc/serial@7e215040 a ok\n/soc/serial@7e215040/gnss g ok\n",
        log: "bus: 'platform': really_probe: probing driver bcm2835-aux-uart with device 3f215040.serial\ndevice: 'serial0': device_add\nbus: 'serial': add device serial0\nbus: 'serial': remove device serial0\nbus: 'platform': really_probe: bound device 3f215040.serial to driver bcm2835-aux-uart\nbus: 'amba': really_probe: probing driver uart-pl011 with device 3f201000.serial\ndevice: 'serial0': device_add\ndevice: 'serial0-0': device_add\nbus: 'amba': really_probe: bound device 3f201000.serial to driver uart-pl011\nbus: 'serial': really_probe: probing driver hci_uart_bcm with device serial0-0\nbus: 'serial': really_probe: bound device serial0-0 to driver hci_uart_bcm\n",
        schedule: "begin /soc/serial@7e215040\nfinish /soc/serial@7e215040 settled\nbegin /soc/serial@7e201000\nfinish /soc/serial@7e201000 settled\nbegin /soc/serial@7e201000/bluetooth\nfinish /soc/serial@7e201000/bluetooth settled\n",
        unplaced: "",
    },
    Row {
        name: "phys-and-cards",
        plan: "/soc/mdio@1c0b080 m ok\n/soc/mdio@1c0b080/ethernet-phy@1 - -\n/soc/mmc@7e300000 s ok\n/soc/mmc@7e300000/wifi@1 brcmfmac ok\ncompatible /soc/mdio@1c0b080/ethernet-phy@1 ethernet-phy-ieee802.3-c22\n",
        log: "bus: 'mdio_bus': really_probe: probing driver Generic PHY with device 1c0b080.mdio-mii:01\nbus: 'mdio_bus': really_probe: bound device 1c0b080.mdio-mii:01 to driver Generic PHY\nbus: 'sdio': really_probe: probing driver brcmfmac with device mmc1:0001:1\nbus: 'sdio': really_probe: bound device mmc1:0001:1 to driver brcmfmac\n",
        schedule: "driver Generic-PHY ethernet-phy-ieee802.3-c22\nbegin /soc/mdio@1c0b080/ethernet-phy@1\nfinish /soc/mdio@1c0b080/ethernet-phy@1 settled\nbegin /soc/mmc@7e300000/wifi@1\nfinish /soc/mmc@7e300000/wifi@1 settled\n",
        unplaced: "",
    },
    // vexpress-a15's system registers: their driver makes three devices by names of its own, and a fourth that has no node.
    Row {
        name: "parts-of-a-chip",
        plan: "/sysreg@10000 - -\n/sysreg@10000/gpio@8 - -\n/sysreg@10000/gpio@48 - -\ncompatible /sysreg@10000 arm,vexpress-sysreg\ncompatible /sysreg@10000/gpio@8 arm,vexpress-sysreg,sys_led\ncompatible /sysreg@10000/gpio@48 arm,vexpress-sysreg,sys_mci\n",
        log: "bus: 'platform': really_probe: probing driver vexpress-sysreg with device 1c010000.sysreg\nbus: 'platform': really_probe: probing driver basic-mmio-gpio with device basic-mmio-gpio.0.auto\nbus: 'platform': really_probe: bound device basic-mmio-gpio.0.auto to driver basic-mmio-gpio\ndevice: 'basic-mmio-gpio.1.auto': device_add\nbus: 'platform': really_probe: probing driver vexpress-syscfg with device vexpress-syscfg.3.auto\nbus: 'platform': really_probe: bound device vexpress-syscfg.3.auto to driver vexpress-syscfg\nbus: 'platform': really_probe: bound device 1c010000.sysreg to driver vexpress-sysreg\nbus: 'platform': really_probe: probing driver basic-mmio-gpio with device basic-mmio-gpio.1.auto\nbus: 'platform': really_probe: bound device basic-mmio-gpio.1.auto to driver basic-mmio-gpio\n",
        schedule: "driver vexpress-sysreg arm,vexpress-sysreg\nbegin /sysreg@10000\ndriver basic-mmio-gpio arm,vexpress-sysreg,sys_led\nfinish /sysreg@10000 settled\nbegin /sysreg@10000/gpio@8\nfinish /sysreg@10000/gpio@8 settled\ndriver basic-mmio-gpio-arm,vexpress-sysreg,sys_mci arm,vexpress-sysreg,sys_mci\nbegin /sysreg@10000/gpio@48\nfinish /sysreg@10000/gpio@48 settled\n",
        unplaced: "5 vexpress-syscfg.3.auto\n",
    },
    // What shares the node of the device whose driver made it has none of its own.
    Row {
        name: "of-their-makers-node",
        plan: "/soc/usb@7e980000 dwc2 ok\n/soc/usb@7e980000/hub@1 usb ok\n/usb1 u ok\n",
        log: "bus: 'platform': really_probe: probing driver dwc2 with device 3f980000.usb\ndevice: 'usb1': device_add\nbus: 'usb': really_probe: probing driver usb with device usb1\nbus: 'usb': really_probe: probing driver hub with device 1-0:1.0\nbus: 'usb': really_probe: bound device 1-0:1.0 to driver hub\nbus: 'usb': really_probe: bound device usb1 to driver usb\nbus: 'platform': really_probe: probing driver musb-hdrc with device musb-hdrc.1.auto\nbus: 'platform': really_probe: bound device musb-hdrc.1.auto to driver musb-hdrc\nbus: 'platform': really_probe: bound device 3f980000.usb to driver dwc2\n",
        schedule: "begin /soc/usb@7e980000\nfinish /soc/usb@7e980000 settled\n",
        unplaced: "3 usb1\n4 1-0:1.0\n7 musb-hdrc.1.auto\n",
    },
];

#[test]
fn names_of_devices(rt: HostRuntime) {
    let hasher = RandomState::new(&rt).expect(&rt, "a seed");
    for row in NAMES {
        holds(&rt, rt.alloc(), hasher, row);
    }
}
