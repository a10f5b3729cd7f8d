//! A board, written the way that preprocessed kernel sources are.

/// The source of `examples/board.dts`.
pub const BOARD: &[u8] = b"# 1 \"board.dts\"\n\
# 1 \"<built-in>\"\n\
# 1 \"board.dts\"\n\
/dts-v1/;\n\
\n\
/*\n\
\x20* A single-board computer: two clusters, a clock controller, two buses,\n\
\x20* interrupts, pins, regulators and a few devices on them. It is written the\n\
\x20* way that preprocessed kernel sources are.\n\
\x20*/\n\
\n\
# 1 \"include/interrupts.h\" 1\n\
# 12 \"board.dts\" 2\n\
\n\
/memreserve/ 0x80000000 0x00010000;\n\
boot: /memreserve/ 0x9f000000 (16 * 1024 * 1024);\n\
\n\
/ {\n\
\t#address-cells = <2>;\n\
\t#size-cells = <2>;\n\
\tmodel = \"Tern single-board computer\";\n\
\tcompatible = \"tern,board-r2\", \"tern,board\", \"tern,soc\";\n\
\tinterrupt-parent = <&gic>;\n\
\n\
\taliases {\n\
\t\tserial0 = &uart0;\n\
\t\tserial1 = &uart1;\n\
\t\tethernet0 = &mac;\n\
\t\tmmc0 = \"/soc/bus@10000000/mmc@4000\";\n\
\t};\n\
\n\
\tchosen {\n\
\t\tbootargs = \"console=ttyS0,115200 earlycon\\n\";\n\
\t\tstdout-path = \"serial0:115200n8\";\n\
\t};\n\
\n\
\tmemory@80000000 {\n\
\t\tdevice_type = \"memory\";\n\
\t\treg = <0x0 0x80000000 0x0 (512UL << 20)>;\n\
\t};\n\
\n\
\tcpus {\n\
\t\t#address-cells = <1>;\n\
\t\t#size-cells = <0>;\n\
\n\
\t\tcpu0: cpu@0 {\n\
\t\t\tdevice_type = \"cpu\";\n\
\t\t\tcompatible = \"tern,core\";\n\
\t\t\treg = <0>;\n\
\t\t\tclocks = <&ccu 0>;\n\
\t\t\tcpu-supply = <&vdd_cpu>;\n\
\t\t\toperating-points = <1200000 1100000>, <800000 950000>;\n\
\t\t\tnext-level-cache = <&l2>;\n\
\t\t};\n\
\n\
\t\tcpu1: cpu@1 {\n\
\t\t\tdevice_type = \"cpu\";\n\
\t\t\tcompatible = \"tern,core\";\n\
\t\t\treg = <1>;\n\
\t\t\tclocks = <&ccu 0>;\n\
\t\t\tcpu-supply = <&vdd_cpu>;\n\
\t\t\tnext-level-cache = <&l2>;\n\
\t\t};\n\
\n\
\t\tl2: l2-cache {\n\
\t\t\tcompatible = \"cache\";\n\
\t\t\tcache-level = <2>;\n\
\t\t\tcache-size = <(256 * 1024)>;\n\
\t\t};\n\
\t};\n\
\n\
\tclocks {\n\
\t\tosc24m: oscillator: clock-24m {\n\
\t\t\tcompatible = \"fixed-clock\";\n\
\t\t\t#clock-cells = <0>;\n\
\t\t\tclock-frequency = <(24 * 1000 * 1000)>;\n\
\t\t\tclock-output-names = \"osc24m\";\n\
\t\t};\n\
\n\
\t\tosc32k: clock-32k {\n\
\t\t\tcompatible = \"fixed-clock\";\n\
\t\t\t#clock-cells = <0>;\n\
\t\t\tclock-frequency = <32768>;\n\
\t\t};\n\
\t};\n\
\n\
\treserved-memory {\n\
\t\t#address-cells = <2>;\n\
\t\t#size-cells = <2>;\n\
\t\tranges;\n\
\n\
\t\tframebuffer: framebuffer@9e000000 {\n\
\t\t\treg = <0x0 0x9e000000 0x0 (1920 * 1080 * 4 + 0xfff & ~0xfff)>;\n\
\t\t\tno-map;\n\
\t\t};\n\
\t};\n\
\n\
\tsoc: soc {\n\
\t\tcompatible = \"simple-bus\";\n\
\t\t#address-cells = <1>;\n\
\t\t#size-cells = <1>;\n\
\t\tranges = <0x0 0x0 0x0 0x40000000>;\n\
\n\
\t\tgic: interrupt-controller@8000000 {\n\
\t\t\tcompatible = \"arm,gic-400\";\n\
\t\t\tinterrupt-controller;\n\
\t\t\t#interrupt-cells = <3>;\n\
\t\t\treg = <0x08000000 0x1000>,\n\
\t\t\t      <0x08001000 0x2000>;\n\
\t\t\tinterrupts = <1 9 (((1 << (2)) - 1) << 8 | 4)>;\n\
\t\t};\n\
\n\
\t\tccu: clock-controller@9000000 {\n\
\t\t\tcompatible = \"tern,ccu\";\n\
\t\t\treg = <0x09000000 0x400>;\n\
\t\t\tclocks = <&osc24m>, <&osc32k>;\n\
\t\t\tclock-names = \"hosc\", \"losc\";\n\
\t\t\t#clock-cells = <1>;\n\
\t\t\t#reset-cells = <1>;\n\
\t\t};\n\
\n\
\t\tdma: dma-controller@9010000 {\n\
\t\t\tcompatible = \"tern,dma\";\n\
\t\t\treg = <0x09010000 0x1000>;\n\
\t\t\tinterrupts = <0 50 4>;\n\
\t\t\tclocks = <&ccu 17>;\n\
\t\t\tresets = <&ccu 6>;\n\
\t\t\t#dma-cells = <1>;\n\
\t\t};\n\
\n\
\t\tpio: pinctrl@9020000 {\n\
\t\t\tcompatible = \"tern,pinctrl\";\n\
\t\t\treg = <0x09020000 0x400>;\n\
\t\t\tinterrupts = <0 11 4>, <0 17 4>;\n\
\t\t\tgpio-controller;\n\
\t\t\t#gpio-cells = <3>;\n\
\t\t\tinterrupt-controller;\n\
\t\t\t#interrupt-cells = <3>;\n\
\n\
\t\t\tuart0_pins: uart0-pins {\n\
\t\t\t\tpins = \"PF2\", \"PF4\";\n\
\t\t\t\tfunction = \"uart0\";\n\
\t\t\t};\n\
\n\
\t\t\ti2c0_pins: i2c0-pins {\n\
\t\t\t\tpins = \"PH0\", \"PH1\";\n\
\t\t\t\tfunction = \"i2c0\";\n\
\t\t\t\tbias-pull-up;\n\
\t\t\t};\n\
\n\
\t\t\tmmc0_pins: mmc0-pins {\n\
\t\t\t\tpins = \"PF0\", \"PF1\", \"PF3\", \"PF5\";\n\
\t\t\t\tfunction = \"mmc0\";\n\
\t\t\t\tdrive-strength = <30>;\n\
\t\t\t};\n\
\t\t};\n\
\n\
\t\tapb: bus@10000000 {\n\
\t\t\tcompatible = \"simple-bus\";\n\
\t\t\t#address-cells = <1>;\n\
\t\t\t#size-cells = <1>;\n\
\t\t\tranges = <0x0 0x10000000 0x01000000>;\n\
\n\
\t\t\tuart0: serial@0 {\n\
\t\t\t\tcompatible = \"ns16550a\";\n\
\t\t\t\treg = <0x0 0x400>;\n\
\t\t\t\tinterrupts = <0 0 4>;\n\
\t\t\t\treg-shift = <2>;\n\
\t\t\t\treg-io-width = <4>;\n\
\t\t\t\tclocks = <&ccu 62>;\n\
\t\t\t\tresets = <&ccu 46>;\n\
\t\t\t\tdmas = <&dma 6>, <&dma 6>;\n\
\t\t\t\tdma-names = \"rx\", \"tx\";\n\
\t\t\t\tstatus = \"disabled\";\n\
\t\t\t};\n\
\n\
\t\t\tuart1: serial@400 {\n\
\t\t\t\tcompatible = \"ns16550a\";\n\
\t\t\t\treg = <0x400 0x400>;\n\
\t\t\t\tinterrupts = <0 1 4>;\n\
\t\t\t\treg-shift = <2>;\n\
\t\t\t\tclocks = <&ccu 63>;\n\
\t\t\t\tresets = <&ccu 47>;\n\
\t\t\t\tstatus = \"disabled\";\n\
\t\t\t};\n\
\n\
\t\t\ti2c0: i2c@800 {\n\
\t\t\t\tcompatible = \"tern,i2c\";\n\
\t\t\t\treg = <0x800 0x400>;\n\
\t\t\t\tinterrupts = <0 6 4>;\n\
\t\t\t\tclocks = <&ccu 59>;\n\
\t\t\t\tresets = <&ccu 42>;\n\
\t\t\t\tpinctrl-names = \"default\";\n\
\t\t\t\tpinctrl-0 = <&i2c0_pins>;\n\
\t\t\t\t#address-cells = <1>;\n\
\t\t\t\t#size-cells = <0>;\n\
\t\t\t\tstatus = \"disabled\";\n\
\t\t\t};\n\
\n\
\t\t\tpwm: pwm@c00 {\n\
\t\t\t\tcompatible = \"tern,pwm\";\n\
\t\t\t\treg = <0xc00 0x8>;\n\
\t\t\t\tclocks = <&osc24m>;\n\
\t\t\t\t#pwm-cells = <3>;\n\
\t\t\t};\n\
\n\
\t\t\tspi0: spi@1000 {\n\
\t\t\t\tcompatible = \"tern,spi\";\n\
\t\t\t\treg = <0x1000 0x400>;\n\
\t\t\t\tinterrupts = <0 12 4>;\n\
\t\t\t\tclocks = <&ccu 61>;\n\
\t\t\t\tresets = <&ccu 44>;\n\
\t\t\t\t#address-cells = <1>;\n\
\t\t\t\t#size-cells = <0>;\n\
\t\t\t\tstatus = \"disabled\";\n\
\t\t\t};\n\
\n\
\t\t\tmmc0: mmc@4000 {\n\
\t\t\t\tcompatible = \"tern,mmc\";\n\
\t\t\t\treg = <0x4000 0x1000>;\n\
\t\t\t\tclocks = <&ccu 20>, <&ccu 32>;\n\
\t\t\t\tclock-names = \"ahb\", \"mmc\";\n\
\t\t\t\tinterrupts = <0 60 4>;\n\
\t\t\t\tbus-width = <(1 ? 4 : 8)>;\n\
\t\t\t\tstatus = \"disabled\";\n\
\t\t\t};\n\
\n\
\t\t\tspare: timer@f000 {\n\
\t\t\t\tcompatible = \"tern,timer\";\n\
\t\t\t\treg = <0xf000 0x100>;\n\
\t\t\t};\n\
\t\t};\n\
\n\
\t\tahb: bus@20000000 {\n\
\t\t\tcompatible = \"simple-bus\";\n\
\t\t\t#address-cells = <1>;\n\
\t\t\t#size-cells = <1>;\n\
\t\t\tranges = <0x0 0x20000000 0x01000000>;\n\
\n\
\t\t\tusbphy: phy@0 {\n\
\t\t\t\tcompatible = \"tern,usb-phy\";\n\
\t\t\t\treg = <0x0 0x100>;\n\
\t\t\t\t#phy-cells = <1>;\n\
\t\t\t\tresets = <&ccu 0>, <&ccu 1>;\n\
\t\t\t};\n\
\n\
\t\t\tehci0: usb@1000 {\n\
\t\t\t\tcompatible = \"tern,ehci\", \"generic-ehci\";\n\
\t\t\t\treg = <0x1000 0x100>;\n\
\t\t\t\tinterrupts = <0 74 4>;\n\
\t\t\t\tclocks = <&ccu 29>;\n\
\t\t\t\tphys = <&usbphy 1>;\n\
\t\t\t\tphy-names = \"usb\";\n\
\t\t\t};\n\
\n\
\t\t\tmac: ethernet@2000 {\n\
\t\t\t\tcompatible = \"tern,mac\";\n\
\t\t\t\treg = <0x2000 0x10000>;\n\
\t\t\t\tinterrupts = <0 82 4>;\n\
\t\t\t\tclocks = <&ccu 27>;\n\
\t\t\t\tresets = <&ccu 12>;\n\
\t\t\t\tlocal-mac-address = [02 1a 2B 3c 4d 5e];\n\
\t\t\t\tphy-mode = \"rgmii-id\";\n\
\t\t\t\tphy-handle = <&{/soc/bus@20000000/ethernet@2000/mdio/ethernet-phy@1}>;\n\
\n\
\t\t\t\tmdio {\n\
\t\t\t\t\t#address-cells = <1>;\n\
\t\t\t\t\t#size-cells = <0>;\n\
\n\
\t\t\t\t\tethernet-phy@1 {\n\
\t\t\t\t\t\treg = <1>;\n\
\t\t\t\t\t\treset-gpios = <&pio 3 14 1>;\n\
\t\t\t\t\t};\n\
\t\t\t\t};\n\
\t\t\t};\n\
\t\t};\n\
\t};\n\
\n\
\tvcc5v: regulator-vcc5v {\n\
\t\tcompatible = \"regulator-fixed\";\n\
\t\tregulator-name = \"vcc5v\";\n\
\t\tregulator-min-microvolt = <(5 * 1000000U)>;\n\
\t\tregulator-max-microvolt = <(5 * 1000000U)>;\n\
\t};\n\
\n\
\tleds {\n\
\t\tcompatible = \"gpio-leds\";\n\
\n\
\t\tled-status {\n\
\t\t\tlabel = \"tern:green:status\";\n\
\t\t\tgpios = <&pio 0 10 (0 != 1 && !0 ? 0 : 1)>;\n\
\t\t\tdefault-state = \"on\";\n\
\t\t};\n\
\t};\n\
\n\
\tcalibration {\n\
\t\ttern,curve = /bits/ 16 <0 100 (200 + 55) 0xffff (-1)>;\n\
\t\ttern,serial = /bits/ 64 <0x0123456789abcdefULL>;\n\
\t\ttern,key = /bits/ 8 <0x41 0102 (1 << 6 | 3)>, \"\\x44\\105F\", [47 48];\n\
\t};\n\
};\n\
\n\
# 1 \"regulators.dtsi\" 1\n\
&i2c0 {\n\
\tstatus = \"okay\";\n\
\n\
\tpmic@34 {\n\
\t\tcompatible = \"tern,pmic\";\n\
\t\treg = <0x34>;\n\
\t\tinterrupts-extended = <&pio 6 11 8>;\n\
\n\
\t\tregulators {\n\
\t\t\tvdd_cpu: dcdc2 {\n\
\t\t\t\tregulator-name = \"vdd-cpu\";\n\
\t\t\t\tregulator-min-microvolt = <900000>;\n\
\t\t\t\tregulator-max-microvolt = <1300000>;\n\
\t\t\t\tvin-supply = <&vcc5v>;\n\
\t\t\t};\n\
\n\
\t\t\tvcc3v3: dcdc1 {\n\
\t\t\t\tregulator-name = \"vcc-3v3\";\n\
\t\t\t\tregulator-always-on;\n\
\t\t\t};\n\
\t\t};\n\
\t};\n\
};\n\
# 318 \"board.dts\" 2\n\
\n\
console: &uart0 {\n\
\tpinctrl-names = \"default\";\n\
\tpinctrl-0 = <&uart0_pins>;\n\
\t/delete-property/ dmas;\n\
\t/delete-property/ dma-names;\n\
\tstatus = \"okay\";\n\
};\n\
\n\
&{/soc/bus@10000000/mmc@4000} {\n\
\tvmmc-supply = <&vcc3v3>;\n\
\tpinctrl-0 = <&mmc0_pins>;\n\
\tcd-gpios = <&pio 5 6 1>; // the card's switch\n\
\tstatus = \"okay\";\n\
};\n\
\n\
&ahb {\n\
\t/delete-node/ usb@1000;\n\
};\n\
\n\
/delete-node/ &spare;\n\
\n\
/ {\n\
\tbacklight {\n\
\t\tcompatible = \"pwm-backlight\";\n\
\t\tpwms = <&pwm 0 50000 0>;\n\
\t\tbrightness-levels = <0 10 (10 << 1) 40 80 (0x100 - 1)>;\n\
\t\tpower-supply = <&vcc3v3>;\n\
\t};\n\
};\n";
