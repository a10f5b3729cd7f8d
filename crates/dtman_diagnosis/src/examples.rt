//! What is told of the examples of `explain` in detail, line by line as `--verbose` prints it.

/// The lines that `--verbose` prints for the example of an error, if it has one.
pub fn example_of(number: u8) -> Option<&'static str> {
    match number {
        0..=19 => of_text(number),
        20..=29 => of_meaning(number),
        30..=39 => of_blob(number),
        40..=49 => of_overlay(number),
        50..=79 => of_bus(number),
        _ => of_file(number),
    }
}

fn of_text(number: u8) -> Option<&'static str> {
    match number {
        10 => Some("error 10 Syntax line 1\nIN: the text ends, and more must follow\n = in /\n"),
        11 => Some(
            "error 11 ElementRange line 1\nIN:1:15: the element `0x100000000` doesn't fit its width\n  |\n1 | /dts-v1/;/{a=<0x100000000>;};\n  |               ^^^^^^^^^^^\n  = in /, property a\n",
        ),
        12 => Some(
            "error 12 DivideByZero line 1\nIN:1:17: `/` divides by zero\n  |\n1 | /dts-v1/;/{a=<(1/0)>;};\n  |                 ^\n  = in /, property a\n",
        ),
        13 => Some(
            "error 13 BadBits line 1\nIN:1:21: the width `9` isn't 8, 16, 32 or 64\n  |\n1 | /dts-v1/;/{a=/bits/ 9<1>;};\n  |                     ^\n  = in /, property a\n",
        ),
        14 => Some(
            "error 14 LiteralRange line 1\nIN:1:15: `08` is no octal number, which a leading 0 says that it is\n  |\n1 | /dts-v1/;/{a=<08>;};\n  |               ^^\n  = in /, property a\n",
        ),
        15 => Some(
            "error 15 BadEscape line 1\nIN:1:15: `\\x` is no escape\n  |\n1 | /dts-v1/;/{a=\"\\x\";};\n  |               ^^\n  = in /, property a\n",
        ),
        16 => Some(
            "error 16 TooDeep line 1\nIN:1:79: `(` nests deeper than 64\n  |\n1 | /dts-v1/;/{a=<(((((((((((((((((((((((((((((((((((((((((((((((((((((((((((((((((\n  |                                                                               ^\n  = in /, property a\n  = the bracket isn't closed that stands at IN:1:78\n",
        ),
        17 => Some("error 17 TooLong line 1\nIN: a source has at most 16,777,216 bytes\n"),
        _ => None,
    }
}

fn of_meaning(number: u8) -> Option<&'static str> {
    match number {
        20 => Some(
            "error 20 UnknownLabel\nIN:1:15: no node has the label `b`\n  |\n1 | /dts-v1/;/{a=<&b>;};\n  |               ^^\n  = in /, property a\n",
        ),
        21 => Some(
            "error 21 DuplicateLabel\nIN:1:22: the label `a` is another node's\n  |\n1 | /dts-v1/;/{a: x { }; a: y { };};\n  |                      ^^\n  = in /\n  = the other one stands at IN:1:12\n",
        ),
        22 => Some(
            "error 22 UnknownPath\nIN:1:14: no node has the path `/b`\n  |\n1 | /dts-v1/;/{a=&{/b};};\n  |              ^^^^^\n  = in /, property a\n",
        ),
        23 => Some(
            "error 23 BadPhandle\nIN:1:12: a phandle is four plain bytes, and neither 0 nor 0xffffffff\n  |\n1 | /dts-v1/;/{phandle=<0>;};\n  |            ^^^^^^^\n  = in /, property phandle\n",
        ),
        24 => Some(
            "error 24 DuplicatePhandle\nIN:1:27: another node has this phandle\n  |\n1 | /dts-v1/;/{phandle=<1>; a{phandle=<1>;};};\n  |                           ^^^^^^^\n  = in /a, property phandle\n  = the other one stands at IN:1:12\n",
        ),
        25 => Some(
            "error 25 DuplicateInBody\nIN:1:15: the body defines `a` twice\n  |\n1 | /dts-v1/;/{a; a;};\n  |               ^\n  = in /\n  = the other one stands at IN:1:12\n",
        ),
        26 => Some(
            "error 26 PathInPlugin\nIN:1:25: cells of a plugin can't refer to the path `/b`\n  |\n1 | /dts-v1/;/plugin/;&a{r=<&{/b}>;};\n  |                         ^^^^^\n  = in /fragment@0/__overlay__, property r\n",
        ),
        27 => Some(
            "error 27 ReservedName\nIN:1:15: a reference can't name `/__symbols__` here\n  |\n1 | /dts-v1/;/{a=<&{/__symbols__}>; __symbols__{};};\n  |               ^^^^^^^^^^^^^^^\n  = in /, property a\n  = the compiler writes this node, so cells can't refer to it\n",
        ),
        28 => Some(
            "error 28 TooDeep\nIN:2:4: `c` lies deeper than 64 levels\n  |\n2 | &l{c{};};\n  |    ^\n  = in /n/n/n/n/n/n/n/n/n/n/n/n/n/n/n/n/n/n/n/n/n/n/n/n/n/n/n/n/n/n/n/n/n/n/n/n/n/n/n/n/n/n/n/n/n/n/n/n/n/n/n/n/n/n/n/n/n/n/n/n/n/n/n/n\n",
        ),
        _ => None,
    }
}

fn of_blob(number: u8) -> Option<&'static str> {
    match number {
        30 => Some(
            "error 30 Truncated\nIN:0x0: the blob is cut\n = wanted is a header of 40 bytes\n = the file is empty\n",
        ),
        31 => Some(
            "error 31 BadMagic\nIN:0x0: this is no blob\n = wanted is the magic number 0xd00dfeed, and 0x00000000 stands there\n",
        ),
        32 => Some(
            "error 32 BadVersion\nIN:0x14: the version isn't one that can be read\n = wanted is version 16 or above, and 0x00000000 stands there\n",
        ),
        33 => Some(
            "error 33 BadLayout\nIN:0x4: a block doesn't lie where it can\n = wanted is a size of 40 or more, and 0x00000000 stands there\n",
        ),
        34 => Some(
            "error 34 BadToken\nIN:0x28: the structure breaks off here\n = wanted is a token before the structure block ends, and 0x00000000 stands there\n = in /\n",
        ),
        35 => Some(
            "error 35 BadString\nIN:0x3c: a name doesn't end here, or isn't there\n = wanted is a node's name, which ends with a zero byte, and 0x61616161 stands there\n = in /\n",
        ),
        36 => Some(
            "error 36 PropertyAfterNode\nIN:0x4c: a property stands behind a child\n = wanted is BEGIN_NODE, 1, or END_NODE, 2, behind a child, and 0x00000003 stands there\n = in /\n",
        ),
        37 => Some(
            "error 37 BadTree\nIN:0x3c: the nodes make no tree\n = wanted is a root without a name, and 0x61000000 stands there\n = in /\n",
        ),
        38 => Some(
            "error 38 TooLarge\nIN: a blob or a text has at most 268,435,456 bytes\n = the file has more\n",
        ),
        _ => None,
    }
}

fn of_overlay(number: u8) -> Option<&'static str> {
    match number {
        40 => Some(
            "error 40 NotOverlay\nOVERLAY: this is no overlay\n = no child of the root has a child `__overlay__`\n",
        ),
        41 => Some(
            "error 41 NoTarget\nOVERLAY: the base has no node at `/b`\n = in /f, property target-path\n",
        ),
        42 => Some(
            "error 42 UnknownSymbol\nOVERLAY: the base has no symbol `b` that leads to a node with a phandle\n = in /fragment@0, property target\n = its entry in __fixups__ is `/fragment@0:target:0`\n",
        ),
        43 => Some(
            "error 43 BadFixup\nOVERLAY: an entry of the label `b` can't be used\n = in /__fixups__, property b\n = its entry in __fixups__ is `/f:target`\n = an entry is `PATH:PROPERTY:OFFSET`\n",
        ),
        44 => Some(
            "error 44 PhandleOverflow\nOVERLAY: a raised phandle is 0xffffffff or more\n = in /f/__overlay__, property phandle\n = the phandle is 0xfffffffe\n = phandles of the overlay are raised by 0x2\n",
        ),
        45 => Some(
            "error 45 PhandleClash\nOVERLAY: a node would get a second phandle, or two nodes have one\n = in /f/__overlay__, property phandle\n = its fragment targets /a\n = the node that has one is /a\n",
        ),
        46 => Some(
            "error 46 TooDeep\nOVERLAY: a node would lie deeper than 64 levels\n = in /f/__overlay__/c\n = its fragment targets /n/n/n/n/n/n/n/n/n/n/n/n/n/n/n/n/n/n/n/n/n/n/n/n/n/n/n/n/n/n/n/n/n/n/n/n/n/n/n/n/n/n/n/n/n/n/n/n/n/n/n/n/n/n/n/n/n/n/n/n/n/n/n/n\n",
        ),
        _ => None,
    }
}

fn of_bus(number: u8) -> Option<&'static str> {
    match number {
        50 => Some(
            "error 50 BadLine line 1\nPLAN:1:3: the line ends, and more must follow\n  |\n1 | /a\n  |   ^\n  = the form is `PATH DRIVER ok|fail SUPPLIER..`, or `- -` or `! -` behind PATH\n",
        ),
        51 => Some(
            "error 51 DuplicateDriver line 2\nDRIVERS:2:8: a line before names this driver\n  |\n2 | driver a c\n  |        ^\n  = the other one stands at DRIVERS:1:8\n",
        ),
        52 => Some(
            "error 52 DuplicateDevice line 2\nPLAN:2:1: a line before has this path\n  |\n2 | /a - -\n  | ^^\n  = the other one stands at PLAN:1:1\n",
        ),
        53 => Some(
            "error 53 UnknownPath line 1\nPLAN:1:8: no device has the path `/b`\n  |\n1 | /a - - /b\n  |        ^^\n",
        ),
        54 => Some(
            "error 54 DanglingPhandle\nBLOB: no node has the phandle of an entry\n = in /a, property clocks\n = entry 1 is phandle 0x7\n",
        ),
        55 => Some(
            "error 55 BadSpecifier\nBLOB: a property doesn't list its suppliers as they want it\n = in /a, property clocks\n = entry 1 is phandle 0x1\n = that is /b, whose #clock-cells is 1\n = cells behind it: 0\n",
        ),
        56 => Some(
            "error 56 TooManyDevices\nPLAN: there are more devices than a plan may have\n = there are 4097 devices; a plan has at most 4096\n",
        ),
        60 => Some(
            "error 60 NotIdle event 2\nSCHEDULE:2:1: the device is in flight or has settled\n  |\n2 | begin /a\n  | ^^^^^^^^\n  = before it: /a probing\n",
        ),
        61 => Some(
            "error 61 Unmatched event 1\nSCHEDULE:1:1: the device has no driver, or is switched off\n  |\n1 | begin /a\n  | ^^^^^^^^\n  = before it: /a unmatched\n",
        ),
        63 => Some(
            "error 63 NotReady event 2\nSCHEDULE:2:1: a supplier of the device isn't bound\n  |\n2 | finish /a settled\n  | ^^^^^^^^^^^^^^^^^\n  = before it: /a probing\n  = /a needs /b unmatched\n",
        ),
        64 => Some(
            "error 64 WasBound event 2\nSCHEDULE:2:1: the device named is no supplier, or was bound at the begin\n  |\n2 | finish /a missing /b\n  | ^^^^^^^^^^^^^^^^^^^^\n  = before it: /a probing\n",
        ),
        65 => Some(
            "error 65 TooManyEvents event 1000001\nSCHEDULE:1000001:1: there were 500,000 begins before\n        |\n1000001 | begin /a\n        | ^^^^^^^^\n        = before it: /a due\n",
        ),
        66 => Some(
            "error 66 NotInFlight event 1\nSCHEDULE:1:1: the device isn't in flight\n  |\n1 | abandon /a\n  | ^^^^^^^^^^\n  = before it: /a due\n",
        ),
        67 => Some(
            "error 67 KnownDriver event 1\nSCHEDULE:1:1: a driver has this name\n  |\n1 | driver x b\n  | ^^^^^^^^^^\n  = the other one stands at PLAN:1:4\n",
        ),
        _ => None,
    }
}

fn of_file(number: u8) -> Option<&'static str> {
    match number {
        80 => Some("error 80 CannotRead IN\nIN: No such file or directory (os error 2)\n"),
        81 => Some("error 81 CannotWrite stdout\nstdout: Bad file descriptor (os error 9)\n"),
        82 => Some(
            "error 82 FileTooLong IN\nIN: the file has 268435457 bytes; at most 268435456 are read\n",
        ),
        _ => None,
    }
}
