//! What is told of each refusal: its name, what it means, a small input that gives it, and what to do.

use super::Texts;

pub(super) const NO_MEMORY: Texts = (
    "NoMemory",
    "The system refused memory that the command asked for. Nothing was printed or written.",
    "none: it depends on the machine",
    "Free memory, or raise the limit under which the command runs (`ulimit -v`).",
);

pub(super) const SYNTAX: Texts = (
    "Syntax",
    "The text is no source: something can't stand where it stands, or the text ends too early.",
    "an empty source",
    "Look at the line. A source begins with `/dts-v1/;`, and each node and property ends with `;`. Run the preprocessor first: `#include` and `#define` are its words.",
);

pub(super) const ELEMENT_RANGE: Texts = (
    "ElementRange",
    "A number doesn't fit its element: a cell has 32 bits, `/bits/ 8` elements have 8.",
    "`/dts-v1/;/{a=<0x100000000>;};`",
    "Split the number into two cells, or choose wider elements by `/bits/ 64`.",
);

pub(super) const DIVIDE_BY_ZERO: Texts = (
    "DivideByZero",
    "An expression divides by zero, or takes a remainder by it.",
    "`/dts-v1/;/{a=<(1/0)>;};`",
    "Look at what the macros of the line have become.",
);

pub(super) const BAD_BITS: Texts = (
    "BadBits",
    "The width behind `/bits/` isn't 8, 16, 32 or 64, or a reference stands among elements that aren't 32 bits wide.",
    "`/dts-v1/;/{a=/bits/ 9<1>;};`",
    "Choose one of the four widths, and put references into cells.",
);

pub(super) const LITERAL_RANGE: Texts = (
    "LiteralRange",
    "A literal isn't a number below 2^64: its digits don't fit its base, or there are too many.",
    "`/dts-v1/;/{a=<08>;};`",
    "A leading 0 makes a number octal: leave it out, or write `0x`.",
);

pub(super) const BAD_ESCAPE: Texts = (
    "BadEscape",
    "A backslash in a string begins no escape, or its number is above 255.",
    "`/dts-v1/;/{a=\"\\x\";};`",
    "Write `\\\\` for a backslash; `\\x` wants a hex digit, an octal escape is at most `\\377`.",
);

pub(super) const SOURCE_TOO_DEEP: Texts = (
    "TooDeep",
    "Nodes or expressions are nested deeper than 64.",
    "65 opening parentheses in a cell",
    "Look for a brace that is never closed.",
);

pub(super) const TOO_LONG: Texts = (
    "TooLong",
    "The source has more than 16,777,216 bytes.",
    "a file of 16,777,217 blanks",
    "Data of that size belongs in a file of its own, not in a tree.",
);

pub(super) const UNKNOWN_LABEL: Texts = (
    "UnknownLabel",
    "A reference names a label that no node has: none had it yet where an item is extended or deleted, none has it in the end where a value refers to it.",
    "`/dts-v1/;/{a=<&b>;};`",
    "Look for the label's spelling, and for a deletion that took its node away.",
);

pub(super) const DUPLICATE_LABEL: Texts = (
    "DuplicateLabel",
    "A label is given to a second node while the first one is there.",
    "`/dts-v1/;/{a: x { }; a: y { };};`",
    "Rename one of the labels.",
);

pub(super) const UNKNOWN_REFERENCE_PATH: Texts = (
    "UnknownPath",
    "A reference names a path that no node has.",
    "`/dts-v1/;/{a=&{/b};};`",
    "Compare the path with the tree, unit addresses too.",
);

pub(super) const BAD_PHANDLE: Texts = (
    "BadPhandle",
    "A property `phandle` isn't four plain bytes, or is 0 or 0xffffffff.",
    "`/dts-v1/;/{phandle=<0>;};`",
    "Leave the property out: a node that is referred to gets a number.",
);

pub(super) const DUPLICATE_PHANDLE: Texts = (
    "DuplicatePhandle",
    "Two nodes have one phandle.",
    "`/dts-v1/;/{phandle=<1>; a{phandle=<1>;};};`",
    "Leave one of the two properties out.",
);

pub(super) const DUPLICATE_IN_BODY: Texts = (
    "DuplicateInBody",
    "One body defines a property, or a child, twice.",
    "`/dts-v1/;/{a; a;};`",
    "Leave out the earlier one: a body that comes later may define it anew.",
);

pub(super) const PATH_IN_PLUGIN: Texts = (
    "PathInPlugin",
    "Cells of a plugin refer to a node by its path, and fixups carry labels alone.",
    "`/dts-v1/;/plugin/;&a{r=<&{/b}>;};`",
    "Give the node a label, and refer to it by that.",
);

pub(super) const RESERVED_NAME: Texts = (
    "ReservedName",
    "The root is deleted, cells refer to a reserved node, or a name that the compiler gives is taken (`__symbols__` with symbols; in a plugin `__fixups__`, `__local_fixups__` and the names of its fragments).",
    "`/dts-v1/;/{a=<&{/__symbols__}>; __symbols__{};};`",
    "Leave `__symbols__`, `__fixups__` and `__local_fixups__` to the compiler.",
);

pub(super) const TREE_TOO_DEEP: Texts = (
    "TooDeep",
    "A node lies deeper than 64 levels below the root.",
    "an extension of a node at level 64 with a child",
    "Trees of boards have some 12 levels: look for a path that repeats.",
);

pub(super) const TRUNCATED: Texts = (
    "Truncated",
    "The file ends before the blob does: it has fewer than 40 bytes, or fewer than its header says.",
    "an empty file",
    "Make or copy the blob again.",
);

pub(super) const BAD_MAGIC: Texts = (
    "BadMagic",
    "The file doesn't begin with d0 0d fe ed, so it is no blob.",
    "40 zero bytes",
    "See whether it is a source, or is packed (a kernel image, gzip, a FIT image).",
);

pub(super) const BAD_VERSION: Texts = (
    "BadVersion",
    "The blob's version is below 16, or it can be read by versions above 17 alone.",
    "d0 0d fe ed and 36 zero bytes",
    "Make the blob again by a tool that writes version 16 or 17.",
);

pub(super) const BAD_LAYOUT: Texts = (
    "BadLayout",
    "A block lies outside the blob or isn't aligned, or the list of reservations doesn't end.",
    "d0 0d fe ed, and 36 bytes that are zero but for the version 17",
    "The blob is damaged: make it again.",
);

pub(super) const BAD_TOKEN: Texts = (
    "BadToken",
    "The structure block has a word that is no token, is cut, or doesn't end with its node.",
    "a blob whose structure block is empty",
    "The blob is damaged: make it again.",
);

pub(super) const BAD_STRING: Texts = (
    "BadString",
    "A node's name doesn't end inside the structure block, or a property's name inside the strings.",
    "a blob whose root's name has no zero byte",
    "The blob is damaged: make it again.",
);

pub(super) const PROPERTY_AFTER_NODE: Texts = (
    "PropertyAfterNode",
    "A property stands behind a child of its node.",
    "a blob whose root has a child and then a property",
    "Blobs have a node's properties first: make it by a tool that keeps this order.",
);

pub(super) const BAD_TREE: Texts = (
    "BadTree",
    "The nodes make no tree: the root has a name, a name isn't lawful, siblings have one name, or nodes are deeper than 64.",
    "a blob whose root is called `a`",
    "Print the blob by another tool and look for such a name.",
);

pub(super) const TOO_LARGE: Texts = (
    "TooLarge",
    "The blob, or the text that it would be printed as, has more than 268,435,456 bytes.",
    "a file of 268,435,457 bytes",
    "Take the data out of the tree.",
);

pub(super) const NOT_OVERLAY: Texts = (
    "NotOverlay",
    "The second blob is no overlay: no child of its root has a child `__overlay__`.",
    "the blob of `/dts-v1/;/{};` as the overlay",
    "Give the base first and then the overlay. An overlay is compiled from a source that begins with `/dts-v1/; /plugin/;`.",
);

pub(super) const NO_TARGET: Texts = (
    "NoTarget",
    "The base has no node that a fragment targets: none with the phandle in `target`, or, where that isn't there, none at the path in `target-path`.",
    "the overlay `/dts-v1/;/{f{target-path=\"/b\"; __overlay__{};};};` over a base without `/b`",
    "Compare the fragment with the base as `dtman dump` prints it. A target is a node that the base has before anything is applied.",
);

pub(super) const UNKNOWN_SYMBOL: Texts = (
    "UnknownSymbol",
    "A label that the overlay refers to is no symbol of the base, or its symbol leads to no node that has a phandle.",
    "an overlay of `/dts-v1/;/plugin/;&b{};` over a base without the label `b`",
    "Compile the base with `--symbols`, and look for the label's spelling in its `__symbols__`.",
);

pub(super) const BAD_FIXUP: Texts = (
    "BadFixup",
    "An entry of `__fixups__` or `__local_fixups__` has another form, leads to no four bytes that may be written, or two of them overlap.",
    "an overlay whose `__fixups__` has `b = \"/f:target\"`",
    "Leave both nodes to the compiler: look for a tool that changed the overlay after it was compiled.",
);

pub(super) const PHANDLE_OVERFLOW: Texts = (
    "PhandleOverflow",
    "A phandle of the overlay, raised above all of the base's, would be 0xffffffff or more.",
    "an overlay with `phandle = <0xfffffffe>` in a fragment",
    "Leave phandles out of the sources: the compiler numbers them from 1.",
);

pub(super) const PHANDLE_CLASH: Texts = (
    "PhandleClash",
    "A node would get a phandle where it has one, or two nodes of the overlay have one phandle.",
    "a fragment with `phandle = <1>` in its `__overlay__`, whose target has a phandle",
    "Leave out a label that the overlay gives to a node of the base, and compile the overlay without `--symbols` where only that asks for the phandle.",
);

pub(super) const OVERLAY_TOO_DEEP: Texts = (
    "TooDeep",
    "A node of the overlay would lie deeper than 64 levels below the base's root.",
    "a fragment with a child, whose target lies at level 64",
    "Trees of boards have some 12 levels: look for a target far down.",
);

pub(super) const BAD_LINE: Texts = (
    "BadLine",
    "A line of a driver, plan or schedule file has no lawful form, or a byte that isn't printable.",
    "a plan file with the line `/a`",
    "A plan's line is `PATH DRIVER ok SUPPLIER..`, or has `fail`, `- -` or `! -` there, or it is `compatible PATH STRING..` of a device whose line has `- -`; a schedule's is `begin PATH`, `finish PATH settled`, `finish PATH missing SUPPLIER`, `abandon PATH` or `driver NAME COMPATIBLE..`; a driver file's is `driver NAME COMPATIBLE..` or `fail PATH`.",
);

pub(super) const DUPLICATE_DRIVER: Texts = (
    "DuplicateDriver",
    "Two lines of a driver file name one driver.",
    "a driver file with the lines `driver a b` and `driver a c`",
    "Put all strings of a driver on one line.",
);

pub(super) const DUPLICATE_DEVICE: Texts = (
    "DuplicateDevice",
    "Two lines of a plan file begin with one path, or two of its `compatible` lines name one.",
    "a plan file with the line `/a - -` twice",
    "Keep one of them.",
);

pub(super) const UNKNOWN_LINE_PATH: Texts = (
    "UnknownPath",
    "A line of a driver, plan or schedule file names a path that is no device's, a supplier's or that of a `compatible` line too.",
    "a plan file with the line `/a - - /b`",
    "A device is a node that has `compatible`: name its path from the root, as `dtman dump` shows it.",
);

pub(super) const DANGLING_PHANDLE: Texts = (
    "DanglingPhandle",
    "A property refers to a phandle that no node has.",
    "a device with `clocks = <7>` in a tree without phandles",
    "Look for a node that was deleted, or for an overlay that wasn't applied.",
);

pub(super) const BAD_SPECIFIER: Texts = (
    "BadSpecifier",
    "A property that lists suppliers has another form than its provider's `#..-cells` says.",
    "a device with `clocks = <1>` whose provider has `#clock-cells = <1>`",
    "Compare the property with its binding: each entry is a phandle and as many cells as the provider says.",
);

pub(super) const TOO_MANY_DEVICES: Texts = (
    "TooManyDevices",
    "There are more than 4,096 devices.",
    "a plan file of 4,097 devices",
    "Plan a part of the board.",
);

pub(super) const NOT_IDLE: Texts = (
    "NotIdle",
    "A begin of a device that is in flight or has settled.",
    "the plan `/a x ok` and `begin /a` twice",
    "Finish or abandon the flight first; a settled device isn't probed again.",
);

pub(super) const UNMATCHED: Texts = (
    "Unmatched",
    "A begin of a device that has no driver or is switched off.",
    "the plan `/a - -` and `begin /a`",
    "Give the device a driver, in the plan or by a `driver` line before the event, or take the event out.",
);

pub(super) const STALE_TICKET: Texts = (
    "StaleTicket",
    "A finish by the ticket of a flight that is gone. No schedule says it, since its events name devices.",
    "a call of the library",
    "Finish a flight by its own ticket.",
);

pub(super) const NOT_READY: Texts = (
    "NotReady",
    "A finish that settles a device while one of its suppliers isn't bound.",
    "the plan `/a x ok /b`, `/b - -`, and `begin /a`, `finish /a settled`",
    "Say `missing` and the supplier, or settle the suppliers first.",
);

pub(super) const WAS_BOUND: Texts = (
    "WasBound",
    "A finish that misses a device which is no supplier, or was bound when the flight began.",
    "the plan `/a x ok`, `/b - -`, and `begin /a`, `finish /a missing /b`",
    "Name a supplier that the probe couldn't see.",
);

pub(super) const TOO_MANY_EVENTS: Texts = (
    "TooManyEvents",
    "A begin after 500,000 others.",
    "the plan `/a x ok`, and `begin /a`, `abandon /a` 500,000 times before another `begin /a`",
    "Cut the schedule.",
);

pub(super) const NOT_IN_FLIGHT: Texts = (
    "NotInFlight",
    "A finish or an abandon of a device that isn't in flight.",
    "the plan `/a x ok` and `abandon /a`",
    "Begin the device first.",
);

pub(super) const KNOWN_DRIVER: Texts = (
    "KnownDriver",
    "A driver comes late under a name that a device's driver has, or that came late before.",
    "the plan `/a x ok` and `driver x b`",
    "Take the line out, or give the driver another name; put all strings of a driver on one line.",
);

pub(super) const TOO_MANY_WORKERS: Texts = (
    "TooManyWorkers",
    "A run by no worker, or by more than 64. The command line takes 1 to 64 alone.",
    "a call of the library with 65 workers",
    "Take 1 to 64.",
);

pub(super) const CANNOT_READ: Texts = (
    "CannotRead",
    "The file at the path can't be opened or read (`stdin` stands for standard input, `random` for the system's source of random bytes).",
    "a path where no file is",
    "See that the path is right, is a file, and may be read.",
);

pub(super) const CANNOT_WRITE: Texts = (
    "CannotWrite",
    "The file at the path can't be made or written; it may hold a beginning of the answer (`stdout` stands for standard output). That nobody reads a pipe any more isn't told: the status alone says so.",
    "standard output that is closed",
    "See that the folder is there and may be written, and that the disk has room.",
);

pub(super) const FILE_TOO_LONG: Texts = (
    "FileTooLong",
    "A driver, plan or schedule file has more than 268,435,456 bytes.",
    "a file of 268,435,457 bytes",
    "Give the right file.",
);

pub(super) const NO_HEADER: Texts = (
    "NoHeader",
    "A file that `#include` names is in none of the folders where it is looked for.",
    "`#include <none.h>`",
    "Name its folder by `-I`; behind `<` the folder of the file that names it isn't looked into.",
);

pub(super) const NESTED_TOO_DEEP: Texts = (
    "NestedTooDeep",
    "Files, calls of macros or macros within macros are nested deeper than 200.",
    "`a.dts` with the line `#include \"a.dts\"`",
    "Look for a file that includes itself: put `#ifndef` and `#define` round what it says.",
);

pub(super) const TOO_MANY_TOKENS: Texts = (
    "TooManyTokens",
    "One line comes to more than 4,000,000 tokens, or a macro has more than 256 parameters.",
    "22 macros, each twice the one before",
    "Look at what the macros of the line stand for.",
);

pub(super) const TEXT_TOO_LONG: Texts = (
    "TextTooLong",
    "The text with all that it includes comes to more than 67,108,864 bytes.",
    "a file of 67,108,865 bytes",
    "Include less; `/incbin/` takes the bytes of a file in.",
);

pub(super) const OPEN_COMMENT: Texts = (
    "OpenComment",
    "A comment begins with `/*` and isn't closed in its file.",
    "`/* a`",
    "Close it by `*/`.",
);

pub(super) const UNSERVED: Texts = (
    "Unserved",
    "Something of the C preprocessor that device trees don't use, and that isn't there: other directives, an `#include` of a macro, `?:` or characters in a condition, `__FILE__`, `__LINE__` and the like.",
    "`#pragma once`",
    "Do without it, or run the C preprocessor before (`cpp -nostdinc -undef -x assembler-with-cpp`), and give `--no-cpp`.",
);

pub(super) const BAD_DIRECTIVE: Texts = (
    "BadDirective",
    "A directive isn't formed as C11, section 6.10, says.",
    "`#define 1`",
    "Look at the word that is named.",
);

pub(super) const BAD_CONDITION: Texts = (
    "BadCondition",
    "The expression of `#if` or `#elif` has no value.",
    "`#if 1 +`",
    "A name that is no macro counts as 0; the expression ends with its line.",
);

pub(super) const BAD_CALL: Texts = (
    "BadCall",
    "A macro is called with another number of arguments than it has parameters, or the call isn't closed in its file.",
    "`#define F(a, b) a b` and `F(1)`",
    "Look at the commas and the parentheses of the call.",
);

pub(super) const BAD_CONDITIONAL: Texts = (
    "BadConditional",
    "`#else`, `#elif` or `#endif` stands without its `#if`, or an `#if` isn't closed in its file.",
    "`#endif`",
    "Look at the `#if` before it; each is closed in its own file.",
);

pub(super) const ERROR_DIRECTIVE: Texts = (
    "ErrorDirective",
    "The source says by `#error` that it can't be compiled so.",
    "`#error choose a board`",
    "Do what its text says; often a macro has to be given by `-D`.",
);
