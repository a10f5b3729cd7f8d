//! Where in the text that stands which a source says.

use dt_source::{Item, Part, Reference, Statement, parse};
use dt_text::lexeme::Language;
use std::alloc::Global;
use std::process::Abort;

const TEXT: &[u8] =
    b"/dts-v1/;\n/ { a = <1 &b>, &{/c}, \"d\"; /delete-property/ e; /delete-node/ f; g: h { i; }; };\nj: &k { };\n/delete-node/ &{/l};\n/omit-if-no-ref/ &m;\n";

/// What stands there, in the order of the text.
const WORDS: &[&str] = &[
    "/ {", "a = ", "&b>", "&{/c}", "e;", "f;", "h {", "i;", "&k {", "&{/l}", "&m;",
];

fn reference_in<'s, 'a>(part: &'s Part<'a>) -> Option<&'s Reference<'a>> {
    match part {
        Part::Phandle(target) | Part::Path(target) => Some(target),
        _ => None,
    }
}

// Where a statement's name begins.
fn name_at(statement: &Statement<'_>) -> u32 {
    match statement {
        Statement::Property { value, .. } => value.at,
        Statement::DeleteProperty { at, .. } => *at,
        Statement::Node { at, .. } => *at,
        Statement::DeleteNode { at, .. } => *at,
    }
}

// Puts the offsets of a statement and of what stands in it.
fn add_statement(rt: &impl Abort, offsets: &mut Vec<u32>, statement: &Statement<'_>) {
    offsets.push(name_at(statement)).expect(rt, "memory");
    match statement {
        Statement::Property { value, .. } => {
            for part in &value.parts {
                if let Some(reference) = reference_in(part) {
                    offsets.push(reference.at()).expect(rt, "memory");
                }
            }
        }
        Statement::Node { body, .. } => {
            for inner in body {
                offsets.push(name_at(inner)).expect(rt, "memory");
            }
        }
        _ => {}
    }
}

fn add_item(rt: &impl Abort, offsets: &mut Vec<u32>, item: &Item<'_>) {
    match item {
        Item::Root { at, body } => {
            offsets.push(*at).expect(rt, "memory");
            for statement in body {
                add_statement(rt, offsets, statement);
            }
        }
        Item::Extend { target, .. } | Item::Delete(target) | Item::Omit(target) => {
            offsets.push(target.at()).expect(rt, "memory");
        }
    }
}

fn offsets_of(rt: &impl Abort, alloc: Global) -> Vec<u32> {
    let source = parse(alloc, TEXT, Language::Dtc).expect(rt, "a source");
    let mut offsets = Vec::new(alloc);
    for item in &source.items {
        add_item(rt, &mut offsets, item);
    }
    offsets
}

#[test]
fn offsets(rt: HostRuntime) {
    let offsets = offsets_of(&rt, rt.alloc());
    assert_eq!(rt; offsets.len(), WORDS.len());
    for (offset, word) in offsets.iter().zip(WORDS) {
        let behind = TEXT.get(*offset as usize..).unwrap_or(&[]);
        assert!(rt; behind.starts_with(word.as_bytes()));
    }
}
