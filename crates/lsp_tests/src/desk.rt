//! A server over files in memory.

use dtman_findings::Compiler;
use dtman_lsp::{Files, Server};
use std::alloc::{AllocError, Global};
use std::process::Abort;

/// Files that are found under their paths.
#[derive(Clone, Copy)]
pub struct Desk;

const FILES: &[(&str, &str)] = &[
    (
        "/w/soc.dtsi",
        "#define CLK 3\n/ {\n\tsoc {\n\t\tuart1: serial@10 {\n\t\t\tclocks = <CLK>;\n\t\t};\n\t};\n};\n",
    ),
    ("/w/include/irq.h", "#define LEVEL 4\n"),
];

impl Files for Desk {
    fn read(&mut self, alloc: Global, path: &[u8]) -> Result<Option<Vec<u8>>, AllocError> {
        for (name, text) in FILES {
            if name.as_bytes() == path {
                return Ok(Some(Vec::from_slice(alloc, text.as_bytes())?));
            }
        }
        Ok(None)
    }
}

/// A message, and the bodies that answer it.
pub struct Step {
    pub message: &'static str,
    pub answers: &'static [&'static str],
}

fn check(rt: &impl Abort, step: &Step, bodies: &[Vec<u8>]) {
    let message = step.message;
    assert_eq!(rt;
        bodies.len(),
        step.answers.len(),
        "another number of answers: {message:?}"
    );
    for (body, wanted) in bodies.iter().zip(step.answers) {
        assert_eq!(rt;
            body.as_slice(),
            wanted.as_bytes(),
            "another answer: {message:?}"
        );
    }
}

/// Has a server answer messages, one after the other.
pub fn steps(rt: &impl Abort, server: &mut Server<'_, Compiler>, rows: &[Step]) {
    for step in rows {
        let bodies = server
            .answer(step.message.as_bytes(), &mut Desk)
            .expect(rt, "memory");
        check(rt, step, bodies.as_slice());
    }
}
