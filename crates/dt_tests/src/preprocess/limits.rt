//! Limits: how deep files and macros may be, and how many parameters a macro may have.

use crate::preprocess::shelf::{Refused, are_refused, made};
use dt_preprocess::Reason;
use std::alloc::{AllocError, Global};
use std::hash::RandomState;
use std::process::Abort;
use std::test::Fail;

#[test]
fn files_within_files(rt: HostRuntime) -> Result<(), Fail> {
    const ROWS: &[Refused] = &[Refused {
        text: "#include <self.h>\n",
        reason: Reason::TooDeep,
        path: "inc/self.h",
        line: 1,
        column: 10,
        word: "self.h",
    }];
    are_refused(&rt, rt.alloc(), RandomState::new(&rt)?, ROWS);
    Ok(())
}

/// Macros, each the next one.
fn chain(alloc: Global, count: u32) -> Result<String, AllocError> {
    let mut text = String::new(alloc);
    for i in 0..count {
        let next = i.saturating_add(1);
        let line = format!(in alloc; "#define a{i} a{next}\n")?;
        text.push_str(line.as_str())?;
    }
    let line = format!(in alloc; "#define a{count} x\na0\n")?;
    text.push_str(line.as_str())?;
    Ok(text)
}

fn refused_for(rt: &impl Abort, alloc: Global, hasher: RandomState, text: &str, reason: Reason) {
    match made(alloc, hasher, text) {
        Ok(_) => panic!(rt; "not refused"),
        Err(refusal) => assert!(rt; refusal.reason == reason, "another reason"),
    }
}

#[test]
fn macros_within_macros(rt: HostRuntime) -> Result<(), Fail> {
    let hasher = RandomState::new(&rt)?;
    // 200 names, and 201
    let text = chain(rt.alloc(), 199)?;
    assert!(rt; made(rt.alloc(), hasher, text.as_str()).is_ok());
    let text = chain(rt.alloc(), 200)?;
    refused_for(&rt, rt.alloc(), hasher, text.as_str(), Reason::TooDeep);
    Ok(())
}

#[test]
fn parameters(rt: HostRuntime) -> Result<(), Fail> {
    let hasher = RandomState::new(&rt)?;
    let mut text = String::from_str(rt.alloc(), "#define F(a")?;
    for i in 0..255u32 {
        let name = format!(in rt.alloc(); ", a{i}")?;
        text.push_str(name.as_str())?;
    }
    // 256 of them, and 257
    let mut other = text.clone()?;
    text.push_str(") a\n")?;
    assert!(rt; made(rt.alloc(), hasher, text.as_str()).is_ok());
    other.push_str(", b) a\n")?;
    refused_for(
        &rt,
        rt.alloc(),
        hasher,
        other.as_str(),
        Reason::TooManyTokens,
    );
    Ok(())
}
