//! What was asked for is acquired before the rest.
use crate::fixture::{card, has_line, reports, run};
use crate::gates::{AskedFirst, FirstPublished};
use std::alloc::{AllocError, Global};
use std::test::Fail;

/// Three sectors of one priority.
const THREE: &str = "extent 0 512 0\nextent 512 512 0\nextent 1024 512 0\n";

/// While the worker reads the first extent, a session reads a byte of the last one: it is not known yet, and comes next.
#[test]
fn demanded_first(rt: HostRuntime) -> Result<(), Fail> {
    let text = format!(in rt.alloc(); "{THREE}session\nread 1024 1\n")?;
    let ran = run(
        &rt,
        text.as_bytes(),
        card(rt.alloc(), 1_536, &[])?,
        &[],
        &AskedFirst::new(1),
    )?;
    reports(
        &ran,
        "
publication 1 0 0 own - c0+1
publication 2 2 0 own - c1+1
publication 3 1 0 own - c2+1
session 1
read 1024 1 0
unknown 1024 1
md5 ",
    )
}

/// A session that reads behind the first publication is answered by it, or by more.
#[test]
fn demanded_first_and_known(rt: HostRuntime) -> Result<(), Fail> {
    let text = format!(in rt.alloc(); "{THREE}session\nread 0 1\n")?;
    let ran = run(
        &rt,
        text.as_bytes(),
        card(rt.alloc(), 1_536, &[])?,
        &[],
        &FirstPublished::new(),
    )?;
    reports(
        &ran,
        "
known 0 1 ca358758f6d27e6cf45272937977a748fd88391db679ceda7dc7bf1f005ee879
md5 ",
    )?;
    let fronts = ["\nread 0 1 1\n", "\nread 0 1 2\n", "\nread 0 1 3\n"];
    assert!(rt; fronts.iter().any(|line| has_line(&ran, line)));
    Ok(())
}

/// So many sectors of one priority, and a session that raises the last one, behind a first question and before a second.
fn last_raised(alloc: Global, count: u64) -> Result<String, AllocError> {
    let mut text = String::new(alloc);
    let mut at: u64 = 0;
    for _ in 0..count {
        text.push_str(&format!(in alloc; "extent {at} 512 0\n")?)?;
        at = at.saturating_add(512);
    }
    let last = at.saturating_sub(512);
    text.push_str(&format!(in alloc; "session\nread 0 0\nraise {last} 512\nread 0 0\n")?)?;
    Ok(text)
}

/// The last extent of a thousand is raised while the worker reads the first, for which it has not been asked yet: the raised one
/// is the second to be published.
#[test]
fn the_last_of_a_thousand_is_raised(rt: HostRuntime) -> Result<(), Fail> {
    let text = last_raised(rt.alloc(), 1_000)?;
    let ran = run(
        &rt,
        text.as_bytes(),
        card(rt.alloc(), 512_000, &[])?,
        &[],
        &AskedFirst::new(2),
    )?;
    reports(
        &ran,
        "
publication 1 0 0 own - c0+1
publication 2 999 0 own - c1+1
publication 3 1 0 own - c2+1
",
    )
}
