//! Marks, nodes and drawings of small sources.
use crate::{Page, Source, Span, draw};
use std::test::Fail;

#[test]
fn draws(rt: HostRuntime) -> Result<(), Fail> {
    let alloc = rt.alloc();
    let mut page = Page::new(alloc);
    let source = Source {
        name: "a.wy",
        bytes: b"one\n\tx + y\n",
    };
    draw(&mut page, &source, Span { from: 5, to: 10 })?;
    assert_eq!(rt;
        page.as_slice(),
        b"    2 | \tx + y\n      | \t^^^^^\n".as_slice()
    );
    Ok(())
}
