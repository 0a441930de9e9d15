//! Tests of the balance rules.
use super::*;

#[test]
fn depth_limits(rt: HostRuntime) {
    assert_eq!(rt; limit(0), 0);
    assert_eq!(rt; limit(1), 0);
    assert_eq!(rt; limit(2), 1);
    assert_eq!(rt; limit(3), 2);
    assert_eq!(rt; limit(4), 3);
    assert_eq!(rt; limit(5), 3);
    assert_eq!(rt; limit(98_304), 28);
    assert_eq!(rt; limit(1_572_864), 35);
}

// The fifth of five ascending items stands at depth 4 below trees of 2, 3, 4 and 5 items.
#[test]
fn a_fifth_ascending_item(rt: HostRuntime) {
    assert_eq!(rt; too_deep(4, 5), true);
    assert_eq!(rt; too_deep(3, 4), false);
    assert_eq!(rt; pick(&[2, 3, 4, 5]), 3);
    assert_eq!(rt; needs_whole(3, 5), true);
    assert_eq!(rt; needs_whole(2, 3), false);
}

#[test]
fn links_of_three_items(rt: HostRuntime) -> Result<(), OutOfMemory> {
    let links = balanced_links(rt.alloc(), 3)?;
    assert_eq!(rt; links.len(), 3);
    assert_eq!(rt; links[1].left, Some(0));
    assert_eq!(rt; links[1].right, Some(2));
    assert_eq!(rt; links[0].left, None);
    Ok(())
}
