//! Tests of paths and codes.
use super::*;

#[test]
fn codes_of_root_and_children(rt: HostRuntime) {
    assert_eq!(rt; code(root()), 0x8000_0000_0000_0000);
    assert_eq!(rt; code(child(root(), Side::Left)), 0x4000_0000_0000_0000);
    assert_eq!(rt; code(child(root(), Side::Right)), 0xc000_0000_0000_0000);
}

#[test]
fn paths_of_codes(rt: HostRuntime) {
    assert_eq!(rt; path_of(0x8000_0000_0000_0000), Some(root()));
    assert_eq!(rt;
        path_of(0x4000_0000_0000_0000),
        Some(child(root(), Side::Left))
    );
    assert_eq!(rt; path_of(0), None);
}

// The subtree at the right child of the root becomes that at the left child; in it lies the place right, then left.
#[test]
fn a_code_moves_with_its_subtree(rt: HostRuntime) {
    let m = Move {
        from: child(root(), Side::Right),
        to: child(root(), Side::Left),
    };
    assert_eq!(rt;
        move_enc(m, 0xa000_0000_0000_0000),
        Some(0x2000_0000_0000_0000)
    );
    assert_eq!(rt; move_enc(m, 0x4000_0000_0000_0000), None);
}
