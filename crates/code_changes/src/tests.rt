//! The searches, over the codes of a small tree and a change of it.
use crate::searches::{holds, new_code};
use path_code::Recode;

/// The code after the change where a fifth ascending value is too deep and the whole tree becomes balanced.
fn after_balance(code: u64) -> u64 {
    let moved = [
        Recode {
            old: 0x8000_0000_0000_0000,
            new: 0x2000_0000_0000_0000,
        },
        Recode {
            old: 0xc000_0000_0000_0000,
            new: 0x4000_0000_0000_0000,
        },
        Recode {
            old: 0xe000_0000_0000_0000,
            new: 0x8000_0000_0000_0000,
        },
        Recode {
            old: 0xf000_0000_0000_0000,
            new: 0xa000_0000_0000_0000,
        },
    ];
    new_code(&moved, code)
}

/// Whether a code is one of the balanced tree of three items.
fn is_of_three(code: u64) -> bool {
    let codes = [
        0x4000_0000_0000_0000,
        0x8000_0000_0000_0000,
        0xc000_0000_0000_0000,
    ];
    holds(&codes, code)
}

#[test]
fn rebuild_on_depth(rt: HostRuntime) {
    assert_eq!(rt; after_balance(0x8000_0000_0000_0000), 0x2000_0000_0000_0000);
    assert_eq!(rt; after_balance(0xc000_0000_0000_0000), 0x4000_0000_0000_0000);
    assert_eq!(rt; after_balance(0xe000_0000_0000_0000), 0x8000_0000_0000_0000);
    assert_eq!(rt; after_balance(0xf000_0000_0000_0000), 0xa000_0000_0000_0000);
    assert_eq!(rt; after_balance(0x4000_0000_0000_0000), 0x4000_0000_0000_0000);
    assert_eq!(rt; after_balance(0xf800_0000_0000_0000), 0xf800_0000_0000_0000);
}

#[test]
fn codes_of_three(rt: HostRuntime) {
    assert!(rt; is_of_three(0x4000_0000_0000_0000));
    assert!(rt; is_of_three(0x8000_0000_0000_0000));
    assert!(rt; is_of_three(0xc000_0000_0000_0000));
    assert!(rt; !is_of_three(0x2000_0000_0000_0000));
    assert!(rt; !is_of_three(0xa000_0000_0000_0000));
    assert!(rt; !is_of_three(0xe000_0000_0000_0000));
}
