//! A few sets, by example.
ghost use Rattle.std.specs.Prelude.{◌≡◌, IfOk};
ghost use Rattle.sets.specs.Sets.{members};

use super::*;
use std::alloc::{AllocError, Global};
use std::test::Fail;

/// The members of a set, as a `for` gives them.
fn listed(heap: Global, set: NumberSet) -> Result<Vec<u8>, AllocError>
    ensures { IfOk result (λ v. v.items ≡ members set) }
{
    set.iter().collect(heap)
}

#[test]
fn sets(rt: HostRuntime) -> Result<(), Fail> {
    let mut set = NumberSet::empty();
    assert!(rt; set.is_empty());
    for number in [9, 63, 0, 64, 9, 7] {
        set.insert(number);
    }
    assert_eq!(rt; listed(rt.alloc(), set)?, vec![in rt.alloc(); 0, 7, 9, 63]?);
    set.remove(7);
    set.remove(64);
    assert_eq!(rt; set.count(), 3);
    assert_eq!(rt; set.first(), Some(0));
    assert!(rt; set.contains(63) && !set.contains(7) && !set.contains(64));
    assert_eq!(rt; set, NumberSet::from_bits((1 << 63) + (1 << 9) + 1));
    assert!(rt; set.is_subset(NumberSet::below(64)) && !set.is_subset(NumberSet::below(63)));
    assert_eq!(rt; NumberSet::below(200).difference(set).count(), 61);
    assert_eq!(rt;
        listed(rt.alloc(), set.intersection(NumberSet::below(10)))?,
        vec![in rt.alloc(); 0, 9]?
    );
    Ok(())
}
