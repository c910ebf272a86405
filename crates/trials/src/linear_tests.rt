//! The output of a map on a list of updates.
use crate::sketches::{list, map};
use linear::{apply, takes_rows};
use row::Item;
use std::test::Fail;

// Columns are moved and made up. Rows with the same image stay separate, even if they would cancel,
// and each keeps its time.
#[test]
fn maps_make_images(rt: HostRuntime) -> Result<(), Fail> {
    let node = map(rt.alloc(), 0, &[Item::Constant(-5), Item::Column(0)])?;
    let mut given = list(rt.alloc(), &[((5, 0), &[3, 4], 2), ((5, 0), &[3, 9], -2)])?;
    let want = list(rt.alloc(), &[((5, 0), &[-5, 3], 2), ((5, 0), &[-5, 3], -2)])?;
    assert!(rt; node.is_linear());
    assert!(rt; takes_rows(&node, &given));
    assert!(rt; apply(&node, &mut given) == Ok(()));
    assert!(rt; given == want);
    Ok(())
}
