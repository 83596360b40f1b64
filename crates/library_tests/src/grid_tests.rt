use grid::{Layout, Patch, PatchTable, Place, Size};
use std::test::Fail;

#[test]
fn sizes_in_range(rt: HostRuntime) -> Result<(), Fail> {
    let largest = Size {
        width: 64,
        height: 16,
        levels: 3,
    };
    let layout = Layout::flat(largest).ok_or_else(|| Fail::new("64 by 16 is in range"))?;
    assert_eq!(rt; layout.sheet_length(), 21504);
    let last = Place { x: 255, y: 63 };
    assert_eq!(rt; layout.index(2, last), Some(21503));
    assert_eq!(rt; layout.cell(21503), Some((2, last)));
    assert_eq!(rt; layout.cell(21504), None);
    let larger = Size {
        width: 64,
        height: 17,
        levels: 3,
    };
    assert!(rt; Layout::flat(larger).is_none());
    Ok(())
}

#[test]
fn marks_of_a_patch(rt: HostRuntime) -> Result<(), Fail> {
    let size = Size {
        width: 4,
        height: 1,
        levels: 2,
    };
    let flat = Layout::flat(size).ok_or_else(|| Fail::new("4 by 1 is in range"))?;
    let mut patches = [Patch::default(); 128];
    patches[0] = Patch {
        x0: 1,
        y0: 0,
        x1: 3,
        y1: 1,
    };
    let first = PatchTable {
        width: 4,
        height: 1,
        patches,
        count: 1,
    };
    let second = flat.second;
    let layout = Layout {
        size,
        first,
        second,
    };
    let mut marks = [1, 2, 2, 1, 0, 0, 1, 1, 1, 1, 0, 0, 0, 0, 1, 1, 1, 1, 0, 0];
    assert!(rt; layout.marks_agree(&marks));
    assert!(rt; !flat.marks_agree(&marks));
    marks[3] = 2;
    assert!(rt; !layout.marks_agree(&marks));
    assert!(rt; !layout.marks_agree(&marks[0..19]));
    Ok(())
}
