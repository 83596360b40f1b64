use amount::{Amount, Volume, Water};
use grid::Size;
use mesh::{Audit, Mesh};
use sheets::{Refusal, Sheets};
use std::alloc::{AllocError, Global};
use std::process::Abort;
use std::test::Fail;

// Two base cells and two levels: sheets of 10 entries.
const SMALL: Size = Size {
    width: 2,
    height: 1,
    levels: 2,
};

// Memory for five sheets.
#[derive(Drop)]
struct Memory<V> {
    contents: Vec<V>,
    before: Vec<V>,
    corrections: Vec<V>,
    marks: Vec<u8>,
    wanted: Vec<u8>,
}

impl<V: Copy> Memory<V> {
    // Sheets of these lengths, with this amount or a 9 in each entry.
    fn new(heap: Global, amount: V, lengths: [usize; 5]) -> Result<Memory<V>, AllocError> {
        let [contents, before, corrections, marks, wanted] = lengths;
        Ok(Memory {
            contents: vec![in heap; amount; contents]?,
            before: vec![in heap; amount; before]?,
            corrections: vec![in heap; amount; corrections]?,
            marks: vec![in heap; 9; marks]?,
            wanted: vec![in heap; 9; wanted]?,
        })
    }

    // put together here alone: a call takes all five
    fn lend(&mut self) -> Sheets<'_, V> {
        Sheets {
            contents: &mut self.contents,
            before: &mut self.before,
            corrections: &mut self.corrections,
            marks: &mut self.marks,
            wanted: &mut self.wanted,
        }
    }

    // What the second cell holds.
    fn second(&self) -> Result<V, Fail> {
        let second = self.contents.get(1).copied();
        second.ok_or_else(|| Fail::new("the sheets have a second cell"))
    }
}

// A small mesh over sheets of 10 entries.
fn open_small<V: Amount>(memory: &mut Memory<V>) -> Result<Mesh<V>, Fail> {
    Mesh::open(SMALL, memory.lend()).map_err(|_| Fail::new("2 by 1 opens"))
}

// Why a mesh of this size does not open over sheets of these lengths, if it does not. The contents must then be as they were.
fn refusal(
    rt: &impl Abort,
    heap: Global,
    size: Size,
    lengths: [usize; 5],
) -> Result<Option<Refusal>, Fail> {
    let mut memory = Memory::new(heap, Volume { units: 7 }, lengths)?;
    let refusal = Mesh::open(size, memory.lend()).err();
    let units = if refusal.is_some() { 7 } else { 0 };
    for content in memory.contents.iter() {
        assert_eq!(rt; content.units, units);
    }
    Ok(refusal)
}

#[test]
fn sizes_up_to_1024_base_cells_open(rt: HostRuntime) -> Result<(), Fail> {
    let largest = Size {
        width: 64,
        height: 16,
        levels: 3,
    };
    assert_eq!(rt; refusal(&rt, rt.alloc(), largest, [21504; 5])?, None);
    let larger = Size {
        width: 64,
        height: 17,
        levels: 3,
    };
    assert_eq!(rt;
        refusal(&rt, rt.alloc(), larger, [22848; 5])?,
        Some(Refusal::Size)
    );
    Ok(())
}

#[test]
fn each_sheet_has_its_length(rt: HostRuntime) -> Result<(), Fail> {
    assert_eq!(rt; refusal(&rt, rt.alloc(), SMALL, [10; 5])?, None);
    // by number: which of the five lengths is wrong
    for sheet in 0..5 {
        for length in [9, 11] {
            let mut lengths = [10; 5];
            lengths[sheet] = length;
            assert_eq!(rt;
                refusal(&rt, rt.alloc(), SMALL, lengths)?,
                Some(Refusal::SheetLength)
            );
        }
    }
    Ok(())
}

// What the second base cell of a small mesh holds after 3 units are poured at a place, and why that is refused, if it is.
fn poured(heap: Global, x: usize, y: usize) -> Result<(i64, Option<Refusal>), Fail> {
    let amount = Volume { units: 3 };
    let mut memory = Memory::new(heap, amount, [10; 5])?;
    let mut mesh = open_small(&mut memory)?;
    let refusal = mesh.pour(memory.lend(), x, y, amount).err();
    Ok((memory.second()?.units, refusal))
}

#[test]
fn pours_stay_inside(rt: HostRuntime) -> Result<(), Fail> {
    assert_eq!(rt; poured(rt.alloc(), 1, 0)?, (3, None));
    assert_eq!(rt; poured(rt.alloc(), 2, 0)?, (0, Some(Refusal::Outside)));
    assert_eq!(rt; poured(rt.alloc(), 0, 1)?, (0, Some(Refusal::Outside)));
    Ok(())
}

// What the second base cell of a small mesh holds, and what the audit reports, after an amount was poured there twice.
// In between a pour east of the grid and one north of it are refused.
fn poured_twice<V: Amount>(
    rt: &impl Abort,
    heap: Global,
    amount: V,
) -> Result<(V, Audit<V>), Fail> {
    let mut memory = Memory::new(heap, amount, [10; 5])?;
    let mut mesh = open_small(&mut memory)?;
    for (x, y, refusal) in [
        (1, 0, None),
        (2, 0, Some(Refusal::Outside)),
        (0, 1, Some(Refusal::Outside)),
        (1, 0, None),
    ] {
        assert_eq!(rt; mesh.pour(memory.lend(), x, y, amount).err(), refusal);
    }
    let audit = mesh.audit(&memory.lend());
    let audit = audit.map_err(|_| Fail::new("the sheets are whole and marked"))?;
    Ok((memory.second()?, audit))
}

#[test]
fn volumes_are_poured(rt: HostRuntime) -> Result<(), Fail> {
    let (held, audit) = poured_twice(&rt, rt.alloc(), Volume { units: -3 })?;
    assert_eq!(rt; held.units, -6);
    assert_eq!(rt; audit.total.units, -6);
    assert_eq!(rt; audit.poured.units, -6);
    assert_eq!(rt; audit.inward.units, 0);
    Ok(())
}

#[test]
fn waters_are_poured(rt: HostRuntime) -> Result<(), Fail> {
    let (held, audit) = poured_twice(&rt, rt.alloc(), Water { v: 4, p: -1, q: 5 })?;
    let Audit {
        steps,
        total,
        poured,
        inward: _,
    } = audit;
    assert_eq!(rt; (held.v, held.p, held.q), (8, -2, 10));
    assert_eq!(rt; (total.v, total.p, total.q), (8, -2, 10));
    assert_eq!(rt; (poured.v, poured.p, poured.q), (8, -2, 10));
    assert_eq!(rt; steps, 0);
    Ok(())
}

// Why a small mesh refuses a pour and an audit over a sheet `before` of this length, with one mark overwritten after it was opened.
// The contents must then be as they were.
fn spoiled(
    rt: &impl Abort,
    heap: Global,
    before_length: usize,
    index: usize,
    mark: u8,
) -> Result<Refusal, Fail> {
    let amount = Volume { units: 1 };
    let mut memory = Memory::new(heap, amount, [10; 5])?;
    let mut mesh = open_small(&mut memory)?;
    let place = memory.marks.get_mut(index);
    *place.ok_or_else(|| Fail::new("the sheets have 10 entries"))? = mark;
    memory.before.truncate(before_length);
    let Err(refusal) = mesh.audit(&memory.lend()) else {
        return Err(Fail::new("an audit accepts spoiled sheets"));
    };
    assert_eq!(rt; mesh.pour(memory.lend(), 1, 0, amount), Err(refusal));
    assert_eq!(rt; memory.second()?.units, 0);
    Ok(refusal)
}

#[test]
fn spoiled_sheets_are_refused(rt: HostRuntime) -> Result<(), Fail> {
    // the last mark of level 0, of a row of level 1, and of the sheet
    assert_eq!(rt; spoiled(&rt, rt.alloc(), 10, 1, 2)?, Refusal::Marks);
    assert_eq!(rt; spoiled(&rt, rt.alloc(), 10, 5, 1)?, Refusal::Marks);
    assert_eq!(rt; spoiled(&rt, rt.alloc(), 10, 9, 1)?, Refusal::Marks);
    assert_eq!(rt; spoiled(&rt, rt.alloc(), 9, 9, 0)?, Refusal::SheetLength);
    Ok(())
}
