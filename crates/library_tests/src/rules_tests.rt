use amount::{Amount, Volume, Water};
use clustering::{RowRuns, SingleCells};
use fluxes::{Advection, Feed};
use grid::{Patch, Place, Side};
use interfaces::{CellMaps, Clustering, Flagging, Flux, Neighbours, Split};
use model::Direction;
use refinement::{EvenSplit, FromColumn, Steep};
use std::test::Fail;

fn volume(units: i64) -> Volume {
    Volume { units }
}

#[test]
fn speeds_have_a_range(rt: HostRuntime) -> Result<(), Fail> {
    assert!(rt; Advection::new(128, -128).is_ok());
    let refusal = Advection::new(0, 129)
        .err()
        .ok_or_else(|| Fail::new("129 is out of range"))?;
    assert_eq!(rt; refusal.number(), 14);
    Ok(())
}

#[test]
fn volumes_are_carried_and_fed(rt: HostRuntime) -> Result<(), Fail> {
    let below = Advection::new(64, 0).map_err(|_| Fail::new("64 is in range"))?;
    let amounts = [volume(40), volume(10), volume(2)];
    let rule = Feed { below, amounts };
    let east = rule.interior(0, Direction::East, volume(-2), volume(7));
    assert_eq!(rt; east.units, -1);
    let west_side = rule.boundary(1, Side::West, 0, 0, volume(100));
    assert_eq!(rt; west_side.units, 10);
    let east_side = rule.boundary(1, Side::East, 0, 0, volume(100));
    assert_eq!(rt; east_side.units, -25);
    Ok(())
}

#[test]
fn volumes_are_shared_and_flagged(rt: HostRuntime) {
    let (sw, se, nw, ne) = EvenSplit.split(volume(-2));
    assert_eq!(rt; (sw.units, se.units, nw.units, ne.units), (0, 0, -1, -1));
    let neighbours = Neighbours {
        west: volume(100),
        east: volume(90),
        south: volume(111),
        north: volume(100),
    };
    let place = Place { x: 5, y: 0 };
    assert!(rt; Steep { threshold: 10 }.flag(1, place, volume(100), &neighbours));
    assert!(rt; !Steep { threshold: 11 }.flag(1, place, volume(100), &neighbours));
    assert!(rt; FromColumn { column: 2 }.flag(1, place, volume(0), &neighbours));
    assert!(rt; !FromColumn { column: 3 }.flag(1, place, volume(0), &neighbours));
}

#[test]
fn wanted_cells_become_patches(rt: HostRuntime) {
    let wanted = [1, 1, 0, 1, 0, 1, 1, 0];
    let cells = CellMaps {
        width: 4,
        height: 2,
        wanted: &wanted,
        nested: &wanted,
    };
    let mut patches = [Patch::default(); 5];
    assert_eq!(rt; RowRuns.cluster(&cells, &mut patches).ok(), Some(3));
    let third = Patch {
        x0: 1,
        y0: 1,
        x1: 3,
        y1: 2,
    };
    assert_eq!(rt; patches[2], third);
    assert_eq!(rt; SingleCells.cluster(&cells, &mut patches).ok(), Some(5));
    assert!(rt; SingleCells.cluster(&cells, &mut patches[0..4]).is_err());
}
