// Asks shallow water for every flux of one level, round after round, so that its answers can be timed from outside. What it prints is
// the number of the answers and their sum.
#![tactic(auto)]

use amount::{Amount, Water};
use grid::Side;
use interfaces::Flux;
use model::Direction;
use shallow_water::ShallowWater;

// The finest level of the largest mesh, 64 by 16 base cells, and how often it is gone over.
const LEVEL: usize = 2;

const WIDTH: usize = 256;

const HEIGHT: usize = 64;

const ROUNDS: usize = 1000;

// What a cell holds in a round.
fn content(round: usize, x: usize, y: usize) -> Water {
    let columns = x.wrapping_mul(7919);
    let rows = y.wrapping_mul(104_729);
    let rounds = round.wrapping_mul(1_299_709);
    let mixed = columns.wrapping_add(rows).wrapping_add(rounds) % 1_000_003;
    Water {
        v: (mixed % 2000) as i32,
        p: (mixed % 1009) as i32 - 504,
        q: (mixed % 907) as i32 - 453,
    }
}

// The fluxes over the west and the south face of a cell.
fn low_faces(rule: &ShallowWater, round: usize, x: usize, y: usize) -> [Water; 2] {
    let here = content(round, x, y);
    let west = match x.checked_sub(1) {
        Some(x) => rule.interior(LEVEL, Direction::East, content(round, x, y), here),
        None => rule.boundary(LEVEL, Side::West, y, 0, here),
    };
    let south = match y.checked_sub(1) {
        Some(y) => rule.interior(LEVEL, Direction::North, content(round, x, y), here),
        None => rule.boundary(LEVEL, Side::South, x, 0, here),
    };
    [west, south]
}

// The number of all fluxes of the level, and their sum.
fn round_sum(rule: &ShallowWater, round: usize) -> (u64, Water) {
    let mut count = 0u64;
    let mut sum = Water::zero();
    for y in 0..HEIGHT {
        for x in 0..WIDTH {
            for flux in low_faces(rule, round, x, y) {
                sum = sum.add(flux);
                count = count.saturating_add(1);
            }
        }
        let last = content(round, WIDTH - 1, y);
        sum = sum.add(rule.boundary(LEVEL, Side::East, y, 0, last));
        count = count.saturating_add(1);
    }
    for x in 0..WIDTH {
        let last = content(round, x, HEIGHT - 1);
        sum = sum.add(rule.boundary(LEVEL, Side::North, x, 0, last));
        count = count.saturating_add(1);
    }
    (count, sum)
}

fn main(rt: HostRuntime) -> anyhow::Result<()> {
    let Ok(rule) = ShallowWater::new(16) else {
        return Ok(());
    };
    let mut answers = 0u64;
    let mut total = Water::zero();
    for round in 0..ROUNDS {
        let (count, sum) = round_sum(&rule, round);
        answers = answers.saturating_add(count);
        total = total.add(sum);
    }
    println!(rt; "{answers} fluxes, sum {} {} {}", total.v, total.p, total.q)?;
    Ok(())
}
