// What the calls of a mesh mean, as definitions on fields of amounts: see specs/. A function here carries a theorem about them in its
// contract.
#![tactic(auto)]

ghost use Rattle.model.specs.Balance.{StepConserves, StepRestricts, IdleLevel, RegridConserves};
ghost use Rattle.model.specs.Ledger.{HistoryBalances, HistoryWellLaid, HistoryDeadZero, OpeningRight, MarksNeverRefused};
ghost use Rattle.model.specs.Clusterings.{ClusteringsLawful};
ghost use Rattle.model.specs.Examples.{SmallExample, NestingExample};

mod direction;

pub use direction::Direction;

// A step changes the composite total by exactly its inward amount.
pub fn step_conserves<V>()
    ensures { StepConserves V }
{}

// After a step each covered cell holds the sum of its children.
pub fn step_restricts<V>()
    ensures { StepRestricts V }
{}

// A level step on a level without live cells changes nothing and has no inward amount.
pub fn idle_level<V>()
    ensures { IdleLevel V }
{}

// A regrid keeps the composite total, and that each covered cell holds the sum of its children.
pub fn regrid_conserves<V>()
    ensures { RegridConserves V }
{}

// In every history, after each answer: the composite total is what the ledger says was poured and came inward, an audit says so, the
// patches share no cell and covered cells have their whole ring live, a regrid covers what it wanted and leaves the other uncovered
// cells alone, and contents and marks are the sheets of the mesh.
pub fn history_balances<V>()
    ensures { HistoryBalances V }
{}

// In every history the patches are well laid.
pub fn history_well_laid<V>()
    ensures { HistoryWellLaid V }
{}

// In every history a cell that is not live holds zero.
pub fn history_dead_zero<V>()
    ensures { HistoryDeadZero V }
{}

// An accepted opening leaves the mesh that histories begin with, and its contents and marks.
pub fn opening_begins<V>()
    ensures { OpeningRight V }
{}

// No call of a history is refused because its marks differ from what the patches say.
pub fn marks_never_refused<V>()
    ensures { MarksNeverRefused V }
{}

// The clusterings by runs and by cells keep the law of clusterings, so that histories speak of them.
pub fn clusterings_lawful()
    ensures { ClusteringsLawful }
{}

// Two pours, a regrid, a step, a refused regrid and an audit on a mesh of 4 by 1 base cells and 2 levels, worked out.
pub fn small_example()
    ensures { SmallExample }
{}

// Regrids on a mesh of 8 by 1 base cells and 3 levels, worked out: the nesting cells keep a patch that nothing flags.
pub fn nesting_example()
    ensures { NestingExample }
{}
