// The rules that a header names, beside those that take numbers. They are read and checked; no call asks them yet.

// How a parent's content is split.
#[derive(Clone, Copy, PartialEq, Eq, Debug)]
pub enum SplitName {
    First,
    Even,
}

// How wanted cells become patches.
#[derive(Clone, Copy, PartialEq, Eq, Debug)]
pub enum ClusterName {
    Runs,
    Cells,
}

// Which flux rule a rule line names.
#[derive(Clone, Copy, PartialEq, Eq, Debug)]
pub enum RuleName {
    Advect,
    Water,
}

// The spellings of the flux rules.
pub(crate) const RULES: [(&str, RuleName); 2] = [
    ("advect", RuleName::Advect),
    ("water", RuleName::Water),
];
