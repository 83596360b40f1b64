// A history worked out with the delivered rules, as they are defined.
#![tactic(auto)]

ghost use Rattle.worked_example.specs.Canal.{SmallCanal};

// Two pours, a regrid, a step, a refused regrid and an audit on a mesh of 4 by 1 base cells and 2 levels.
pub fn small_canal()
    ensures { SmallCanal }
{}
