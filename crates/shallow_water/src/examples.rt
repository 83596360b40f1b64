// Three fluxes worked out.
ghost use Rattle.shallow_water.specs.Waves.{ShallowWaterExamples};

pub fn shallow_water_examples()
    ensures { ShallowWaterExamples }
{}
