// Worked examples of the definitions, as one theorem.
ghost use Rattle.systems.specs.Examples.{WorkedExamples};
ghost use Rattle.systems.specs.Lines.{ChainsAreWalks};

// `chains`: the line drawing works exactly where a walk leads along lines that are up, which the bridge among the examples rests on.
pub fn worked_examples()
    ensures examples { WorkedExamples }
    ensures chains { ChainsAreWalks }
{}
