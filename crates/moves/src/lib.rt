// Moves worked out by hand and held against the definitions: that those say what was meant can be read here, on sheets,
// deadlines and jobs of a few numbers each.
#![tactic(auto)]

ghost use Rattle.moves.specs.Moves.{WorkedMoves};

// The moves stand on a contract, so that their proof is asked for.
pub fn worked_moves()
    ensures worked { WorkedMoves }
{}
