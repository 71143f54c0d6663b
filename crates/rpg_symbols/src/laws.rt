//! A law of the definitions. The function does nothing: it is called only for its contract.

ghost use Rattle.rpg_symbols.specs.Chains.{AreOfChains, Calls};

/// For any calls, `reaches` holds exactly if a chain of any length leads there, and `level_within` is that of a longest chain of at most
/// the given number of calls.
pub fn calls_are_of_chains()
    ensures { (calls : Calls) → AreOfChains calls }
{}
