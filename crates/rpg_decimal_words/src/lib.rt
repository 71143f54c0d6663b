//! Numbers, their texts, moves, and the order of texts: only definitions (in
//! specs/).
#![tactic(auto)]
