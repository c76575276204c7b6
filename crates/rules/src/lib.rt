// The rule book: definitions only, in specs/. What each layer is proved against.
#![tactic(auto)]
