#![tactic(auto)]

// Sequences of calls: what a person sees of a volume, what the accepted calls give when worked out afresh, and that the two are the same. No code.
