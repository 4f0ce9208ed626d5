// Whole won, which may be below nought: sums of them, and quotients that are rounded down, as definitions and laws.
#![tactic(auto)]
