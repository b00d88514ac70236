// The three demands, each a theorem over the operations' own definitions. No code.
#![tactic(auto)]
