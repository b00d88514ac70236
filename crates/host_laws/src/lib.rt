// Calls on lent bytes follow the library's own operations, over any sequence of calls. No code.
#![tactic(auto)]
