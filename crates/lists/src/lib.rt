// Lists as the laws of this project speak of them: by their entries, by tests on them, and by place. No code.
#![tactic(auto)]
