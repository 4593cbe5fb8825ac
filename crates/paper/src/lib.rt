// The paper's own steps for renaming and reverting, and where 01 departs from them: definitions and theorems. No code.

#![tactic(auto)]
