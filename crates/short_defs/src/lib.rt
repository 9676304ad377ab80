// No code: the definitions of short records and of moves between the two forms of a record, and their laws.
#![tactic(auto)]
