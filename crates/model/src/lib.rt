// The definitions of every operation of the bench, on lists of records: see specs/. There is no code here.
#![tactic(auto)]
