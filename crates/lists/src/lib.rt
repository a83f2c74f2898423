// Words on lists that every definition of the bench is written in. There is no code here: see specs/Lists.antt.
#![tactic(auto)]
