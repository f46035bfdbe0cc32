// 01's reckonings marked *, as one table under one statement (specs/Reckonings.antt); no functions. The program `cases` names the statement
// and runs the others.
#![tactic(auto)]
