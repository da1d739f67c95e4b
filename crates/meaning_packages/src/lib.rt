//! What is to be said of the bodies and the functions of a package: definitions. It runs nothing.
#![tactic(auto)]
