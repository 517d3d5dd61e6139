//! Selected code without what it does for nothing.
//!
//! `tidy` gives tidy code (`specs/Tidy`, `IsTidy`) that may stand in the place of the code
//! (`Preserves` of vc_same): it is valid and sized, no larger, and does the same in every run that
//! is never stuck. It has no more variables of any kind (`KeepsKinds`). Tidy code has
//!
//! - no pure instruction all of whose results are dead;
//! - no copy between two variables that may be one. Of these one is Plain, the other one Plain or an
//!   argument's; no other instruction has both; and none but a copy between the two overwrites one
//!   of them while the other is live behind it. Both may be live at once where they are equal: a
//!   copy makes no interference (Chaitin et al., Register allocation via coloring, Computer
//!   Languages 6, 1981, of subsumption);
//! - no variable that no instruction has, but those of arguments.
//!
//! It goes step by step until none of the three is left. Each block is read backwards with marks of
//! what is live (`specs/Thinned`): what is left out keeps nothing live in front of it, so the dead
//! code of a block goes at once, however long its chains. Variables that are copied into each other
//! are joined in classes, as many as never meet by one liveness (`specs/Joined`). A class has at most
//! one variable of an argument, whose number is then its name. While none has been joined each class
//! has one variable, and then the test is exact: what it keeps apart can't be one. The variables that
//! are left get new numbers in their order (`specs/Unused`).
#![tactic(auto)]

mod classes;
mod copies;
mod dead;
mod join;
mod marks;
mod meets;
mod places;
mod steps;
mod unused;

pub use steps::tidy;
